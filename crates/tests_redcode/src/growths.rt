//! Growths that are refused: which calls take memory, and which need none.
//!
//! A run that meets a refusal lacks memory and says nothing else, and the same call made again gives its answer.

use crate::expansion::{
    COPIED, COPIED_LABELS, COPIED_WRITTEN_OUT, Label, Row, check_written, written_out,
};
use crate::expecting::expect_same;
use crate::sources::defaults;
use crate::tokens::{MOVED, Same, gives, tokens_of};
use bumpalo::Bump;
use redcode_asm::{assemble, load_text};
use redcode_expand::{Expanded, LineKind, expand};
use redcode_text::{scan, value};
use std::alloc::{AllocError, Global};
use std::process::Abort;
use tests_fixtures::{IMP, MOST_RUNS, Refusing, dat, instruction, refuse_each};
use war_types::{AsmFault, Instr, Settings, Title, Warrior};

/// A call that takes memory.
#[derive(Clone, Copy)]
enum Call {
    Scan,
    Expand,
    AssembleNamed,
    AssembleCopied,
    LoadText,
}

/// A name and what it stands for.
const NAMED: &[u8] = b"x EQU 3+4\nDAT 0, x*2";

const NAMED_CODE: [Instr; 1] = [dat!(0, 11)];

const COPIED_CODE: [Instr; 3] = [dat!(0, 1), dat!(0, 2), instruction!(Jmp.B 7999, 0)];

/// Whether a line gives its tokens.
fn is_scanned(memory: &Refusing<Global>) -> Result<bool, AsmFault> {
    let tokens = scan(memory, b"MOV.I #-1,>x2 ;c")?;
    let gives = gives(tokens.as_slice(), &MOVED);
    drop(tokens);
    Ok(gives)
}

/// These are the copies of a block.
fn are_copies(rt: &(impl Abort + AllocGlobal), copies: &Expanded<'_, &Refusing<Global>>) -> bool {
    check_written(rt, copies, &COPIED_WRITTEN_OUT, &COPIED_LABELS);
    true
}

/// A block is written out as its copies.
fn is_expanded(
    rt: &(impl Abort + AllocGlobal),
    memory: &Refusing<Global>,
) -> Result<bool, AsmFault> {
    let region = Bump::new(memory);
    match expand(memory, &region, COPIED, &defaults(rt)) {
        Ok(copies) => {
            let is_due = are_copies(rt, &copies);
            drop(copies);
            Ok(is_due)
        }
        Err(fault) => Err(fault),
    }
}

/// Whether a source gives this code.
fn has_code(
    rt: &impl Abort,
    memory: &Refusing<Global>,
    source: &[u8],
    code: &[Instr],
) -> Result<bool, AsmFault> {
    let warrior = assemble(memory, source, &defaults(rt))?;
    let is_due = warrior.code() == code && warrior.start() == 0;
    drop(warrior);
    Ok(is_due)
}

/// Whether the load text of an imp is right.
fn is_printed(
    rt: &(impl Abort + AllocGlobal),
    memory: &Refusing<Global>,
) -> Result<bool, AsmFault> {
    let settings = defaults(rt);
    let warrior = assemble(rt.alloc(), b"MOV 0, 1", &settings).expect(rt, "there is memory");
    let text = load_text(memory, &warrior, settings.core());
    drop(warrior);
    match text {
        Ok(text) => {
            let is_imp = text.as_slice() == b"ORG 0\nMOV.I  $     0, $     1\nEND\n".as_slice();
            drop(text);
            Ok(is_imp)
        }
        Err(AllocError) => Err(AsmFault::MEMORY),
    }
}

/// Whether a call gives its answer, or how it fails.
fn answer(
    rt: &(impl Abort + AllocGlobal),
    memory: &Refusing<Global>,
    call: Call,
) -> Result<bool, AsmFault> {
    match call {
        Call::Scan => is_scanned(memory),
        Call::Expand => is_expanded(rt, memory),
        Call::AssembleNamed => has_code(rt, memory, NAMED, &NAMED_CODE),
        Call::AssembleCopied => has_code(rt, memory, COPIED, &COPIED_CODE),
        Call::LoadText => is_printed(rt, memory),
    }
}

/// `count` growths were refused.
fn check_refusals(rt: &impl Abort, memory: &Refusing<Global>, count: u64) {
    expect_same(rt, &memory.refused(), &count, "growths refused");
}

/// A run that met a refusal lacks memory, and the same call made again gives its answer; else the run gave it.
fn check_run(rt: &(impl Abort + AllocGlobal), memory: &Refusing<Global>, call: Call, name: &str) {
    match answer(rt, memory, call) {
        Ok(is_due) => {
            assert!(rt; is_due);
            check_refusals(rt, memory, 0);
        }
        Err(fault) => {
            expect_same(rt, &fault, &AsmFault::MEMORY, name);
            check_refusals(rt, memory, 1);
            expect_same(rt, &answer(rt, memory, call), &Ok(true), name);
        }
    }
}

/// Calls and their names, and how many growths each takes if that is plain. A scan takes room for four tokens, then for eight and for
/// sixteen. A load text of 34 bytes takes room for four of them, then for twice as many up to 64.
const CALLS: [(Call, &str, Option<u64>); 5] = [
    (Call::Scan, "Scan", Some(3)),
    (Call::Expand, "Expand", None),
    (Call::AssembleNamed, "AssembleNamed", None),
    (Call::AssembleCopied, "AssembleCopied", None),
    (Call::LoadText, "LoadText", Some(5)),
];

/// There was one run more than growths, if their number is known.
fn check_runs(rt: &impl Abort, runs: u64, growths: Option<u64>, name: &str) {
    assert!(rt; 1 < runs && runs < MOST_RUNS, "{name}");
    if let Some(growths) = growths {
        expect_same(rt, &(runs - 1), &growths, name);
    }
}

#[test]
fn each_growth_of_a_call(rt: HostRuntime) {
    let memory = Refusing::new(rt.alloc());
    for (call, name, growths) in &CALLS {
        let runs = refuse_each(&memory, |_k| check_run(&rt, &memory, *call, name));
        check_runs(&rt, runs, *growths, name);
    }
    drop(memory);
}

/// A source is written out to lines and labels that are found without another growth.
fn check_found(
    rt: &(impl Abort + AllocGlobal),
    memory: &Refusing<Global>,
    source: &[u8],
    rows: &[Row],
    labels: &[Label],
) {
    memory.refuse(0, 0);
    let region = Bump::new(memory);
    let written = written_out(rt, memory, &region, source);
    memory.refuse(0, u64::MAX);
    check_written(rt, &written, rows, labels);
    drop(written);
    drop(region);
    check_refusals(rt, memory, 0);
}

const NAMED_WRITTEN_OUT: [Row; 1] = [(2, LineKind::Operation, 0, b"", b" DAT 0 , 3 + 4 * 2")];

/// A source with a name and an author.
const TITLED: &[u8] = b";name Imp\n;author A. K. Dewdney\nMOV 0,1";

const TITLED_WRITTEN_OUT: [Row; 3] = [
    (1, LineKind::Name, 0, b" Imp", b""),
    (2, LineKind::Author, 0, b" A. K. Dewdney", b""),
    (3, LineKind::Operation, 0, b"", b" MOV 0 , 1"),
];

/// An expression has its value without another growth.
fn check_value(rt: &impl Abort, memory: &Refusing<Global>) {
    memory.refuse(0, 0);
    let tokens = tokens_of(rt, memory, b"1+2*3==7 && !0");
    memory.refuse(0, u64::MAX);
    let found = value(tokens.as_slice(), &Same { value: None });
    check_refusals(rt, memory, 0);
    drop(tokens);
    expect_same(rt, &found, &Ok(1), "a value");
}

/// Whether a warrior can be made of this code, and fits.
fn is_made(code: Vec<Instr, &Refusing<Global>>, settings: &Settings) -> bool {
    let name = Title::new(b"Imp", "Unnamed");
    let author = Title::new(b"", "Anonymous");
    match Warrior::new(code, 0, name, author, settings) {
        Some(warrior) => {
            let is_due = warrior.fits(settings) && warrior.name().bytes() == b"Imp".as_slice();
            drop(warrior);
            is_due
        }
        None => false,
    }
}

/// A warrior is made of its code without another growth.
fn check_made(rt: &impl Abort, memory: &Refusing<Global>) {
    memory.refuse(0, 0);
    let code = Vec::from_slice(memory, &[IMP]).expect(rt, "there is memory");
    memory.refuse(0, u64::MAX);
    assert!(rt; is_made(code, &defaults(rt)));
    check_refusals(rt, memory, 0);
}

#[test]
fn what_takes_no_memory(rt: HostRuntime) {
    let memory = Refusing::new(rt.alloc());
    check_found(&rt, &memory, COPIED, &COPIED_WRITTEN_OUT, &COPIED_LABELS);
    check_found(&rt, &memory, NAMED, &NAMED_WRITTEN_OUT, &[]);
    check_found(&rt, &memory, TITLED, &TITLED_WRITTEN_OUT, &[]);
    check_value(&rt, &memory);
    check_made(&rt, &memory);
    drop(memory);
}
