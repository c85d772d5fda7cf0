//! The listing.

ghost use Rattle.std.specs.{Prelude.{◌≡◌, ◌++◌, ◌<◌, [], All, OnOk, length}, Result.IfOk};
ghost use Rattle.{war_types.specs.Warrior.HasNumbersBelow, redcode_asm.specs.LoadText.load_text};
ghost use Rattle.redcode_listing.specs.Listing.{copy_text, instr_text, label_text, label_texts, listed, note_at, note_text, text_with, IsListing};

use crate::labels::{Label, labels_in};
use crate::lines::{instruction_lines, times};
use bumpalo::Bump;
use itoa::Buffer;
use redcode_expand::{Line, expand};
use redcode_lines::{live_source, source_lines};
use redcode_statement::append_line;
use std::alloc::{AllocError, Allocator};
use war_types::{Instr, Settings, Warrior};

/// The load text of the warrior that a source gives under these settings, with a comment after each instruction: its
/// address from the first instruction, its line in the source, the number of its copy if that line is written out more
/// than once, and its labels. The error is lack of memory.
pub fn listing<A: Allocator + Copy, B: Allocator>(
    alloc: A,
    source: &[u8],
    settings: &Settings,
    warrior: &Warrior<B>,
) -> Result<Vec<u8, A>, AllocError>
    requires { All (HasNumbersBelow settings.now.core) warrior.now.code }
    ensures listing { IfOk result (λ text. IsListing settings.now source.now warrior.now text.items) }
    ensures plain { text_with (λ i. []) settings.now.core warrior.now ≡ load_text settings.now.core warrior.now }
{
    let region = Bump::new(alloc);
    listing_in(alloc, &region, source, settings, warrior)
}

/// The same, with this region for what is written out.
#[tactic(auto, using(crate::proofs::Made::made))]
fn listing_in<'s, A: Allocator + Copy, B: Allocator>(
    alloc: A,
    region: &'s Bump<A>,
    source: &'s [u8],
    settings: &'s Settings,
    warrior: &Warrior<B>,
) -> Result<Vec<u8, A>, AllocError>
    requires { All (HasNumbersBelow settings.now.core) warrior.now.code }
    ensures { IfOk result (λ text. IsListing settings.entry.now source.entry.now warrior.now text.items) }
{
    let Ok(expanded) = expand(alloc, region, source, settings) else {
        return Err(AllocError);
    };
    let (number, live) = live_source(source);
    let all = source_lines(alloc, number, live)?;
    let lines = instruction_lines(alloc, expanded.entries())?;
    let labels = labels_in(alloc, all.as_slice(), &expanded)?;
    text_of(
        alloc,
        warrior,
        settings.core(),
        lines.as_slice(),
        labels.as_slice(),
    )
}

/// The load text with what is known of each instruction.
fn text_of<A: Allocator + Copy, B: Allocator>(
    alloc: A,
    warrior: &Warrior<B>,
    core: u16,
    lines: &[Line],
    labels: &[Label<'_>],
) -> Result<Vec<u8, A>, AllocError>
    requires { All (HasNumbersBelow core) warrior.now.code }
    ensures { IfOk result (λ text. text.items ≡ text_with (note_at lines.now labels.now) core warrior.now) }
{
    let mut text = Vec::from_slice(alloc, b"ORG ")?;
    text.extend_from_slice(Buffer::new().format(warrior.start()).as_bytes())?;
    text.extend_from_slice(b"\n")?;
    put_code(alloc, &mut text, warrior.code(), core, lines, labels)?;
    text.extend_from_slice(b"END\n")?;
    Ok(text)
}

/// Puts the lines of these instructions, which are a whole code, with what is known of each.
fn put_code<A: Allocator + Copy>(
    alloc: A,
    text: &mut Vec<u8, A>,
    code: &[Instr],
    core: u16,
    lines: &[Line],
    labels: &[Label<'_>],
) -> Result<(), AllocError>
    requires { All (HasNumbersBelow core) code.now }
    ensures { OnOk result (text.new.items ≡ text.old.items ++ listed (note_at lines.now labels.now) core 0 code.now) }
{
    for (i, instr) in code.iter().enumerate() {
        put_instruction(alloc, text, instr, core)?;
        put_note(text, lines, labels, i)?;
        text.extend_from_slice(b"\n")?;
    }
    Ok(())
}

/// Puts an instruction as its line of load text has it, without the line feed.
fn put_instruction<A: Allocator + Copy>(
    alloc: A,
    text: &mut Vec<u8, A>,
    instr: &Instr,
    core: u16,
) -> Result<(), AllocError>
    requires { HasNumbersBelow core instr.now }
    ensures { OnOk result (text.new.items ≡ text.old.items ++ instr_text core instr.now) }
{
    let mut line = Vec::new(alloc);
    append_line(&mut line, instr, core)?;
    let bytes = line.as_slice();
    text.extend_from_slice(&bytes[..bytes.len().saturating_sub(1)])
}

/// Puts what is known of the instruction at this index.
fn put_note<A: Allocator>(
    text: &mut Vec<u8, A>,
    lines: &[Line],
    labels: &[Label<'_>],
    i: usize,
) -> Result<(), AllocError>
    ensures { OnOk result (text.new.items ≡ text.old.items ++ note_at lines.now labels.now i) }
{
    match lines.get(i) {
        None => Ok(()),
        Some(line) => put_line_note(text, lines, labels, i, *line),
    }
}

/// Puts it of the instruction at this index, whose line this is.
fn put_line_note<A: Allocator>(
    text: &mut Vec<u8, A>,
    lines: &[Line],
    labels: &[Label<'_>],
    i: usize,
    line: Line,
) -> Result<(), AllocError>
    requires { i < length lines.now }
    ensures { OnOk result (text.new.items ≡ text.old.items ++ note_text lines.now labels.now i line) }
{
    text.extend_from_slice(b" ; ")?;
    text.extend_from_slice(Buffer::new().format(line.before).as_bytes())?;
    text.extend_from_slice(b", line ")?;
    text.extend_from_slice(Buffer::new().format(line.source_line).as_bytes())?;
    put_copy(
        text,
        times(lines, line.source_line),
        times(&lines[..i + 1], line.source_line),
    )?;
    put_labels(text, labels, line.before)
}

/// Puts the number of the copy, if the line is written out more than once.
fn put_copy<A: Allocator>(
    text: &mut Vec<u8, A>,
    all: usize,
    so_far: usize,
) -> Result<(), AllocError>
    ensures { OnOk result (text.new.items ≡ text.old.items ++ copy_text all so_far) }
{
    if all <= 1 {
        return Ok(());
    }
    text.extend_from_slice(b", copy ")?;
    text.extend_from_slice(Buffer::new().format(so_far).as_bytes())
}

/// Puts the labels with this address.
fn put_labels<A: Allocator>(
    text: &mut Vec<u8, A>,
    labels: &[Label<'_>],
    address: u32,
) -> Result<(), AllocError>
    ensures { OnOk result (text.new.items ≡ text.old.items ++ label_texts address labels.now) }
{
    for label in labels {
        put_label(text, *label, address)?;
    }
    Ok(())
}

/// Puts a label if it has this address.
fn put_label<A: Allocator>(
    text: &mut Vec<u8, A>,
    label: Label<'_>,
    address: u32,
) -> Result<(), AllocError>
    ensures { OnOk result (text.new.items ≡ text.old.items ++ label_text address label.entry) }
{
    if label.address != address {
        return Ok(());
    }
    text.extend_from_slice(b", label ")?;
    text.extend_from_slice(label.name)
}
