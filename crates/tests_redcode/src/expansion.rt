//! Sources, and the lines and labels of what is written out of them.

use crate::expecting::expect_same;
use bumpalo::Bump;
use redcode_expand::{Entry, Expanded, Line, LineKind, expand, predefined};
use redcode_text::Token;
use std::alloc::Allocator;
use std::process::Abort;
use tests_fixtures::{USUAL, rows};
use war_types::{RawSettings, Settings};

/// Settings in which each number that a source may name is another.
const DISTINCT: RawSettings = RawSettings {
    processes: 8001,
    distance: 101,
    ..USUAL
};

fn defaults(rt: &impl Abort) -> Settings {
    Settings::new(DISTINCT).expect(rt, "they are settings")
}

/// What a source is written out to. A function without clauses, so that the proof of a test carries none of `expand` along.
pub(crate) fn written_out<'s, A: Allocator + Copy>(
    rt: &impl Abort,
    alloc: A,
    region: &'s Bump<A>,
    source: &'s [u8],
) -> Expanded<'s, A> {
    expand(alloc, region, source, &defaults(rt)).expect(rt, "there is memory")
}

/// The texts of tokens, one blank before each.
fn texts(rt: &(impl Abort + AllocGlobal), tokens: &[Token<'_>]) -> Vec<u8> {
    let mut text = Vec::new(rt.alloc());
    for token in tokens {
        text.push(b' ').expect(rt, "there is memory");
        text.extend_from_slice(token.text)
            .expect(rt, "there is memory");
    }
    text
}

/// The number in the source, the kind, the instructions before, the title and the tokens of a line.
pub(crate) type Row = (u32, LineKind, u32, &'static [u8], &'static [u8]);

/// Whether a line has this place, this kind and this title.
fn is_line(line: Line, title: &[u8], row: &Row) -> bool {
    let due = Line {
        source_line: row.0,
        kind: row.1,
        before: row.2,
    };
    line == due && title == row.3
}

/// A line is so.
fn check_line<A: Allocator>(rt: &(impl Abort + AllocGlobal), entry: &Entry<'_, A>, row: &Row) {
    assert!(rt; is_line(entry.line, entry.title, row));
    let texts = texts(rt, entry.tokens.as_slice());
    let has_texts = texts.as_slice() == row.4;
    drop(texts);
    assert!(rt; has_texts);
}

/// These are the lines of what is written out.
fn check_lines<A: Allocator>(
    rt: &(impl Abort + AllocGlobal),
    entries: &[Entry<'_, A>],
    rows: &[Row],
) {
    expect_same(rt, &entries.len(), &rows.len(), "lines");
    for (entry, row) in entries.iter().zip(rows) {
        check_line(rt, entry, row);
    }
}

/// A name, and the address of its label if it is one.
pub(crate) type Label = (&'static [u8], Option<u32>);

/// Names are labels of these addresses in what is written out.
fn check_labels<A: Allocator + Copy>(
    rt: &impl Abort,
    expanded: &Expanded<'_, A>,
    labels: &[Label],
) {
    for (name, address) in labels {
        expect_same(rt, &expanded.label(name), address, "a label");
    }
}

/// These are the lines and the labels of what is written out.
pub(crate) fn check_written<A: Allocator + Copy>(
    rt: &(impl Abort + AllocGlobal),
    written: &Expanded<'_, A>,
    rows: &[Row],
    labels: &[Label],
) {
    check_lines(rt, written.entries(), rows);
    check_labels(rt, written, labels);
}

/// A source is written out to these lines, with these labels.
fn check_source(rt: &(impl Abort + AllocGlobal), source: &[u8], rows: &[Row], labels: &[Label]) {
    let region = Bump::new(rt.alloc());
    let written = written_out(rt, rt.alloc(), &region, source);
    check_written(rt, &written, rows, labels);
    drop(written);
    drop(region);
}

/// Lines of each kind but `;author`, and one after the end.
const LINES: &[u8] =
    b";redcode\n;name  Imp \nORG start\nbomb DAT #0 ; c\n\nstart b: add.f 4\n;assert 1,x;c\nFOO 0\nEND x\nDAT";

const LINES_WRITTEN_OUT: [Row; 7] = [
    (2, LineKind::Name, 0, b"  Imp ", b""),
    (3, LineKind::Org, 0, b"", b" ORG start"),
    (4, LineKind::Operation, 0, b"", b" DAT # 0"),
    (6, LineKind::Operation, 1, b"", b" add . f 4"),
    (7, LineKind::Assert, 2, b"", b" 1 , x"),
    (8, LineKind::Other, 2, b"", b" 0"),
    (9, LineKind::End, 2, b"", b" END x"),
];

/// Names of `EQU` lines in lines of each kind.
const NAMES: &[u8] = b";assert n\nDAT.n n+m\nx n EQU 1, m ; c\n+ n\nPIN n\nm EQU ?\nu EQU u\nEND n";

const NAMES_WRITTEN_OUT: [Row; 5] = [
    (1, LineKind::Assert, 0, b"", b" 1 , ?"),
    (2, LineKind::Operation, 0, b"", b" DAT . n 1 , ? + ?"),
    (4, LineKind::Other, 1, b"", b" + n"),
    (5, LineKind::Other, 1, b"", b" PIN n"),
    (8, LineKind::End, 1, b"", b" END 1 , ?"),
];

/// A label before an `EQU`, and its name.
const NAMES_AS_LABELS: [Label; 2] = [(b"x", Some(1)), (b"n", None)];

/// Labels before an instruction, and on lines of their own.
const LABELS: &[u8] = b"a DAT\nA b: & c DAT\nd\nPIN\nSTP\ne";

/// Names of `LABELS`, and the labels' addresses.
const ADDRESSES: [Label; 8] = [
    (b"a", Some(0)),
    (b"A", Some(1)),
    (b"b", Some(1)),
    (b"c", Some(1)),
    (b"d", Some(2)),
    (b"e", Some(3)),
    (b"B", None),
    (b"DAT", None),
];

#[test]
fn labels(rt: HostRuntime) {
    let region = Bump::new(rt.alloc());
    let written = written_out(&rt, rt.alloc(), &region, LABELS);
    check_labels(&rt, &written, &ADDRESSES);
    drop(written);
    drop(region);
}

/// Names, and what is predefined of them on a line after 7 instructions.
const PREDEFINED: [(&[u8], Option<i64>); 10] = [
    (b"CORESIZE", Some(8000)),
    (b"MAXPROCESSES", Some(8001)),
    (b"MAXCYCLES", Some(80_000)),
    (b"MAXLENGTH", Some(100)),
    (b"MINDISTANCE", Some(101)),
    (b"ROUNDS", Some(10)),
    (b"WARRIORS", Some(2)),
    (b"CURLINE", Some(7)),
    (b"Curline", None),
    (b"VERSION", None),
];

#[test]
fn predefined_names(rt: HostRuntime) {
    let settings = defaults(&rt);
    for (name, value) in &PREDEFINED {
        expect_same(&rt, &predefined(&settings, 7, name), value, "a name");
    }
}

/// A block of two copies, each with a label.
pub(crate) const COPIED: &[u8] = b"i FOR 2\na&i DAT i\nROF\nJMP a02";

pub(crate) const COPIED_WRITTEN_OUT: [Row; 3] = [
    (2, LineKind::Operation, 0, b"", b" DAT 1"),
    (2, LineKind::Operation, 1, b"", b" DAT 2"),
    (4, LineKind::Operation, 2, b"", b" JMP a02"),
];

pub(crate) const COPIED_LABELS: [Label; 3] = [(b"a01", Some(0)), (b"a02", Some(1)), (b"a03", None)];

/// A block within a block, each with the same counter, and one of no copy.
const NESTED: &[u8] =
    b"i FOR 2\nx&i i FOR 1\na&i&i DAT.i i, j\nROF\nROF\nFOR 0\n?? 3 = junk\ny ROF\nEND\nROF";

const NESTED_WRITTEN_OUT: [Row; 3] = [
    (3, LineKind::Operation, 0, b"", b" DAT . i 1 , j"),
    (3, LineKind::Operation, 1, b"", b" DAT . i 2 , j"),
    (9, LineKind::End, 2, b"", b" END"),
];

/// Labels of copies, and their addresses.
const NESTED_LABELS: [Label; 5] = [
    (b"x01", Some(0)),
    (b"x02", Some(1)),
    (b"a0101", Some(0)),
    (b"a0202", Some(1)),
    (b"y", Some(2)),
];

/// Sources, the lines that they are written out to, and labels of these.
type Written = (&'static [u8], &'static [Row], &'static [Label]);

const WRITTEN_OUT: [Written; 4] = rows! {
    LINES => &LINES_WRITTEN_OUT, &[];
    NAMES => &NAMES_WRITTEN_OUT, &NAMES_AS_LABELS;
    COPIED => &COPIED_WRITTEN_OUT, &COPIED_LABELS;
    NESTED => &NESTED_WRITTEN_OUT, &NESTED_LABELS;
};

#[test]
fn lines_and_labels(rt: HostRuntime) {
    for (source, rows, labels) in &WRITTEN_OUT {
        check_source(&rt, source, rows, labels);
    }
}
