//! Refusals and warnings as text for people.

ghost use Rattle.std.specs.Prelude.{◌≡◌, ◌++◌, IfOk, OnOk};
ghost use Rattle.redcode_diagnosis.specs.Text.{Begins, heading, numbered, said_heading, shown_line, warning_heading};

use crate::diagnosis::Diagnosis;
use crate::excerpt::{beginning_of, begins_character, bytes_in, excerpt_of};
use itoa::Buffer;
use redcode_blame::{Copied, Part, say};
use redcode_lines::{Span, append_shown, line_text, part_of};
use redcode_warnings::Warning;
use std::alloc::{AllocError, Allocator};

/// Places for the number of a line.
const NUMBER_PLACES: usize = 5;

/// A refusal of a source as text: `PATH:LINE:COLUMN: Kind: sentence`, with line 1 if the source as a whole is to blame. If a line is to
/// blame, its text follows, with a caret under each character to blame; if that line stands in a block, so does how it reads in the copy
/// that is refused. Of either text at most 100 characters are shown, with two dots where it is cut. Each line ends with a line feed. A
/// question mark is shown for each character that a terminal acts upon, but for the tab; the path is shown as it is. It fails when memory
/// runs out.
pub fn text_of<A: Allocator + Copy>(
    alloc: A,
    path: &[u8],
    source: &[u8],
    diagnosis: &Diagnosis<A>,
) -> Result<Vec<u8, A>, AllocError>
    ensures { IfOk result (λ text. Begins (heading path.now diagnosis.now.fault diagnosis.now.column) text.items) }
{
    let said = Said {
        line: diagnosis.fault.line,
        column: diagnosis.column,
        width: diagnosis.width,
        severity: "",
        kind: diagnosis.fault.kind.name(),
    };
    let mut rest = lines_of(alloc, source, &said, diagnosis.sentence.as_slice())?;
    if let Some(copy) = &diagnosis.copy {
        append_copy(&mut rest, copy)?;
    }
    headed(alloc, path, &said, rest.as_slice())
}

/// A warning of a source as text, as a refusal, but for `warning: ` before its kind. It fails when memory runs out.
pub fn warning_text_of<A: Allocator + Copy>(
    alloc: A,
    path: &[u8],
    source: &[u8],
    warning: &Warning<A>,
) -> Result<Vec<u8, A>, AllocError>
    ensures { IfOk result (λ text. Begins (warning_heading path.now warning.now.kind warning.now.line warning.now.column) text.items) }
{
    let said = Said {
        line: warning.line,
        column: warning.column,
        width: warning.width,
        severity: "warning: ",
        kind: warning.kind.name(),
    };
    let rest = lines_of(alloc, source, &said, warning.sentence.as_slice())?;
    headed(alloc, path, &said, rest.as_slice())
}

/// What is said of a source, and where.
#[derive(Clone, Copy)]
struct Said {
    /// The line of the source, counted from 1, or 0 if none is to blame.
    line: u32,
    column: u32,
    width: u32,
    /// What stands before the kind.
    severity: &'static str,
    kind: &'static str,
}

/// A text after the path and what stands between the path and the sentence.
fn headed<A: Allocator>(
    alloc: A,
    path: &[u8],
    said: &Said,
    rest: &[u8],
) -> Result<Vec<u8, A>, AllocError>
    ensures { IfOk result (λ text. text.items ≡ said_heading path.now said.now.line said.now.column said.now.severity.now said.now.kind.now ++ rest.now) }
{
    let mut text = Vec::from_slice(alloc, path)?;
    append_heading(&mut text, said)?;
    text.extend_from_slice(rest)?;
    Ok(text)
}

/// Appends what stands between the path and the sentence.
#[tactic(auto, unfolding(crate::specs::Text::said_heading))]
fn append_heading<A: Allocator>(text: &mut Vec<u8, A>, said: &Said) -> Result<(), AllocError>
    ensures { OnOk result (text.new.items ≡ said_heading text.old.items said.now.line said.now.column said.now.severity.now said.now.kind.now) }
{
    append_numbered(text, b":", shown_line(said.line))?;
    append_numbered(text, b":", said.column)?;
    text.extend_from_slice(b": ")?;
    text.extend_from_slice(said.severity.as_bytes())?;
    text.extend_from_slice(said.kind.as_bytes())?;
    text.extend_from_slice(b": ")
}

/// The line that an editor goes to: the first one if the source as a whole is to blame.
fn shown_line(line: u32) -> u32
    ensures { result ≡ shown_line line }
{
    if line == 0 { 1 } else { line }
}

/// The sentence, and the line under it.
fn lines_of<A: Allocator>(
    alloc: A,
    source: &[u8],
    said: &Said,
    sentence: &[u8],
) -> Result<Vec<u8, A>, AllocError> {
    let mut text = Vec::from_slice(alloc, sentence)?;
    text.push(b'\n')?;
    if said.line != 0 {
        append_line(&mut text, line_text(source, said.line), said)?;
    }
    Ok(text)
}

/// Appends a line with its number, and the carets under it.
fn append_line<A: Allocator>(
    text: &mut Vec<u8, A>,
    line: &[u8],
    said: &Said,
) -> Result<(), AllocError> {
    let from = said.column.saturating_sub(1);
    let excerpt = excerpt_of(line, from);
    append_number(text, said.line)?;
    append_excerpt(text, line, excerpt)?;
    text.extend_from_slice(b"\n      | ")?;
    append_cut(text, excerpt.from > 0, b"  ")?;
    let shown = part_of(line, excerpt);
    let from = from.saturating_sub(excerpt.from);
    let before = Span {
        from: 0,
        width: from,
    };
    let width = said.width;
    append_blanks(text, part_of(shown, before))?;
    append_carets(text, part_of(shown, Span { from, width }))?;
    text.extend_from_slice(b"\n")
}

/// Appends a part of a line, with two dots where it is cut.
fn append_excerpt<A: Allocator>(
    text: &mut Vec<u8, A>,
    line: &[u8],
    excerpt: Span,
) -> Result<(), AllocError> {
    append_cut(text, excerpt.from > 0, b"..")?;
    append_shown(text, part_of(line, excerpt))?;
    let end = excerpt.from.saturating_add(excerpt.width);
    append_cut(text, end < bytes_in(line), b"..")
}

/// Appends a mark where a text is cut.
fn append_cut<A: Allocator>(
    text: &mut Vec<u8, A>,
    is_cut: bool,
    mark: &[u8],
) -> Result<(), AllocError> {
    if is_cut {
        text.extend_from_slice(mark)?;
    }
    Ok(())
}

/// Appends the number of a line at the right of its places, and a bar.
fn append_number<A: Allocator>(text: &mut Vec<u8, A>, number: u32) -> Result<(), AllocError> {
    let mut buffer = Buffer::new();
    let digits = buffer.format(number).as_bytes();
    for _ in 0..NUMBER_PLACES.saturating_sub(digits.len()) {
        text.push(b' ')?;
    }
    text.extend_from_slice(digits)?;
    text.extend_from_slice(b" | ")
}

/// Appends blanks as wide as a text: its tabs, and a space for each other character.
fn append_blanks<A: Allocator>(text: &mut Vec<u8, A>, front: &[u8]) -> Result<(), AllocError> {
    for byte in front {
        if *byte == b'\t' {
            text.push(b'\t')?;
        } else if begins_character(*byte) {
            text.push(b' ')?;
        }
    }
    Ok(())
}

/// Appends a caret for each character of a text, one at least.
fn append_carets<A: Allocator>(text: &mut Vec<u8, A>, part: &[u8]) -> Result<(), AllocError> {
    text.push(b'^')?;
    for byte in behind_first(part) {
        if begins_character(*byte) {
            text.push(b'^')?;
        }
    }
    Ok(())
}

fn behind_first(part: &[u8]) -> &[u8] {
    match part {
        [] => &[],
        [_, behind @ ..] => behind,
    }
}

/// Appends how a line reads in a copy.
fn append_copy<A: Allocator, B: Allocator>(
    text: &mut Vec<u8, A>,
    copy: &Copied<B>,
) -> Result<(), AllocError> {
    let of = if copy.is_nested {
        " of this line, in the block of line "
    } else {
        " of the block of line "
    };
    let around = if copy.is_nested {
        " and those around it, where it reads: "
    } else {
        ", where it reads: "
    };
    let (shown, is_cut) = beginning_of(copy.text.as_slice());
    let parts = [
        Part::Text("      | in copy "),
        Part::Number(i64::from(copy.times)),
        Part::Text(of),
        Part::Number(i64::from(copy.block)),
        Part::Text(around),
        Part::Bytes(shown),
        Part::Text(if is_cut { "..\n" } else { "\n" }),
    ];
    say(text, &parts)
}

/// Appends a text, and a number after it.
fn append_numbered<A: Allocator>(
    text: &mut Vec<u8, A>,
    name: &[u8],
    number: u32,
) -> Result<(), AllocError>
    ensures { OnOk result (text.new.items ≡ text.old.items ++ numbered name.now number) }
{
    text.extend_from_slice(name)?;
    text.extend_from_slice(Buffer::new().format(number).as_bytes())
}
