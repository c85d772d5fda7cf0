//! Lines: the text of one by its number, and the lines of an expanded source.

ghost use Rattle.std.specs.Prelude.{◌≡◌};
ghost use Rattle.redcode_lines.specs.{Place.{line_behind, line_text}, Source.lines_of};

use crate::source::first_line;

/// What a line is.
#[derive(Clone, Copy, PartialEq, Eq)]
pub enum LineKind {
    /// An instruction: a line whose word is an operation, `LDP` and `STP` included.
    Operation,
    /// `ORG`.
    Org,
    /// `END`, which is the last line.
    End,
    /// `;assert`.
    Assert,
    /// `;name`.
    Name,
    /// `;author`.
    Author,
    /// Any other line, a `PIN` line included.
    Other,
}

/// A line of an expanded source.
#[derive(Clone, Copy, PartialEq, Eq)]
pub struct Line {
    /// Its number in the source, counted from 1.
    pub source_line: u32,
    pub kind: LineKind,
    /// How many instructions stand before it.
    pub before: u32,
}

/// The text of the line of this number, counted from 1, without its line feed and the carriage return before that; empty if there is
/// no such line.
pub fn line_text(source: &[u8], line: u32) -> &[u8]
    ensures { result.now ≡ line_text source.entry.now line }
{
    if line == 0 {
        return &[];
    }
    match line_behind(source, line - 1) {
        [front @ .., b'\r'] => front,
        text => text,
    }
}

/// The line after `count` others; empty if there is none.
fn line_behind(source: &[u8], count: u32) -> &[u8]
    ensures { result.now ≡ line_behind count (lines_of source.entry.now) }
{
    let mut rest = source;
    let mut left = count;
    // For messages; no assembly comes here.
    while !rest.is_empty() {
        let (line, behind) = first_line(rest);
        if left == 0 {
            return line;
        }
        rest = behind;
        left -= 1;
    }
    &[]
}
