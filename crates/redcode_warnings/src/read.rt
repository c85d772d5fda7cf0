//! Which lines of a source are read.

ghost use Rattle.std.specs.Prelude.{◌≡◌, ◌≤◌, ◌+◌, ◌<◌, IfOk, length, map};
ghost use Rattle.{redcode_text.specs.Tokens.pieces, redcode_lines.specs.Views.line_read};
ghost use Rattle.redcode_warnings.specs.Read.{around, behind_line, ends, is_for_zero, lines_after_end, lines_read};

use redcode_lines::{Reading, SourceLine, has_text};
use redcode_text::{Token, Word};
use std::alloc::{AllocError, Allocator};

/// The lines that are read: those up to an `END` in no block, but for those in a block whose count is 0.
pub(crate) fn lines_read<'l, 's, A: Allocator + Copy>(
    alloc: A,
    lines: &'l [SourceLine<'s, A>],
) -> Result<Vec<Reading<'l, 's>, A>, AllocError>
    requires { length lines.now ≤ 65536 }
    ensures { IfOk result (λ read. map line_read read.items ≡ lines_read (around 0 0) lines.entry.now) }
{
    let mut around = OUTSIDE;
    let mut read = Vec::new(alloc);
    let mut rest = lines;
    while let [line, behind @ ..] = rest {
        let reading = line.reading();
        if around.dropped == 0 {
            read.push(reading)?;
        }
        if ends(&reading, around) {
            break;
        }
        around = around.behind(&reading);
        rest = behind;
    }
    Ok(read)
}

/// The lines after an `END` in no block, none if there is no such `END`.
pub(crate) fn lines_after_end<'l, 's, A: Allocator>(
    lines: &'l [SourceLine<'s, A>],
) -> &'l [SourceLine<'s, A>]
    requires { length lines.now ≤ 65536 }
    ensures { result.now ≡ lines_after_end (around 0 0) lines.entry.now }
{
    let mut around = OUTSIDE;
    let mut rest = lines;
    while let [line, behind @ ..] = rest {
        let reading = line.reading();
        rest = behind;
        if ends(&reading, around) {
            break;
        }
        around = around.behind(&reading);
    }
    rest
}

/// Whether a line is an `END` in no block.
fn ends(line: &Reading<'_, '_>, at: Around) -> bool
    ensures { result ≡ ends (line_read line.now) (around at.written at.dropped) }
{
    matches!(line.word, Some(Word::End)) && at.written == 0 && at.dropped == 0
}

/// The blocks that are open around a line.
#[derive(Clone, Copy)]
struct Around {
    /// Those that may be written out.
    written: usize,
    /// Within these, those from the first `FOR 0` on.
    dropped: usize,
}

/// In no block.
const OUTSIDE: Around = Around {
    written: 0,
    dropped: 0,
};

impl Around {
    ghost use Rattle.std.specs.Prelude.{◌≡◌, ◌≤◌, ◌+◌, ◌<◌};
    ghost use Rattle.redcode_lines.specs.Views.{line_read};
    ghost use Rattle.redcode_warnings.specs.Read.{around, behind_line, within, without};

    /// The blocks around what is after a line.
    fn behind(self, line: &Reading<'_, '_>) -> Around
        requires { self.written + self.dropped < 65536 }
        ensures behind { around result.written result.dropped
            ≡ behind_line (line_read line.now) (around self.written self.dropped) }
        ensures few { result.written + result.dropped ≤ self.written + self.dropped + 1 }
    {
        match line.word {
            Some(Word::For) => self.within(is_for_zero(line.tokens)),
            Some(Word::Rof) => self.without(),
            _ => self,
        }
    }

    /// One block more, which may be dropped.
    fn within(self, is_dropped: bool) -> Around
        requires { self.written + self.dropped < 65536 }
        ensures { around result.written result.dropped ≡ within is_dropped (around self.written self.dropped) }
    {
        if self.dropped > 0 || is_dropped {
            return Around {
                dropped: self.dropped + 1,
                ..self
            };
        }
        Around {
            written: self.written + 1,
            ..self
        }
    }

    /// One block less, if one is open.
    fn without(self) -> Around
        ensures { around result.written result.dropped ≡ without (around self.written self.dropped) }
    {
        if self.dropped > 0 {
            return Around {
                dropped: self.dropped - 1,
                ..self
            };
        }
        Around {
            written: self.written.saturating_sub(1),
            ..self
        }
    }
}

/// Whether the tokens of a `FOR` say that its count is 0.
fn is_for_zero(tokens: &[Token<'_>]) -> bool
    ensures { result ≡ is_for_zero (pieces tokens.now) }
{
    match tokens {
        [_, count] => has_text(count, b"0"),
        _ => false,
    }
}
