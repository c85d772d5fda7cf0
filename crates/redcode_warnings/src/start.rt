//! Where a warrior starts, as far as its lines give it.

ghost use Rattle.std.specs.Prelude.{◌≡◌, map};
ghost use Rattle.redcode_lines.specs.Views.{line_read};
ghost use Rattle.redcode_warnings.specs.Start.{first_code, has_end_start, is_end_start, is_instruction, is_late, is_org, is_overruled, is_start_name, last_org, starts_by, starts_of};

use redcode_lines::Reading;
use redcode_text::Word;

/// A number that is past that of each line.
const NO_LINE: u32 = 65_537;

/// What the lines of a source say of its start.
#[derive(Clone, Copy)]
pub(crate) struct Starts {
    /// The line of the last `ORG`, 0 if there is none.
    org: u32,
    /// Whether an `ORG` or an `END` gives the start.
    is_given: bool,
    /// The line of the first instruction, else 65,537.
    code: u32,
}

/// What these lines say of the start.
pub(crate) fn starts_of(lines: &[Reading<'_, '_>]) -> Starts
    ensures { starts_by result.org result.is_given result.code ≡ starts_of (map line_read lines.now) }
{
    let org = last_org(lines);
    Starts {
        org,
        is_given: org > 0 || has_end_start(lines),
        code: first_code(lines),
    }
}

/// The number of the last `ORG`, 0 if there is none.
fn last_org(lines: &[Reading<'_, '_>]) -> u32
    ensures { result ≡ last_org 0 (map line_read lines.now) }
{
    let mut number = 0;
    let mut rest = lines;
    while let [line, behind @ ..] = rest {
        if is_org(line.word) {
            number = line.number;
        }
        rest = behind;
    }
    number
}

/// Whether an `END` with a start is among these lines.
fn has_end_start(lines: &[Reading<'_, '_>]) -> bool
    ensures { result ≡ has_end_start (map line_read lines.now) }
{
    let mut rest = lines;
    while let [line, behind @ ..] = rest {
        if is_end_start(line) {
            return true;
        }
        rest = behind;
    }
    false
}

/// The number of the first instruction among these lines, 65,537 if there is none.
fn first_code(lines: &[Reading<'_, '_>]) -> u32
    ensures { result ≡ first_code 65537 (map line_read lines.now) }
{
    let mut rest = lines;
    while let [line, behind @ ..] = rest {
        if is_instruction(line.word) {
            return line.number;
        }
        rest = behind;
    }
    NO_LINE
}

pub(crate) fn is_org(word: Option<Word>) -> bool
    ensures { result ≡ is_org word }
{
    matches!(word, Some(Word::Org))
}

/// Whether a line is an `END` with a start.
fn is_end_start(line: &Reading<'_, '_>) -> bool
    ensures { result ≡ is_end_start (line_read line.now) }
{
    matches!(line.word, Some(Word::End)) && line.tokens.len() > 1
}

/// Whether a line of this word is an instruction.
pub(crate) fn is_instruction(word: Option<Word>) -> bool
    ensures { result ≡ is_instruction word }
{
    matches!(word, Some(Word::Operation(_)))
}

/// Whether a line gives a start that an `ORG` overrules.
pub(crate) fn is_overruled(starts: Starts, line: &Reading<'_, '_>) -> bool
    ensures { result ≡ is_overruled (starts_by starts.org starts.is_given starts.code) (line_read line.now) }
{
    is_org(line.word) && line.number != starts.org || is_end_start(line) && starts.org > 0
}

/// Whether the line of this number comes after the first instruction, at which the warrior starts as no line gives another start.
pub(crate) fn is_late(starts: Starts, number: u32) -> bool
    ensures { result ≡ is_late (starts_by starts.org starts.is_given starts.code) number }
{
    !starts.is_given && starts.code < number
}

/// Whether an author gives such a name to the start of a warrior.
pub(crate) fn is_start_name(name: &[u8]) -> bool
    ensures { result ≡ is_start_name name.now }
{
    name == b"start".as_slice() || name == b"go".as_slice() || name == b"boot".as_slice()
}
