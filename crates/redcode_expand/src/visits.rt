//! The steps of a visit to a line.

ghost use Rattle.std.specs.Prelude.{◌≡◌, ◌<◌, ◌≤◌, ◌^◌, true};
ghost use Rattle.{redcode_text.specs.Tokens.pieces, redcode_lines.specs.Views.line_read};
ghost use Rattle.redcode_expand.specs.{Marks.has_join, Steps.{bytes_of, read_steps, token_steps, visit_steps}};

use redcode_lines::Reading;
use redcode_text::Token;

/// The steps of a visit to a line within this number of blocks: it is walked over, and its tokens are read. If an `&` is among them, they
/// are read again for each block, and each join copies a name, which may have all bytes of the line. Outside of blocks it joins nothing.
pub(crate) fn visit_steps(line: Reading<'_, '_>, joins: bool, blocks: usize) -> u64
    requires { joins ≡ true → has_join (line_read line) ≡ true }
    ensures some { 0 < result }
    ensures most { result ≤ visit_steps blocks (line_read line.entry) }
    ensures least { read_steps (line_read line.entry) < 2 ^ 64 → read_steps (line_read line.entry) ≤ result }
{
    let read = read_steps(line);
    if blocks == 0 || !joins {
        return read;
    }
    let tokens = (line.front.len() as u64).saturating_add(line.tokens.len() as u64);
    let bytes = bytes_of(line.front).saturating_add(bytes_of(line.tokens));
    let times = (blocks as u64).saturating_add(bytes / 16);
    read.saturating_add(tokens.saturating_mul(times))
}

/// The steps of a line that is read: one, and those of its tokens.
fn read_steps(line: Reading<'_, '_>) -> u64
    ensures some { 0 < result }
    ensures most { result ≤ read_steps (line_read line.entry) }
    ensures least { read_steps (line_read line.entry) < 2 ^ 64 → read_steps (line_read line.entry) ≤ result }
{
    let tokens = token_steps(line.front).saturating_add(token_steps(line.tokens));
    tokens.saturating_add(1)
}

/// The steps of tokens that are read: one for each, and one for each 32 bytes of its text. Names are hashed and compared, in the walk and once
/// more when the line that is written out is judged. Counting takes none: a token is counted once in a visit.
fn token_steps(tokens: &[Token<'_>]) -> u64
    ensures most { result ≤ token_steps (pieces tokens.now) }
    ensures least { token_steps (pieces tokens.now) < 2 ^ 64 → token_steps (pieces tokens.now) ≤ result }
{
    let mut steps: u64 = 0;
    for token in tokens {
        steps = steps.saturating_add(1 + (token.text.len() / 32) as u64);
    }
    steps
}

/// The bytes of all tokens. Each of these tokens takes a step, which pays for this loop.
fn bytes_of(tokens: &[Token<'_>]) -> u64
    ensures { result ≤ bytes_of (pieces tokens.now) }
{
    let mut bytes: u64 = 0;
    for token in tokens {
        bytes = bytes.saturating_add(token.text.len() as u64);
    }
    bytes
}
