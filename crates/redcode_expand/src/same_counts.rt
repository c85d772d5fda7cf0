//! Counts that read the same, so that one of them is worked out for all. Each is compared with one other, once, before the first step.

ghost use Rattle.std.specs.Prelude.{◌≡◌, ◌<◌, true, length};
ghost use Rattle.{redcode_text.specs.Tokens.{piece_of, pieces}, redcode_lines.specs.Views.line_read, redcode_expand.specs.Marks.{IsSameCount, ReadSame}};

use redcode_lines::{Reading, SourceLine, line_at};
use redcode_text::{Token, Word};
use std::alloc::{AllocError, Allocator};

/// The index of the last `FOR` that was met, for each sum of a text.
#[derive(Drop)]
pub(crate) struct SameCounts<A: Allocator> {
    found: Vec<usize, A>,
}

impl<A: Allocator> SameCounts<A> {
    /// No line, with room for this number of sums.
    pub(crate) fn new(alloc: A, room: usize) -> Result<SameCounts<A>, AllocError> {
        Ok(SameCounts {
            found: vec![in alloc; usize::MAX; room]?,
        })
    }

    /// The index of a line that reads the same as the `FOR` at index `at`: that of one that was met, or its own.
    pub(crate) fn count_of<B: Allocator>(&mut self, lines: &[SourceLine<'_, B>], at: usize) -> usize
        requires { at < length lines.now }
        ensures { IsSameCount lines.now at result }
    {
        let line = line_at(lines, at).reading();
        if !matches!(line.word, Some(Word::For)) || self.found.is_empty() {
            return at;
        }
        let place = sum_of(line.tokens) % self.found.len();
        let found = self.found[place];
        if found < lines.len() && read_same(line, line_at(lines, found).reading()) {
            return found;
        }
        self.found[place] = at;
        at
    }
}

/// Whether two lines are `FOR`s with the same tokens.
fn read_same(line: Reading<'_, '_>, other: Reading<'_, '_>) -> bool
    ensures { result ≡ true → ReadSame (line_read line.entry) (line_read other.entry) }
{
    let are_fors = matches!(line.word, Some(Word::For)) && matches!(other.word, Some(Word::For));
    are_fors && line.form == other.form && are_same(line.tokens, other.tokens)
}

/// Whether tokens are the same.
fn are_same(tokens: &[Token<'_>], others: &[Token<'_>]) -> bool
    ensures { result ≡ true → pieces tokens.now ≡ pieces others.now }
{
    let mut rest = tokens;
    let mut behind = others;
    while let [first, more @ ..] = rest {
        let [other, further @ ..] = behind else {
            return false;
        };
        if !is_same(first, other) {
            return false;
        }
        rest = more;
        behind = further;
    }
    behind.is_empty()
}

/// Whether two tokens are the same.
fn is_same(token: &Token<'_>, other: &Token<'_>) -> bool
    ensures { result ≡ true → piece_of token.now ≡ piece_of other.now }
{
    token.kind == other.kind && token.text == other.text
}

/// A sum of the texts of tokens: lists that are the same have the same sum, and others seldom.
fn sum_of(tokens: &[Token<'_>]) -> usize {
    let mut sum: usize = 0;
    for token in tokens {
        for byte in token.text {
            sum = sum.wrapping_mul(31).wrapping_add(usize::from(*byte));
        }
        sum = sum.wrapping_mul(31);
    }
    sum
}
