//! Lines in which no counter follows an `&`: no name is joined in them, so all counters are replaced at once.

ghost use Rattle.std.specs.Prelude.{◌≡◌, ◌≤◌, ◌++◌, false, length, map, take, drop, Some, None, IfOk, OnOk};
ghost use Rattle.{redcode_text.specs.Tokens.{piece_of, pieces}, redcode_lines.specs.Views.line_read};
ghost use Rattle.redcode_copies.specs.{Counter.in_copies, Plain.{changed_from, has_join, has_number, kept_behind, kept_count, modifier_count, number_by}, Views.with_tokens};

use crate::counter::number_token;
use crate::line_copy::{LineCopy, reading_of};
use bumpalo::Bump;
use redcode_lines::{LineForm, Reading, behind_names, has_text, is_name};
use redcode_text::{Token, Word};
use std::alloc::{AllocError, Allocator};

/// The counters of blocks within each other, the outermost first.
pub trait Counters {
    ghost use Rattle.std.specs.Prelude.{◌≡◌, List};
    ghost use Rattle.redcode_copies.specs.{Counter.Counter, Plain.number_of};

    /// The counters.
    ghost counters: { Self → List Counter };

    /// The number of the first counter of this name.
    fn number_of(&self, name: &[u8]) -> Option<u64>
        ensures { result ≡ number_of (counters self.now) name.now };
}

/// Whether a counter is among the tokens.
fn has_counter<C: Counters>(counters: &C, tokens: &[Token<'_>]) -> bool
    ensures { result ≡ has_number (C.counters counters.now) (pieces tokens.now) }
{
    for token in tokens {
        // Paid by the steps of a line that is walked over: one for each of its tokens, again for each block if an `&` is among them.
        if is_name(token) && counters.number_of(token.text).is_some() {
            return true;
        }
    }
    false
}

/// The copy of a line within the copies of `counters`. `copy` is how the line reads so far, and no counter follows an `&` in it.
pub fn plain_copy<'s, A: Allocator + Copy, C: Counters>(
    alloc: A,
    region: &'s Bump<A>,
    counters: &C,
    line: Reading<'_, 's>,
    copy: Option<LineCopy<'s, A>>,
) -> Result<Option<LineCopy<'s, A>>, AllocError>
    requires front { has_join (C.counters counters.now) false (with_tokens (line_read line) copy).front ≡ false }
    requires tokens { has_join (C.counters counters.now) false (with_tokens (line_read line) copy).tokens ≡ false }
    ensures { IfOk result (λ new. with_tokens (line_read line.entry) new ≡ in_copies (C.counters counters.now) (with_tokens (line_read line.entry) copy.entry)) }
{
    let line = reading_of(line, &copy);
    if !has_counter(counters, line.tokens) {
        return Ok(copy);
    }
    let (kept, changed) = line.tokens.split_at(kept_count(line));
    let mut tokens = Vec::with_capacity(alloc, line.tokens.len())?;
    tokens.extend_from_slice(kept)?;
    append_numbered(region, counters, changed, &mut tokens)?;
    let front = Vec::from_slice(alloc, line.front)?;
    Ok(Some(LineCopy { front, tokens }))
}

/// Appends tokens, each that is a counter as its number.
fn append_numbered<'s, A: Allocator, C: Counters>(
    region: &'s Bump<A>,
    counters: &C,
    tokens: &[Token<'s>],
    out: &mut Vec<Token<'s>, A>,
) -> Result<(), AllocError>
    ensures { OnOk result (pieces out.new.items ≡ pieces out.old.items ++ map (number_by (C.counters counters.now)) (pieces tokens.now)) }
{
    for token in tokens {
        // Paid as `has_counter` is: it reads the same tokens.
        out.push(numbered(region, counters, token)?)?;
    }
    Ok(())
}

/// The number of the first counter that a token is, or the token.
fn numbered<'s, A: Allocator, C: Counters>(
    region: &'s Bump<A>,
    counters: &C,
    token: &Token<'s>,
) -> Result<Token<'s>, AllocError>
    ensures { IfOk result (λ new. piece_of new ≡ number_by (C.counters counters.now) (piece_of token.now)) }
{
    if !is_name(token) {
        return Ok(*token);
    }
    match counters.number_of(token.text) {
        Some(number) => number_token(region, number, token.at),
        None => Ok(*token),
    }
}

/// The number of tokens at the front that stay: the word and a modifier's name, or the labels of a line without a word.
fn kept_count(line: Reading<'_, '_>) -> usize
    ensures count { result ≡ kept_count line.entry.form line.entry.word (pieces line.entry.tokens.now) }
    ensures within { result ≤ length line.entry.tokens.now }
{
    match (line.form, line.word) {
        (LineForm::Statement, None) => line.tokens.len() - behind_names(line.tokens).len(),
        (LineForm::Statement, Some(word)) => match line.tokens {
            [] => 0,
            [_, behind @ ..] => 1 + kept_behind(word, behind),
        },
        _ => 0,
    }
}

/// The number of tokens after this word that stay.
fn kept_behind(word: Word, tokens: &[Token<'_>]) -> usize
    ensures count { result ≡ kept_behind word (pieces tokens.now) }
    ensures within { result ≤ length tokens.now }
{
    match (word, tokens) {
        (Word::Operation(_) | Word::Pspace, [dot, _, ..]) if has_text(dot, b".") => 2,
        _ => 0,
    }
}
