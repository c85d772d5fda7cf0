//! The part of a line that is told as the one to blame.

ghost use Rattle.std.specs.{Prelude.{◌≡◌, IfOk, true}, List.{list_all, list_any}};
ghost use Rattle.{war_types.specs.Title.is_blank, redcode_text.specs.Tokens.scanned_pieces, redcode_lines.specs.Place.line_text};
ghost use Rattle.redcode_blame.specs.Place.{IsOfLine, are_from, ends_at, is_of_tokens, is_read_from, is_whole};

use redcode_lines::{Span, line_text};
use redcode_scene::Scene;
use redcode_text::{Token, is_blank, is_word, scan};
use std::alloc::{AllocError, Allocator};

/// The line.
const LINE: Span = Span {
    from: 0,
    width: u32::MAX,
};

/// Bytes of the word `;assert`.
const ASSERT_BYTES: usize = 7;

/// Most bytes of a line that are scanned.
const MOST: usize = 65_536;

/// This part of the line of this number, if it is from a token of the line to one of its tokens; else the line.
#[tactic(auto, using(crate::proofs::OfLine::of_tokens, crate::proofs::OfLine::of_whole, crate::proofs::OfLine::of_line))]
pub(crate) fn placed<A: Allocator + Copy>(
    scene: &Scene<'_, A>,
    number: u32,
    span: Span,
) -> Result<Span, AllocError>
    ensures { IfOk result (IsOfLine (line_text scene.now.source.now number)) }
{
    let text = line_text(scene.source, number);
    let read = match scene.row(number) {
        Some(row) => row.shift,
        None => 0,
    };
    if is_whole(text, span) {
        return Ok(span);
    }
    let is_of = is_of_tokens(scene.alloc, text, read, span)?;
    if is_of {
        return Ok(span);
    }
    Ok(LINE)
}

/// Whether a part of a line is all of it but for blanks in front.
fn is_whole(text: &[u8], span: Span) -> bool
    ensures { result ≡ is_whole text.now span }
{
    let from = span.from as usize;
    if span.width != u32::MAX || from > text.len() {
        return false;
    }
    let (front, _) = text.split_at(from);
    are_blank(front)
}

/// Whether a text has only blanks.
fn are_blank(text: &[u8]) -> bool
    ensures { result ≡ list_all is_blank text.now }
{
    let mut rest = text;
    while let [byte, behind @ ..] = rest {
        if !is_blank(*byte) {
            return false;
        }
        rest = behind;
    }
    true
}

/// Whether a part of a line whose tokens are read from a place on is from one of them to one of them.
fn is_of_tokens<A: Allocator + Copy>(
    alloc: A,
    text: &[u8],
    read: u32,
    span: Span,
) -> Result<bool, AllocError>
    ensures { IfOk result (λ is. is ≡ true → is_of_tokens text.now read span ≡ true) }
{
    let begin = read as usize;
    if read > span.from || begin > text.len() || text.len() > MOST || !is_read_from(text, begin) {
        return Ok(false);
    }
    let (_, behind) = text.split_at(begin);
    let tokens = scan(alloc, behind)?;
    let from = u64::from(span.from - read);
    Ok(are_from(from, from + u64::from(span.width), tokens.as_slice()))
}

/// Whether a line's tokens are read from this place on: from its beginning, or from behind the word of an assertion.
fn is_read_from(text: &[u8], from: usize) -> bool
    ensures { result ≡ is_read_from text.now from }
{
    if from == 0 {
        return true;
    }
    if from < ASSERT_BYTES || from > text.len() {
        return false;
    }
    let (front, _) = text.split_at(from);
    let (_, word) = front.split_at(from - ASSERT_BYTES);
    is_word(b";assert", word)
}

/// Whether one of these tokens begins at the first place, and it or one behind it ends at the second.
fn are_from(from: u64, end: u64, tokens: &[Token<'_>]) -> bool
    ensures { result ≡ are_from from end (scanned_pieces tokens.now) }
{
    let mut rest = tokens;
    while let [token, behind @ ..] = rest {
        if u64::from(token.at) == from {
            return has_end(end, rest);
        }
        rest = behind;
    }
    false
}

/// Whether one of these tokens ends at this place.
fn has_end(end: u64, tokens: &[Token<'_>]) -> bool
    ensures { result ≡ list_any (ends_at end) (scanned_pieces tokens.now) }
{
    let mut rest = tokens;
    while let [token, behind @ ..] = rest {
        if u64::from(token.at) + token.text.len() as u64 == end {
            return true;
        }
        rest = behind;
    }
    false
}
