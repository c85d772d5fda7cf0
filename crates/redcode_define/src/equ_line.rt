//! The lines that define a name by an `EQU`, and their bodies.

ghost use Rattle.std.specs.Prelude.{◌≡◌, false, ◌&&◌, ◌++◌, ◌≤◌, take, drop, length, IfOk, OnOk};
ghost use Rattle.redcode_text.specs.Tokens.{piece_of, pieces, pieces_of, scanned_pieces, tokens_of};
ghost use Rattle.redcode_lines.specs.Line.{dropped_while, first_word, is_front, is_no_comment, taken_while};
ghost use Rattle.redcode_define.specs.EquLine.{first_text, is_equ, is_equ_among, names_last, with_body, word_among, word_end, word_on};
ghost use Rattle.redcode_define.specs.{Define.{is_read_equ, line_defined}, Place.is_read};

use crate::place::Place;
use redcode_lines::{has_text, is_name, word_at};
use redcode_text::{Token, TokenKind, Word, scan};
use std::alloc::{AllocError, Allocator};

/// What is said of a line of a source.
#[derive(Clone, Copy)]
pub(crate) struct Said {
    pub word: Option<Word>,
    /// Whether it is read, and defines the name by an `EQU`.
    pub is_one: bool,
}

/// Appends a line at this place, without its line feed: with `value` for its body, if it is read and defines the name by an `EQU`, and
/// else as it is.
pub(crate) fn put_line<A: Allocator + Copy>(
    alloc: A,
    name: &[u8],
    value: &[u8],
    place: Place,
    line: &[u8],
    text: &mut Vec<u8, A>,
) -> Result<Said, AllocError>
    requires { length line.now ≤ 65536 }
    ensures word { IfOk result (λ said. said.word ≡ word_on line.now) }
    ensures one { IfOk result (λ said. said.is_one ≡ is_read_equ name.now place line.now) }
    ensures text { OnOk result (text.new.items ≡ text.old.items ++ line_defined name.now value.now place line.now) }
{
    let tokens = scan(alloc, line)?;
    let said = said_of(name, place, tokens.as_slice());
    if said.is_one {
        put_defined(text, line, tokens.as_slice(), value)?;
    } else {
        text.extend_from_slice(line)?;
    }
    Ok(said)
}

/// What is said of the line of these tokens at this place.
fn said_of(name: &[u8], place: Place, tokens: &[Token<'_>]) -> Said
    ensures word { result.word ≡ word_among (pieces tokens.now) }
    ensures one { result.is_one ≡ (is_read place && is_equ_among name.now (pieces tokens.now)) }
{
    let statement = &tokens[..before_comment(tokens)];
    let length = front_length(statement);
    let word = first_word(&statement[length..]);
    Said {
        word,
        is_one: place.is_read() && is_equ(word) && names_last(name, &statement[..length]),
    }
}

/// The word that the first of these tokens is.
fn first_word(tokens: &[Token<'_>]) -> Option<Word>
    ensures { result ≡ first_word (pieces tokens.now) }
{
    match tokens {
        [] => None,
        [first, ..] => word_at(first),
    }
}

fn is_equ(word: Option<Word>) -> bool
    ensures { result ≡ is_equ word }
{
    matches!(word, Some(Word::Equ))
}

/// The number of tokens before the comment, all if there is none.
fn before_comment(tokens: &[Token<'_>]) -> usize
    ensures before { pieces (take result tokens.now) ≡ taken_while is_no_comment (pieces tokens.now) }
    ensures from { pieces (drop result tokens.now) ≡ dropped_while is_no_comment (pieces tokens.now) }
    ensures within { result ≤ length tokens.now }
{
    for (i, token) in tokens.iter().enumerate() {
        if matches!(token.kind, TokenKind::Comment) {
            return i;
        }
    }
    tokens.len()
}

/// How many tokens at the front may be before a word.
fn front_length(tokens: &[Token<'_>]) -> usize
    ensures front { pieces (take result tokens.now) ≡ taken_while is_front (pieces tokens.now) }
    ensures from { pieces (drop result tokens.now) ≡ dropped_while is_front (pieces tokens.now) }
    ensures within { result ≤ length tokens.now }
{
    for (i, token) in tokens.iter().enumerate() {
        if !is_front(token) {
            return i;
        }
    }
    tokens.len()
}

/// Whether a token may be before a word: a name that is none, an `&` or a `:`.
fn is_front(token: &Token<'_>) -> bool
    ensures { result ≡ is_front (piece_of token.now) }
{
    (is_name(token) && word_at(token).is_none()) || has_text(token, b"&") || has_text(token, b":")
}

/// Whether the name is the last among these tokens, and no `&` is before it.
fn names_last(name: &[u8], tokens: &[Token<'_>]) -> bool
    ensures { result ≡ names_last name.now false false (pieces tokens.now) }
{
    let mut joined = false;
    let mut found = false;
    for token in tokens {
        if is_name(token) {
            found = !joined && has_text(token, name);
        }
        joined = has_text(token, b"&");
    }
    found
}

/// Appends the line of these tokens, with this value for its body.
fn put_defined<A: Allocator>(
    text: &mut Vec<u8, A>,
    line: &[u8],
    tokens: &[Token<'_>],
    value: &[u8],
) -> Result<(), AllocError>
    requires tokens { scanned_pieces tokens.now ≡ tokens_of line.now }
    requires pieces { pieces tokens.now ≡ pieces_of line.now }
    ensures { OnOk result (text.new.items ≡ text.old.items ++ with_body value.now line.now) }
{
    text.extend_from_slice(front_of(word_end(tokens), line))?;
    text.push(b' ')?;
    text.extend_from_slice(value)?;
    text.extend_from_slice(comment_of(tokens))?;
    Ok(())
}

/// The first `bytes` bytes of a line, or all if there are fewer.
fn front_of(bytes: usize, line: &[u8]) -> &[u8]
    ensures { result.now ≡ take bytes line.entry.now }
{
    &line[..line.len().min(bytes)]
}

/// How many bytes of the line of these tokens are before the end of its word.
fn word_end(tokens: &[Token<'_>]) -> usize
    ensures { result ≡ word_end (scanned_pieces tokens.now) }
{
    for token in tokens {
        if !is_front(token) {
            return token.at as usize + token.text.len();
        }
    }
    0
}

/// The comment among these tokens, with what is after it; nothing if there is none.
fn comment_of<'l>(tokens: &[Token<'l>]) -> &'l [u8]
    ensures { result.now ≡ first_text (dropped_while is_no_comment (pieces tokens.now)) }
{
    match &tokens[before_comment(tokens)..] {
        [comment, ..] => comment.text,
        [] => &[],
    }
}
