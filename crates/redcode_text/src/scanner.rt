//! The scanner: from a line to its tokens.

ghost use Rattle.std.specs.{Prelude.{◌≡◌, ◌-◌, ◌<◌, ◌≤◌, List, ◌∷◌, [], length, IfOk, MatchOption}, List.prefix_len};
ghost use Rattle.redcode_text.specs.Bytes.{is_letter, goes_on};
ghost use Rattle.redcode_text.specs.Tokens.{ScannedPiece, IsTokensOf, pieces, pieces_of, scanned_piece_of, scanned_pieces, tokens_after, tokens_of, begins_symbol, kind_at, rest_of_token};

use crate::token::{Token, TokenKind};
use std::alloc::{AllocError, Allocator};
use war_types::is_blank;

/// The tokens of a line, in order, each with its place. It fails when memory runs out.
pub fn scan<'l, A: Allocator>(alloc: A, line: &'l [u8]) -> Result<Vec<Token<'l>, A>, AllocError>
    requires { length line.now ≤ 65536 }
    ensures tokens { IfOk result (λ tokens. scanned_pieces tokens.items ≡ tokens_of line.entry.now) }
    ensures pieces { IfOk result (λ tokens. pieces tokens.items ≡ pieces_of line.entry.now) }
    ensures are_its { IfOk result (λ tokens. IsTokensOf line.entry.now (scanned_pieces tokens.items)) }
    ensures only { (tokens others : List ScannedPiece) → IsTokensOf line.entry.now tokens → IsTokensOf line.entry.now others → tokens ≡ others }
{
    let bytes = line.len();
    let mut tokens = Vec::new(alloc);
    let mut rest = line;
    while let Some((token, behind)) = first_token(bytes, rest) {
        tokens.push(token)?;
        rest = behind;
    }
    Ok(tokens)
}

/// The first token at the end of a line of `bytes` bytes, and what is after it.
fn first_token(bytes: usize, end: &[u8]) -> Option<(Token<'_>, &[u8])>
    requires within { length end.now ≤ bytes }
    requires short { bytes ≤ 65536 }
    ensures { MatchOption result (tokens_after bytes 0 end.entry.now ≡ [])
        (λ found. (tokens_after bytes 0 end.entry.now ≡ scanned_piece_of found.0 ∷ tokens_after bytes 0 found.1.now) × (length found.1.now < length end.entry.now)) }
{
    let mut text = end;
    while let [first, rest @ ..] = text {
        if !is_blank(*first) {
            let (kind, more) = kind_and_rest(*first, rest);
            let at = (bytes - text.len()) as u32;
            let (text, behind) = text.split_at(1 + more);
            return Some((Token { kind, text, at }, behind));
        }
        text = rest;
    }
    None
}

/// The kind of the token that begins with `first`, and how many bytes of `rest` belong to it.
fn kind_and_rest(first: u8, rest: &[u8]) -> (TokenKind, usize)
    ensures kind { result.0 ≡ kind_at first rest.now }
    ensures rest { result.1 ≡ rest_of_token first rest.now }
    ensures within { result.1 ≤ length rest.now }
{
    match first {
        _ if is_letter(first) => (TokenKind::Name, word_length(rest, true)),
        _ if first.is_ascii_digit() => (TokenKind::Number, word_length(rest, false)),
        b';' => (TokenKind::Comment, rest.len()),
        _ if begins_symbol(first, rest) => (TokenKind::Symbol, 1),
        _ if b".,:&!<>+-*/%()#$@{}".contains(&first) => (TokenKind::Symbol, 0),
        _ => (TokenKind::Bad, 0),
    }
}

/// Whether a symbol of two bytes is at the front: `&&`, `||`, or an `=` after `!`, `<`, `=` or `>`.
fn begins_symbol(first: u8, rest: &[u8]) -> bool
    ensures { result ≡ begins_symbol first rest.now }
{
    match rest {
        [] => false,
        [b'=', ..] => b"!<=>".contains(&first),
        [second, ..] => first == *second && (first == b'&' || first == b'|'),
    }
}

/// How many bytes at the front go on a name, or without `letters` a number.
fn word_length(bytes: &[u8], letters: bool) -> usize
    ensures value { result ≡ prefix_len (goes_on letters) bytes.now }
    ensures within { result ≤ length bytes.now }
{
    for (i, byte) in bytes.iter().enumerate() {
        if !(byte.is_ascii_digit() || letters && is_letter(*byte)) {
            return i;
        }
    }
    bytes.len()
}

/// What a name begins with.
fn is_letter(byte: u8) -> bool
    ensures { result ≡ is_letter byte }
{
    byte.is_ascii_alphabetic() || byte == b'_'
}
