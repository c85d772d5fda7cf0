//! How a line is read: its labels, its word, and what is after them; and which tokens of an expanded line are operands.

ghost use Rattle.std.specs.Prelude.{◌≡◌, ◌≤◌, if◌then◌else◌, is_some, [], take, drop, length};
ghost use Rattle.redcode_text.specs.Tokens.{piece_of, pieces};
ghost use Rattle.redcode_lines.specs.{Line.{behind_labels, dropped_while, has_and, has_text, is_front, is_name, is_name_token, labels_of, line_word, names_among, taken_while, tokens_from_word, word_at}};
ghost use Rattle.redcode_lines.specs.{Operand.{operands_of, behind_modifier}, Views.line_read};

use crate::line::LineKind;
use redcode_text::{Token, TokenKind, Word, word_of};

/// What a line of the source is.
#[derive(Clone, Copy, PartialEq, Eq)]
pub enum LineForm {
    /// Labels and what is after them.
    Statement,
    /// `;assert`.
    Assert,
    /// `;name`.
    Name,
    /// `;author`.
    Author,
}

/// How a line reads, in the source or in a copy of a block.
#[derive(Clone, Copy)]
pub struct Reading<'l, 's> {
    /// Its number in the source, counted from 1.
    pub number: u32,
    pub form: LineForm,
    /// The word of a statement.
    pub word: Option<Word>,
    /// The text after the word of a name or an author; empty in other lines.
    pub title: &'s [u8],
    /// The tokens before the word of a statement; none if it has no word.
    pub front: &'l [Token<'s>],
    /// The other tokens of a statement, from its word on, of a `ROF` that word alone; the tokens after the word of an assertion.
    pub tokens: &'l [Token<'s>],
}

impl<'l, 's> Reading<'l, 's> {
    /// The tokens whose names are its labels.
    pub fn labels(&self) -> &'l [Token<'s>]
        ensures { names_among (pieces result.now) ≡ labels_of (line_read self.now) }
    {
        match self.word {
            Some(_) => self.front,
            None => &self.tokens[..names_before(self.tokens)],
        }
    }

    /// What is after its labels: from the word on, or after the names at the front of a line without a word.
    pub fn behind_labels(&self) -> &'l [Token<'s>]
        ensures { pieces result.now ≡ behind_labels (line_read self.now) }
    {
        match self.word {
            Some(_) => self.tokens,
            None => behind_names(self.tokens),
        }
    }
}

/// The word of a statement of these tokens, and how many tokens stand before it; 0 if there is no word.
pub(crate) fn word_in(tokens: &[Token<'_>]) -> (Option<Word>, usize)
    ensures word { result.0 ≡ line_word (pieces tokens.now) }
    ensures front { pieces (take result.1 tokens.now) ≡ (if is_some result.0 then taken_while is_front (pieces tokens.now) else []) }
    ensures from { pieces (drop result.1 tokens.now) ≡ tokens_from_word (pieces tokens.now) }
    ensures within { result.1 ≤ length tokens.now }
{
    // Takes no step: a line's word is looked up once, before the walk.
    for (i, token) in tokens.iter().enumerate() {
        if let Some(word) = word_at(token) {
            return (Some(word), i);
        }
        if !is_name(token) && !has_text(token, b"&") && !has_text(token, b":") {
            break;
        }
    }
    (None, 0)
}

/// From the first token on that is no name.
pub fn behind_names<'t, 's>(tokens: &'t [Token<'s>]) -> &'t [Token<'s>]
    ensures behind { pieces result.now ≡ dropped_while is_name_token (pieces tokens.entry.now) }
    ensures short { length result.now ≤ length tokens.entry.now }
{
    &tokens[names_before(tokens)..]
}

/// How many names stand at the front.
fn names_before(tokens: &[Token<'_>]) -> usize
    ensures names { pieces (take result tokens.now) ≡ taken_while is_name_token (pieces tokens.now) }
    ensures behind { pieces (drop result tokens.now) ≡ dropped_while is_name_token (pieces tokens.now) }
    ensures within { result ≤ length tokens.now }
{
    // Paid by the steps of the tokens of a line that is walked over, or is judged once it is written out.
    for (i, token) in tokens.iter().enumerate() {
        if !is_name(token) {
            return i;
        }
    }
    tokens.len()
}

/// The reserved word that a token is.
pub fn word_at(token: &Token<'_>) -> Option<Word>
    ensures { result ≡ word_at (piece_of token.now) }
{
    match token.kind {
        TokenKind::Name => word_of(token.text),
        _ => None,
    }
}

/// Whether a token is a name.
pub fn is_name(token: &Token<'_>) -> bool
    ensures { result ≡ is_name_token (piece_of token.now) }
{
    matches!(token.kind, TokenKind::Name)
}

/// Whether the token is spelled so.
pub fn has_text(token: &Token<'_>, text: &[u8]) -> bool
    ensures { result ≡ has_text text.now (piece_of token.now) }
{
    token.text == text
}

/// Whether an `&` is among the tokens.
pub fn has_and(tokens: &[Token<'_>]) -> bool
    ensures { result ≡ has_and (pieces tokens.now) }
{
    // Takes no step: each line is asked three times, before the walk.
    for token in tokens {
        if has_text(token, b"&") {
            return true;
        }
    }
    false
}

/// The tokens of a line that are operands, or an expression.
pub fn operands_of<'t, 's>(kind: LineKind, tokens: &'t [Token<'s>]) -> &'t [Token<'s>]
    ensures operands { pieces result.now ≡ operands_of kind (pieces tokens.entry.now) }
    ensures short { length result.now ≤ length tokens.entry.now }
{
    match kind {
        LineKind::Operation => behind_modifier(behind_first(tokens)),
        LineKind::Org | LineKind::End => behind_first(tokens),
        LineKind::Assert => tokens,
        LineKind::Name | LineKind::Author | LineKind::Other => &[],
    }
}

/// After an operation: the tokens after a dot and the modifier's name that follows it.
fn behind_modifier<'t, 's>(tokens: &'t [Token<'s>]) -> &'t [Token<'s>]
    ensures behind { pieces result.now ≡ behind_modifier (pieces tokens.entry.now) }
    ensures short { length result.now ≤ length tokens.entry.now }
{
    match tokens {
        [first, behind @ ..] if has_text(first, b".") => behind_first(behind),
        _ => tokens,
    }
}

/// The tokens without the first.
pub fn behind_first<'t, 's>(tokens: &'t [Token<'s>]) -> &'t [Token<'s>]
    ensures behind { pieces result.now ≡ drop 1 (pieces tokens.entry.now) }
    ensures short { length result.now ≤ length tokens.entry.now }
{
    match tokens {
        [] => &[],
        [_, behind @ ..] => behind,
    }
}
