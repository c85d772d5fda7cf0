//! Tokens that make no expression.

use crate::blame::{END, Told, told_before, told_text, told_word};
use crate::said::Part;
use redcode_lines::{Span, is_name, line_text, part_of};
use redcode_scene::{Flaw, Judged, Row, Scene, flaw_of, is_operation, is_reserved, nearest_word};
use redcode_text::{Token, TokenKind, mode_named};
use std::alloc::{AllocError, Allocator};

/// Tokens of a line that make no expression.
#[derive(Clone, Copy)]
pub(crate) struct Shaped<'l, 's> {
    /// With the mode in front, if there is one.
    pub operand: &'l [Token<'s>],
    /// Without it.
    pub tokens: &'l [Token<'s>],
    /// Whether a comma may still stand in them.
    pub may_part: bool,
    /// Whether they are the second operand.
    pub is_second: bool,
}

/// Tokens of a line that was judged that make no expression.
pub(crate) fn no_expression<'s, A: Allocator + Copy>(
    scene: &Scene<'s, A>,
    row: &Row<'_, 's>,
    line: &Judged<'_, 's, A>,
    shaped: Shaped<'_, 's>,
) -> Told<'s> {
    let Some(flaw) = flaw_of(shaped.tokens) else {
        return without_flaw(line.spans(shaped.operand), shaped);
    };
    let (first, last) = flaw.tokens();
    let span = line.span(first).to(line.span(last));
    if line.is_replaced(scene, last) && (first.at == last.at || line.is_replaced(scene, first)) {
        let said = "this is no expression once the names of `EQU` lines are replaced";
        return told_text(span, said);
    }
    let text = part_of(line_text(scene.source, row.reading.number), span);
    flawed(span, text, flaw, shaped)
}

/// Tokens that make no expression, although their order is that of one.
pub(crate) fn without_flaw<'s>(span: Span, shaped: Shaped<'_, 's>) -> Told<'s> {
    match shaped.operand {
        [mode, ..] if shaped.tokens.is_empty() => {
            told_before(span, "an expression is expected after ", mode.text)
        }
        _ => {
            let said = "more than 64 parentheses, signs and `!` stand around a value";
            told_text(span, said)
        }
    }
}

/// A flaw of an expression at this place, which has this text.
pub(crate) fn flawed<'s>(
    span: Span,
    text: &'s [u8],
    flaw: Flaw<'_, 's>,
    shaped: Shaped<'_, 's>,
) -> Told<'s> {
    match flaw {
        Flaw::SideBySide(first, second) => side_by_side(span, text, (first, second), shaped),
        Flaw::Stranger(token) => stranger(span, token, shaped),
        Flaw::Behind(_) => told_text(span, "`!` stands after a value, and belongs before one"),
        Flaw::Unopened(_) => told_text(span, "no `(` is open here"),
        Flaw::Unclosed(_) => told_text(span, "no `)` closes this within the expression"),
        Flaw::Slashes(_, _) => told_word(span, b"//", COMMENT),
        Flaw::NoValue(token) => told_word(span, token.text, " stands where a value is expected"),
        Flaw::NoEnd(token) => told_before(span, "a value is expected after ", token.text),
    }
}

/// What is said of a comment of another language.
pub(crate) const COMMENT: &str = " begins no comment; `;` does";

/// Two values without an operator between them.
fn side_by_side<'s>(
    span: Span,
    both: &'s [u8],
    tokens: (&Token<'_>, &Token<'_>),
    shaped: Shaped<'_, 's>,
) -> Told<'s> {
    let (first, second) = tokens;
    let said = match (first.kind, second.kind) {
        (TokenKind::Number, TokenKind::Name)
            if both.len() == first.text.len().saturating_add(second.text.len()) => {
            " is neither a number nor a name; names begin with a letter or `_`"
        }
        _ if shaped.may_part => ": two values side by side; a comma between operands?",
        _ if shaped.is_second => {
            ": two values side by side; an operator between them? An instruction has two operands"
        }
        _ => ": two values side by side; an operator between them?",
    };
    told_word(span, both, said)
}

/// A token that is no part of any expression.
fn stranger<'s>(span: Span, token: &Token<'s>, shaped: Shaped<'_, 's>) -> Told<'s> {
    let is_mode = mode_named(token.text).is_some();
    let said = match (token.text, shaped.may_part) {
        (b"&", _) => {
            " joins a name to the counter of a block around it, and no such counter follows; `and` is `&&`"
        }
        (b"#", _) if begins_words(shaped.tokens, token) => {
            " is no part of an expression; a comment begins with `;`"
        }
        (_, true) if is_mode => " is no part of an expression; a comma before it?",
        (_, false) if is_mode => {
            " is no part of an expression; a mode is the first of an operand of an instruction"
        }
        _ => " is no part of an expression",
    };
    told_word(span, token.text, said)
}

/// Whether no number follows this one of the tokens, as it does a mode.
fn begins_words(tokens: &[Token<'_>], token: &Token<'_>) -> bool {
    for (i, first) in tokens.iter().enumerate() {
        if first.at == token.at {
            return match &tokens[i + 1..] {
                [next, ..] => is_name(next),
                [] => true,
            };
        }
    }
    false
}

/// A reserved word in lower case before another one, where a label was meant.
pub(crate) fn reserved_label<'s, A: Allocator + Copy>(
    alloc: A,
    row: &Row<'_, 's>,
) -> Result<Option<Told<'s>>, AllocError> {
    let [name, word, ..] = row.reading.tokens else {
        return Ok(None);
    };
    if row.reading.word.is_none() || !is_name(word) || !is_reserved(word.text) {
        return Ok(None);
    }
    match nearest_word(alloc, name.text)? {
        Some(word) if word != name.text => {
            Ok(Some(meant_label(row.span(name), name.text, word)))
        }
        _ => Ok(None),
    }
}

/// A name that is this reserved word in lower case.
fn meant_label<'s>(span: Span, name: &'s [u8], word: &'s [u8]) -> Told<'s> {
    let what = if is_operation(word) {
        " is the operation "
    } else {
        " is the reserved word "
    };
    let parts = [
        Part::Word(name),
        Part::Text(what),
        Part::Bytes(word),
        Part::Text(" in lower case too; name the label otherwise"),
        END,
        END,
    ];
    Told { span, parts }
}
