//! Statements that are none: operations and modifiers.

use crate::blame::{Answer, END, Told, told_text, told_word};
use crate::said::Part;
use crate::shape::COMMENT;
use redcode_lines::{Span, has_text, is_name, line_text, part_of};
use redcode_scene::{Row, Scene, ends_join, is_operation, judged_line, nearest_word, with_joined};
use redcode_text::Token;
use std::alloc::{AllocError, Allocator};
use war_types::AsmFault;

/// Something else than an operation after the labels.
pub(crate) fn bad_operation<'s, A: Allocator + Copy>(
    scene: &Scene<'s, A>,
    row: &Row<'_, 's>,
) -> Answer<'s> {
    let front = front_of(row.reading.tokens);
    match misspelt(scene.alloc, front)? {
        Some((token, word)) => {
            let is_none = Part::Text(" is no operation; did you mean ");
            let (name, word) = (Part::Word(token.text), Part::Word(word));
            let parts = [name, is_none, word, Part::Text("?"), END, END];
            let span = row.span(token);
            Ok(Told { span, parts })
        }
        None => Ok(no_operation(scene, row, front)),
    }
}

/// No operation after the names at the front of a line, nor a word that is nearly one.
fn no_operation<'s, A: Allocator + Copy>(
    scene: &Scene<'s, A>,
    row: &Row<'_, 's>,
    front: &[Token<'s>],
) -> Told<'s> {
    match (front, row.reading.tokens) {
        ([], [first, second, ..]) if has_text(first, b"/") && has_text(second, b"/") => {
            told_word(row.span(first).to(row.span(second)), b"//", COMMENT)
        }
        ([], [first, ..]) if has_text(first, b"#") => {
            let said = " stands where an operation is expected; a comment begins with `;`";
            told_word(row.span(first), first.text, said)
        }
        ([], [first, ..]) => {
            let said = " stands where an operation is expected";
            told_word(row.span(first), first.text, said)
        }
        ([.., last], _) if is_name(last) => {
            let number = row.reading.number;
            let span = row.spans(last_joined(scene, number, front));
            told_word(
                span,
                part_of(line_text(scene.source, number), span),
                " is no operation",
            )
        }
        _ => {
            let said = "no operation stands after the labels; labels without one have no `:`";
            told_text(row.whole(), said)
        }
    }
}

/// The last name of these tokens, with the counters that are joined to it on the line of this number.
fn last_joined<'t, 's, A: Allocator + Copy>(
    scene: &Scene<'_, A>,
    number: u32,
    front: &'t [Token<'s>],
) -> &'t [Token<'s>] {
    let mut last = front;
    for (i, token) in front.iter().enumerate() {
        if is_name(token) && !ends_join(scene, number, &front[..i], token) {
            last = with_joined(scene, number, &front[i..]);
        }
    }
    last
}

/// The first of the tokens that is nearly an operation, else the first that is nearly another reserved word, and that word.
fn misspelt<'t, 's, A: Allocator + Copy>(
    alloc: A,
    tokens: &'t [Token<'s>],
) -> Result<Option<(&'t Token<'s>, &'static [u8])>, AllocError> {
    let mut found = None;
    for token in tokens {
        match word_meant(alloc, token)? {
            Some(word) if is_operation(word) => return Ok(Some((token, word))),
            Some(word) if found.is_none() => found = Some((token, word)),
            _ => {}
        }
    }
    Ok(found)
}

/// The reserved word that is nearest to a token that is a name.
fn word_meant<A: Allocator + Copy>(
    alloc: A,
    token: &Token<'_>,
) -> Result<Option<&'static [u8]>, AllocError> {
    if is_name(token) {
        nearest_word(alloc, token.text)
    } else {
        Ok(None)
    }
}

/// The names at the front, with the `:` and `&` among them.
fn front_of<'t, 's>(tokens: &'t [Token<'s>]) -> &'t [Token<'s>] {
    for (i, token) in tokens.iter().enumerate() {
        if !is_name(token) && !has_text(token, b":") && !has_text(token, b"&") {
            return &tokens[..i];
        }
    }
    tokens
}

/// An instruction of P-space.
pub(crate) fn pspace(row: &Row<'_, '_>) -> Told<'static> {
    let span = match row.reading.tokens {
        [word, ..] => row.span(word),
        [] => row.whole(),
    };
    let said = "there is no P-space here: `LDP`, `STP` and `PIN` are refused";
    told_text(span, said)
}

/// A dot without a modifier's name.
pub(crate) fn bad_modifier<'s, A: Allocator + Copy>(
    scene: &Scene<'s, A>,
    row: &Row<'_, 's>,
    fault: AsmFault,
) -> Answer<'s> {
    match row.reading.tokens {
        [_, dot, name, ..] if has_text(dot, b".") => {
            let said = " is no modifier; they are A, B, AB, BA, F, X and I";
            Ok(told_word(row.span(name), name.text, said))
        }
        [_, dot] if has_text(dot, b".") => {
            let said = "a modifier is expected after the dot: A, B, AB, BA, F, X or I";
            Ok(told_text(row.span(dot), said))
        }
        _ => {
            let said = "a dot in the body of an `EQU` that is used here has no modifier after it";
            Ok(told_text(span_of_dot(scene, row, fault)?, said))
        }
    }
}

/// The place of the name for which the dot after an operation stands, or the whole line.
fn span_of_dot<'s, A: Allocator + Copy>(
    scene: &Scene<'s, A>,
    row: &Row<'_, 's>,
    fault: AsmFault,
) -> Result<Span, AllocError> {
    let Some(line) = judged_line(scene, row, fault)? else {
        return Ok(row.whole());
    };
    match line.tokens() {
        [_, dot, ..] => Ok(line.span(dot)),
        _ => Ok(row.whole()),
    }
}
