//! Bytes that begin no token.

use crate::blame::{Answer, END, Told, told_parts, told_text, told_word};
use crate::said::Part;
use redcode_lines::{LineForm, Span, has_text, is_name, line_text, part_of};
use redcode_scene::{Row, Scene, is_reserved, judged_line};
use redcode_text::{Token, TokenKind};
use std::alloc::{AllocError, Allocator};
use war_types::AsmFault;

/// A byte that begins no token.
pub(crate) fn bad_token<'s, A: Allocator + Copy>(
    scene: &Scene<'s, A>,
    row: &Row<'_, 's>,
    fault: AsmFault,
) -> Answer<'s> {
    if let Some(told) = assignment(scene, row) {
        return Ok(told);
    }
    match first_bad(row.reading.tokens) {
        Some(token) if is_byte_order_mark(scene, row.span(token), token) => {
            let said = "a byte order mark; save the source without it";
            Ok(told_text(row.span(token), said))
        }
        Some(token) => {
            let text = line_text(scene.source, row.reading.number);
            Ok(unknown_character(row.span(token), text))
        }
        None => {
            let said = "the body of an `EQU` that is used here has a byte that is no symbol";
            Ok(told_text(span_of_bad(scene, row, fault)?, said))
        }
    }
}

/// The place of the name for which a byte stands that begins no token, or the whole line.
fn span_of_bad<'s, A: Allocator + Copy>(
    scene: &Scene<'s, A>,
    row: &Row<'_, 's>,
    fault: AsmFault,
) -> Result<Span, AllocError> {
    let Some(line) = judged_line(scene, row, fault)? else {
        return Ok(row.whole());
    };
    match first_bad(line.tokens()) {
        Some(token) => Ok(line.span(token)),
        None => Ok(row.whole()),
    }
}

/// A name with a `=` after it, as in other dialects, if the line has one.
fn assignment<'s, A: Allocator + Copy>(
    scene: &Scene<'s, A>,
    row: &Row<'_, 's>,
) -> Option<Told<'s>> {
    let (name, behind) = match (row.reading.form, row.reading.tokens) {
        (LineForm::Statement, [name, colon, behind @ ..]) if has_text(colon, b":") => (
            name, behind,
        ),
        (LineForm::Statement, [name, behind @ ..]) => (name, behind),
        _ => return None,
    };
    match behind {
        [sign, body @ ..] if has_text(sign, b"=") && is_name(name) && !is_reserved(name.text) => {
            Some(assigned(scene, row, name, sign, body))
        }
        _ => None,
    }
}

/// Whether a byte that begins no token is the first of a byte order mark, as some editors write it before a text.
fn is_byte_order_mark<A: Allocator + Copy>(
    scene: &Scene<'_, A>,
    span: Span,
    token: &Token<'_>,
) -> bool {
    span.from == 0 && has_text(token, &[0xef]) && scene.source.starts_with(b"\xef\xbb\xbf")
}

/// The first of the tokens that is none of the language's.
fn first_bad<'t, 's>(tokens: &'t [Token<'s>]) -> Option<&'t Token<'s>> {
    for token in tokens {
        if let TokenKind::Bad = token.kind {
            return Some(token);
        }
    }
    None
}

/// A name with a `=` after it, as in other dialects.
fn assigned<'s, A: Allocator + Copy>(
    scene: &Scene<'s, A>,
    row: &Row<'_, '_>,
    name: &Token<'s>,
    sign: &Token<'_>,
    body: &[Token<'_>],
) -> Told<'s> {
    let text = line_text(scene.source, row.reading.number);
    let value = match body {
        [] => b"0",
        _ => part_of(text, row.spans(body)),
    };
    let parts = [
        Part::Text("`=` is no symbol here; a name is defined by `"),
        Part::Bytes(name.text),
        Part::Text(" EQU "),
        Part::Bytes(value),
        Part::Text("`"),
        END,
    ];
    let span = row.span(sign);
    Told { span, parts }
}

/// A character at this place of a line's text that is no symbol.
fn unknown_character<'s>(span: Span, text: &'s [u8]) -> Told<'s> {
    let from = span.from;
    let width = width_of(part_of(text, Span { from, width: 4 }));
    let span = Span { from, width };
    let character = part_of(text, span);
    let said = " is no symbol; it may stand in a comment";
    match character {
        b"=" => told_text(span, "`=` is no symbol; two values are compared by `==`"),
        b"|" => told_text(span, "`|` is no symbol; `or` is `||`"),
        b"\xc2\xa0" => told_text(span, "a no-break space is no blank; type a space"),
        b"\xe2\x80\x90"
        | b"\xe2\x80\x91"
        | b"\xe2\x80\x92"
        | b"\xe2\x80\x93"
        | b"\xe2\x80\x94"
        | b"\xe2\x88\x92" => { told_word(span, character, " is no symbol; the minus sign is `-`") }
        [byte] if !byte.is_ascii_graphic() => {
            let number = Part::Number(i64::from(*byte));
            told_parts(span, Part::Text("the byte "), number, Part::Text(said))
        }
        _ => told_word(span, character, said),
    }
}

/// Bytes of the character of UTF-8 at the front of a text; 1 if none is there.
fn width_of(text: &[u8]) -> u32 {
    match text {
        [a, b, ..] if (0xc2..=0xdf).contains(a) && goes_on(*b) => 2,
        [a, b, c, ..] if (0xe0..=0xef).contains(a) && goes_on(*b) && goes_on(*c) => 3,
        [a, b, c, d, ..]
            if (0xf0..=0xf4).contains(a) && goes_on(*b) && goes_on(*c) && goes_on(*d) => 4,
        _ => 1,
    }
}

/// Whether a byte goes on with a character of UTF-8.
fn goes_on(byte: u8) -> bool {
    byte & 0xc0 == 0x80
}
