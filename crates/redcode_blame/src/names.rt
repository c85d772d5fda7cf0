//! Names that nothing defines.

use crate::blame::{Answer, END, Told, told_parts};
use crate::said::Part;
use redcode_lines::{Span, is_name};
use redcode_scene::{Judged, Role, Scene, definition, is_reserved, nearest_name};
use redcode_text::{Names, Token};
use std::alloc::Allocator;

/// The first name among these tokens without a value.
pub(crate) fn first_unknown<'t, 's, N: Names>(
    tokens: &'t [Token<'s>],
    names: &N,
) -> Option<&'t Token<'s>> {
    for token in tokens {
        if is_name(token) && names.value_of(token.text).is_none() {
            return Some(token);
        }
    }
    None
}

/// A name that nothing defines, on a line that was judged.
pub(crate) fn unknown_name<'s, A: Allocator + Copy>(
    scene: &Scene<'s, A>,
    line: &Judged<'_, 's, A>,
    token: &Token<'s>,
) -> Answer<'s> {
    let span = line.span(token);
    if line.is_joined(token) {
        return Ok(nothing_called(span, token.text, ", which is joined here"));
    }
    let said = if line.is_replaced(scene, token) {
        " (the body of an `EQU` that is used here names it)"
    } else {
        ""
    };
    not_defined(scene, span, token.text, said)
}

/// A name that nothing defines, with a text at the end of the sentence.
pub(crate) fn not_defined<'s, A: Allocator + Copy>(
    scene: &Scene<'s, A>,
    span: Span,
    name: &'s [u8],
    end: &'s str,
) -> Answer<'s> {
    if is_reserved(name) {
        let reserved = Part::Text(" is a reserved word, and no name");
        return Ok(told_parts(span, Part::Word(name), reserved, Part::Text(end)));
    }
    match definition(scene, Role::Counter, name, u32::MAX) {
        Some(line) => Ok(counter_outside(span, name, line, end)),
        None => match nearest_name(scene, name)? {
            Some(nearest) => Ok(did_you_mean(span, name, nearest, end)),
            None => Ok(nothing_called(span, name, end)),
        },
    }
}

/// A name that nothing has.
fn nothing_called<'s>(span: Span, name: &'s [u8], end: &'s str) -> Told<'s> {
    told_parts(span, NOTHING, Part::Word(name), Part::Text(end))
}

/// What is said before a name that nothing defines.
const NOTHING: Part<'static> = Part::Text("nothing is called ");

/// A counter that is named outside its block.
fn counter_outside<'s>(span: Span, name: &'s [u8], line: u32, end: &'s str) -> Told<'s> {
    let parts = [
        Part::Word(name),
        Part::Text(" is the counter of the block of line "),
        Part::Number(i64::from(line)),
        Part::Text(", and is replaced only in the lines of that block"),
        Part::Text(end),
        END,
    ];
    Told { span, parts }
}

/// A name that nothing defines, and the name that was probably meant.
fn did_you_mean<'s>(span: Span, name: &'s [u8], nearest: &'s [u8], end: &'s str) -> Told<'s> {
    let question = if name.eq_ignore_ascii_case(nearest) {
        "? Upper and lower case differ in names."
    } else {
        "?"
    };
    let parts = [
        NOTHING,
        Part::Word(name),
        Part::Text("; did you mean "),
        Part::Word(nearest),
        Part::Text(question),
        Part::Text(end),
    ];
    Told { span, parts }
}
