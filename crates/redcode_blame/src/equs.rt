//! Faults of `EQU` lines, and of what their names stand for.

use crate::blame::{Answer, Told, told_before, told_text, told_word};
use redcode_lines::{behind_first, is_name, line_text, part_of, word_at};
use redcode_scene::{
    Role, Row, Scene, definition, ends_join, is_limited, last_name, operands_in, probe_steps,
    with_joined,
};
use redcode_text::{Token, Word};
use std::alloc::{AllocError, Allocator};

/// Tokens that operands may have, before and after their names are replaced.
const TOKEN_LIMIT: usize = 512;

/// An `EQU` without a name or a body, or with a reserved word in its body.
pub(crate) fn bad_equ<'s>(row: &Row<'_, 's>) -> Told<'s> {
    let word = row.word();
    match (
        last_name(row.reading.labels()),
        reserved_in(behind_first(row.reading.tokens)),
    ) {
        (None, _) => {
            let said = "a name is expected before `EQU`, as in `step EQU 4`";
            told_text(word, said)
        }
        (Some(_), Some(reserved)) => {
            let said = " is a reserved word, and can't stand in the body of an `EQU`";
            told_word(row.span(reserved), reserved.text, said)
        }
        (Some(name), None) => told_before(word, "nothing stands after the `EQU` of ", name),
    }
}

/// The first reserved word among these tokens.
fn reserved_in<'t, 's>(tokens: &'t [Token<'s>]) -> Option<&'t Token<'s>> {
    for token in tokens {
        if word_at(token).is_some() {
            return Some(token);
        }
    }
    None
}

/// The tokens of a line in which the names of `EQU` lines are replaced.
pub(crate) fn replaced_in<'l, 's>(row: &Row<'l, 's>) -> &'l [Token<'s>] {
    match row.reading.word {
        Some(Word::For) => behind_first(row.reading.tokens),
        _ => operands_in(&row.reading),
    }
}

/// Operands of too many tokens, or a name that is left after the last round.
pub(crate) fn equ_limit<'s, A: Allocator + Copy>(
    scene: &Scene<'s, A>,
    row: &Row<'_, 's>,
) -> Answer<'s> {
    let tokens = replaced_in(row);
    if tokens.len() > TOKEN_LIMIT {
        let said = "there are more than 512 tokens here";
        return Ok(told_text(row.spans(tokens), said));
    }
    match too_deep(scene, row, tokens)? {
        Some(name) => {
            let span = row.spans(name);
            let text = part_of(line_text(scene.source, row.reading.number), span);
            let said = " leads to itself again, or more than 16 deep, or to more than 512 tokens";
            Ok(told_word(span, text, said))
        }
        None => {
            let said =
                "there are more than 512 tokens here, or names of `EQU` lines more than 16 deep";
            Ok(told_text(row.spans(tokens), said))
        }
    }
}

/// The first name among these tokens, with the counters that are joined to it, for which the line is refused without
/// the others.
fn too_deep<'t, 's, A: Allocator + Copy>(
    scene: &Scene<'_, A>,
    row: &Row<'_, '_>,
    tokens: &'t [Token<'s>],
) -> Result<Option<&'t [Token<'s>]>, AllocError> {
    let number = row.reading.number;
    let mut steps = probe_steps();
    for (i, token) in tokens.iter().enumerate() {
        let name = with_joined(scene, number, &tokens[i..]);
        let is_written = name.len() == 1;
        if !is_name(token)
            || ends_join(scene, number, &tokens[..i], token)
            || is_written && definition(scene, Role::Equ, token.text, u32::MAX).is_none()
        {
            continue;
        }
        let text = part_of(line_text(scene.source, number), row.spans(name));
        if is_limited(scene, row, tokens, text, &mut steps)? {
            return Ok(Some(name));
        }
    }
    Ok(None)
}
