//! Counts of blocks.

use crate::blame::{Answer, told_text, told_word};
use crate::expressions::{division_by_zero, first_too_large, overflow, too_large};
use crate::names::not_defined;
use crate::shape::{Shaped, flawed, without_flaw};
use redcode_expand::predefined;
use redcode_lines::{behind_first, is_name, line_text, part_of};
use redcode_scene::{Role, Row, Scene, definition, ends_join, flaw_of, is_joined, may_be_joined};
use redcode_text::Token;
use std::alloc::{AllocError, Allocator};
use war_types::ExprFault;

/// The count of a block that has no value.
pub(crate) fn count<'s, A: Allocator + Copy>(
    scene: &Scene<'s, A>,
    row: &Row<'_, 's>,
    kind: ExprFault,
) -> Answer<'s> {
    let tokens = behind_first(row.reading.tokens);
    if tokens.is_empty() {
        let said = "a count is expected after `FOR`";
        return Ok(told_text(row.word(), said));
    }
    match kind {
        ExprFault::BadExpression => no_count(scene, row, tokens),
        ExprFault::UnknownName => unknown_in_count(scene, row, tokens),
        ExprFault::DivideByZero => Ok(division_by_zero(row.spans(tokens), tokens)),
        ExprFault::Overflow => match first_too_large(tokens) {
            Some(token) => Ok(too_large(row.span(token), token)),
            None => Ok(overflow(row.spans(tokens))),
        },
    }
}

/// Tokens that make no count.
fn no_count<'s, A: Allocator + Copy>(
    scene: &Scene<'s, A>,
    row: &Row<'_, 's>,
    tokens: &[Token<'s>],
) -> Answer<'s> {
    let joined = without_joins(scene, row.reading.number, tokens)?;
    let joined = joined.as_slice();
    let shaped = Shaped {
        operand: joined,
        tokens: joined,
        may_part: false,
        is_second: false,
    };
    let Some(flaw) = flaw_of(joined) else {
        if has_equ(scene, joined) {
            let said = "this is no expression once the names of `EQU` lines are replaced";
            return Ok(told_text(row.spans(tokens), said));
        }
        return Ok(without_flaw(row.spans(tokens), shaped));
    };
    let (first, last) = flaw.tokens();
    let span = row.span(first).to(row.span(last));
    let text = part_of(line_text(scene.source, row.reading.number), span);
    Ok(flawed(span, text, flaw, shaped))
}

/// Whether the name of an `EQU` is among these tokens.
fn has_equ<A: Allocator + Copy>(scene: &Scene<'_, A>, tokens: &[Token<'_>]) -> bool {
    for token in tokens {
        if is_name(token) && definition(scene, Role::Equ, token.text, u32::MAX).is_some() {
            return true;
        }
    }
    false
}

/// The tokens without the counters that are joined to names.
fn without_joins<'s, A: Allocator + Copy>(
    scene: &Scene<'_, A>,
    number: u32,
    tokens: &[Token<'s>],
) -> Result<Vec<Token<'s>, A>, AllocError> {
    let mut joined = Vec::with_capacity(scene.alloc, tokens.len())?;
    for (i, token) in tokens.iter().enumerate() {
        if !is_joined(scene, number, &tokens[i..])
            && !ends_join(scene, number, &tokens[..i], token)
        {
            joined.push(*token)?;
        }
    }
    Ok(joined)
}

/// A name in a count that no line before it has defined by an `EQU`.
fn unknown_in_count<'s, A: Allocator + Copy>(
    scene: &Scene<'s, A>,
    row: &Row<'_, 's>,
    tokens: &[Token<'s>],
) -> Answer<'s> {
    match first_unknown(scene, tokens, row.reading.number) {
        Some(name) => match unknown_why(scene, name.text) {
            Some(why) => Ok(told_word(row.span(name), name.text, why)),
            None => not_defined(scene, row.span(name), name.text, ""),
        },
        None => {
            let said =
                "a count knows numbers, predefined names and the names of `EQU` lines above it, and a name here is none of these";
            Ok(told_text(row.spans(tokens), said))
        }
    }
}

/// Why a name that the source defines is not known in a count.
fn unknown_why<A: Allocator + Copy>(scene: &Scene<'_, A>, name: &[u8]) -> Option<&'static str> {
    if definition(scene, Role::Label, name, u32::MAX).is_some() {
        return Some(" is a label, and labels are not known in a count");
    }
    if definition(scene, Role::Equ, name, u32::MAX).is_some() {
        return Some(" is defined by an `EQU` below, and is not known here");
    }
    if may_be_joined(scene, name) {
        return Some(" is a name to which a counter is joined, and is not known here");
    }
    None
}

/// The first name among these tokens that is neither predefined nor joined, nor a counter or the name of an `EQU` above this line.
fn first_unknown<'t, 's, A: Allocator + Copy>(
    scene: &Scene<'_, A>,
    tokens: &'t [Token<'s>],
    number: u32,
) -> Option<&'t Token<'s>> {
    for (i, token) in tokens.iter().enumerate() {
        if is_name(token)
            && !is_joined(scene, number, &tokens[i + 1..])
            && !ends_join(scene, number, &tokens[..i], token)
            && !is_known(scene, token.text, number)
        {
            return Some(token);
        }
    }
    None
}

/// Whether a name is known in a count on the line of this number.
fn is_known<A: Allocator + Copy>(scene: &Scene<'_, A>, name: &[u8], number: u32) -> bool {
    predefined(scene.settings, 0, name).is_some()
        || definition(scene, Role::Equ, name, number).is_some()
        || definition(scene, Role::Counter, name, number).is_some()
}
