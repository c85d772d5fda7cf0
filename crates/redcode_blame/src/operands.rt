//! Operands that are missing, or too many.

use crate::blame::{Answer, Told, told_text, told_word};
use redcode_expand::LineKind;
use redcode_scene::{Judged, Parted, Row, Scene, at_comma, judged_line, operands_in};
use redcode_text::{Token, Word};
use std::alloc::Allocator;
use war_types::AsmFault;

/// An operand that is missing.
pub(crate) fn missing_operand<'s, A: Allocator + Copy>(
    scene: &Scene<'s, A>,
    row: &Row<'_, 's>,
    fault: AsmFault,
) -> Answer<'s> {
    let Some(line) = judged_line(scene, row, fault)? else {
        return Ok(no_operand(row));
    };
    match at_comma(line.operands()) {
        Some(found) => Ok(told_text_of(scene, &line, found)),
        None => Ok(no_operand(row)),
    }
}

/// An operand that is missing before a comma or after it.
fn told_text_of<'s, A: Allocator + Copy>(
    scene: &Scene<'s, A>,
    line: &Judged<'_, 's, A>,
    found: Parted<'_, 's>,
) -> Told<'s> {
    let (comma, said) = match found.behind {
        _ if found.before.is_empty() => (found.comma, "nothing stands before this comma"),
        [next, ..] if line.is_replaced(scene, next) => (next, REPLACED),
        _ => (found.comma, "nothing stands after this comma"),
    };
    if line.is_replaced(scene, comma) {
        return told_text(line.span(comma), REPLACED);
    }
    told_text(line.span(comma), said)
}

/// What is said where an operand is missing only once names are replaced.
const REPLACED: &str = "an operand is missing once the names of `EQU` lines are replaced";

/// No operand after the word of a line, or one that is missing only once names are replaced.
fn no_operand<'s>(row: &Row<'_, 's>) -> Told<'s> {
    match row.reading.tokens {
        [word, ..] if operands_in(&row.reading).is_empty() => {
            let needs = match row.reading.word {
                Some(Word::Org) => " needs the address of an instruction",
                _ => " needs an operand",
            };
            told_word(row.span(word), word.text, needs)
        }
        _ => told_text(row.whole(), REPLACED),
    }
}

/// A comma too many.
pub(crate) fn extra_text<'s, A: Allocator + Copy>(
    scene: &Scene<'s, A>,
    row: &Row<'_, 's>,
    fault: AsmFault,
) -> Answer<'s> {
    let Some(line) = judged_line(scene, row, fault)? else {
        return Ok(told_text(row.spans(operands_in(&row.reading)), ONE));
    };
    let (said, extra) = extra_comma(&line);
    match extra {
        Some(comma) if line.is_replaced(scene, comma) => {
            let said = "there is a comma too many once the names of `EQU` lines are replaced";
            Ok(told_text(line.span(comma), said))
        }
        Some(comma) => Ok(told_text(line.span(comma), said)),
        None => Ok(told_text(row.spans(operands_in(&row.reading)), said)),
    }
}

/// What is said of a comma in one expression.
const ONE: &str = "a comma: one expression stands here, and no more";

/// The first comma that is too many, and what is said of it.
fn extra_comma<'l, 's, A: Allocator + Copy>(
    line: &'l Judged<'_, 's, A>,
) -> (&'static str, Option<&'l Token<'s>>) {
    let Some(first) = at_comma(line.operands()) else {
        return (ONE, None);
    };
    match line.line.kind {
        LineKind::Operation => (
            "a second comma: an instruction has two operands at most",
            comma_in(first.behind),
        ),
        _ => (ONE, Some(first.comma)),
    }
}

/// The first comma.
fn comma_in<'t, 's>(tokens: &'t [Token<'s>]) -> Option<&'t Token<'s>> {
    match at_comma(tokens) {
        Some(found) => Some(found.comma),
        None => None,
    }
}
