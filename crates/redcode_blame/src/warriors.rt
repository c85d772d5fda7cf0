//! What is wrong with a warrior, or with a source as a whole.

use crate::blame::{END, Told, told_parts, told_text};
use crate::expressions::is_among;
use crate::said::{Part, say};
use redcode_asm::said_by;
use redcode_expand::{LineKind, SOURCE_LIMIT};
use redcode_lines::{Reading, Span, is_name};
use redcode_scene::{Judged, Row, Scene, judged_line, operands_in, with_joined};
use redcode_statement::Statement;
use redcode_text::{Token, value};
use std::alloc::{AllocError, Allocator};
use war_types::AsmFault;

/// Most tokens for which a name stands that are said.
const MOST_SAID: usize = 16;

/// No place of a line.
const NOWHERE: Span = Span { from: 0, width: 0 };

/// A source of too many bytes: no more of it is read.
pub(crate) fn source_too_long() -> Told<'static> {
    let limit = Part::Number(count_of(SOURCE_LIMIT));
    told_parts(
        NOWHERE,
        Part::Text("the source has more than "),
        limit,
        Part::Text(" bytes"),
    )
}

/// A source without an instruction.
pub(crate) fn empty<A: Allocator + Copy>(scene: &Scene<'_, A>) -> Told<'static> {
    let said = if scene.source.is_empty() {
        "the source is empty"
    } else {
        "no line of the source gives an instruction"
    };
    told_text(NOWHERE, said)
}

/// A warrior of too many instructions.
pub(crate) fn too_long<A: Allocator + Copy>(scene: &Scene<'_, A>) -> Told<'static> {
    let parts = [
        Part::Text("the warrior has "),
        Part::Number(instructions(scene)),
        Part::Text(" instructions, and may have "),
        Part::Number(i64::from(scene.settings.length())),
        END,
        END,
    ];
    let span = NOWHERE;
    Told { span, parts }
}

/// A start that is no instruction.
pub(crate) fn bad_start<A: Allocator + Copy>(
    scene: &Scene<'_, A>,
    row: &Row<'_, '_>,
) -> Told<'static> {
    let span = row.spans(operands_in(&row.reading));
    match start_on(scene, row.reading.number) {
        Some(start) => start_outside(span, start, instructions(scene).saturating_sub(1)),
        None => told_text(span, "the start is no instruction of the warrior"),
    }
}

/// A start that is none of the instructions up to the last one.
fn start_outside(span: Span, start: i64, last: i64) -> Told<'static> {
    let others = if last == 0 {
        ", and the only instruction is "
    } else {
        ", and the instructions are 0 to "
    };
    let parts = [
        Part::Text("the start is "),
        Part::Number(start),
        Part::Text(others),
        Part::Number(last),
        END,
        END,
    ];
    Told { span, parts }
}

/// Says what stands in an assertion that doesn't hold.
pub(crate) fn say_assertion<A: Allocator + Copy>(
    said: &mut Vec<u8, A>,
    scene: &Scene<'_, A>,
    fault: AsmFault,
) -> Result<(), AllocError> {
    let Some(row) = scene.row(fault.line) else {
        return Ok(());
    };
    match judged_line(scene, &row, fault)? {
        Some(line) => say_values(said, scene, &line, &row.reading),
        None => Ok(()),
    }
}

/// Says the values of the names in an assertion, as it is written.
fn say_values<'s, A: Allocator + Copy>(
    said: &mut Vec<u8, A>,
    scene: &Scene<'_, A>,
    line: &Judged<'_, 's, A>,
    reading: &Reading<'_, 's>,
) -> Result<(), AllocError> {
    let mut mark = ": ";
    for (i, token) in reading.tokens.iter().enumerate() {
        let stands = line.standing_for(token);
        if !may_say(&reading.tokens[..i], token, stands) {
            continue;
        }
        if let Ok(value) = value(stands, &line.names()) {
            let name = with_joined(scene, reading.number, &reading.tokens[i..]);
            say(said, &[Part::Text(mark)])?;
            say_name(said, name, stands)?;
            say(said, &[Part::Text(" is ")])?;
            say_meaning(said, stands, value)?;
            mark = ", ";
        }
    }
    Ok(())
}

/// Whether a token is a name that stands for some tokens, not too many, and is not among those before it.
fn may_say(before: &[Token<'_>], token: &Token<'_>, stands: &[Token<'_>]) -> bool {
    is_name(token)
        && !stands.is_empty()
        && stands.len() <= MOST_SAID
        && !is_among(before, token.text)
}

/// Says a name: that to which its counters are joined, or else as these tokens have it written.
fn say_name<A: Allocator>(
    said: &mut Vec<u8, A>,
    written: &[Token<'_>],
    stands: &[Token<'_>],
) -> Result<(), AllocError> {
    if let ([first, _, ..], [joined]) = (written, stands)
        && is_name(joined)
        && joined.text.starts_with(first.text)
    {
        return say(said, &[Part::Bytes(joined.text)]);
    }
    say_tokens(said, written)
}

/// Says these tokens, without blanks.
fn say_tokens<A: Allocator>(said: &mut Vec<u8, A>, tokens: &[Token<'_>]) -> Result<(), AllocError> {
    for token in tokens {
        say(said, &[Part::Bytes(token.text)])?;
    }
    Ok(())
}

/// Says the value of one token; of more than one how they read, since what stands around them may part them.
fn say_meaning<A: Allocator>(
    said: &mut Vec<u8, A>,
    stands: &[Token<'_>],
    value: i64,
) -> Result<(), AllocError> {
    match stands {
        [_] => say(said, &[Part::Number(value)]),
        _ => say_tokens(said, stands),
    }
}

/// The start that a line gives.
fn start_on<A: Allocator + Copy>(scene: &Scene<'_, A>, number: u32) -> Option<i64> {
    let Some(expanded) = &scene.expanded else {
        return None;
    };
    let mut start = None;
    for entry in expanded.entries() {
        if entry.line.source_line != number {
            continue;
        }
        if let Ok(Statement::Org(value) | Statement::End(value)) = said_by(
            expanded,
            scene.settings,
            entry,
        ) {
            start = Some(value);
        }
    }
    start
}

/// How many instructions the warrior has.
fn instructions<A: Allocator + Copy>(scene: &Scene<'_, A>) -> i64 {
    let mut count: i64 = 0;
    if let Some(expanded) = &scene.expanded {
        for entry in expanded.entries() {
            if let LineKind::Operation = entry.line.kind {
                count = count.saturating_add(1);
            }
        }
    }
    count
}

/// A number of things that are in memory.
fn count_of(count: usize) -> i64 {
    i64::try_from(count).unwrap_or(i64::MAX)
}
