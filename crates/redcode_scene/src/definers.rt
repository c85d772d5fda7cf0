//! What has defined a name before it is defined again.

ghost use Rattle.std.specs.Prelude.{◌≡◌, IfOk, IfSome, true};
ghost use Rattle.redcode_scene.specs.Definer.{DefinesIn, HasLabel, IsDefiner, ended_with, ending, opening, with_line};

use crate::copies::is_counter_at;
use crate::definitions::{is_among, last_name};
use crate::probe::{has_label_with, is_walked, probe_steps};
use crate::scene::Scene;
use redcode_expand::Steps;
use redcode_lines::{LineForm, Reading, has_text, is_name, line_text};
use redcode_text::{Token, Word};
use std::alloc::{AllocError, Allocator};

/// What has defined a name before.
#[derive(Clone, Copy)]
pub enum Definer {
    /// The line of this number, of those that are written out.
    Line(u32),
    /// A copy of a block, which joins a counter to a label.
    Joined,
    /// No other line.
    Nothing,
    /// It takes too long to find out.
    Unknown,
}

/// What has defined a name before the line of this number defines it again.
pub fn definer_before<A: Allocator + Copy>(
    scene: &Scene<'_, A>,
    name: &[u8],
    number: u32,
) -> Result<Definer, AllocError>
    ensures { IfOk result (IsDefiner scene.now.settings.now scene.now.source.now name.now) }
{
    let mut steps = probe_steps();
    match defined_before(scene, name, number, &mut steps)? {
        Definer::Nothing => joined_before(scene, name, number, &mut steps),
        found => Ok(found),
    }
}

/// The line that defines a name as it is written, of those but the one of this number.
fn defined_before<A: Allocator + Copy>(
    scene: &Scene<'_, A>,
    name: &[u8],
    number: u32,
    steps: &mut Steps,
) -> Result<Definer, AllocError>
    ensures { IfOk result (IsDefiner scene.now.settings.now scene.now.source.now name.now) }
{
    for line in &scene.lines {
        let reading = line.reading();
        if reading.number == number || !has_label(&reading, name) {
            continue;
        }
        if defines(scene, &reading, name, steps)? {
            return Ok(Definer::Line(reading.number));
        }
        if steps.are_spent() {
            return Ok(Definer::Unknown);
        }
    }
    Ok(Definer::Nothing)
}

/// Whether a name is among the labels of a line.
fn has_label(line: &Reading<'_, '_>, name: &[u8]) -> bool {
    matches!(line.form, LineForm::Statement) && is_among(line.labels(), name)
}

/// Whether a line defines a name in what is written out: it is no label if the source ends there, and is one if it ends
/// behind the labels of the line.
fn defines<A: Allocator + Copy>(
    scene: &Scene<'_, A>,
    line: &Reading<'_, '_>,
    name: &[u8],
    steps: &mut Steps,
) -> Result<bool, AllocError>
    ensures { IfOk result (λ is. is ≡ true
        → DefinesIn scene.now.settings.now scene.now.source.now name.now line.now.number) }
{
    let text = line_text(scene.source, line.number);
    let (labels, _) = text.split_at(label_bytes(line).min(text.len()));
    let behind = ended_has(scene, line, labels, name, steps)?;
    if behind != Some(true) {
        return Ok(false);
    }
    let before = ended_has(scene, line, b"", name, steps)?;
    Ok(before == Some(false))
}

/// Whether a name is a label if the source ends at a line, behind these labels; `None` if that can't be written out
/// within the steps.
fn ended_has<A: Allocator + Copy>(
    scene: &Scene<'_, A>,
    line: &Reading<'_, '_>,
    labels: &[u8],
    name: &[u8],
    steps: &mut Steps,
) -> Result<Option<bool>, AllocError>
    ensures { IfOk result (λ found. IfSome found (HasLabel scene.now.settings.now
        (with_line scene.now.source.now line.now.number (ended_with line.now.word labels.now)) name.now)) }
{
    let text = ended_with(scene.alloc, line.word, labels)?;
    has_label_with(scene, line.number, text.as_slice(), name, steps)
}

/// A line with these labels at which a source ends.
fn ended_with<A: Allocator>(
    alloc: A,
    word: Option<Word>,
    labels: &[u8],
) -> Result<Vec<u8, A>, AllocError>
    ensures { IfOk result (λ text. text.items ≡ ended_with word labels.now) }
{
    let mut text = Vec::from_slice(alloc, opening(word))?;
    text.extend_from_slice(labels)?;
    text.extend_from_slice(ending(word))?;
    Ok(text)
}

/// What comes before the labels of such a line: the end of the block, if it is a `ROF`.
fn opening(word: Option<Word>) -> &'static [u8]
    ensures { result.now ≡ opening word }
{
    match word {
        Some(Word::Rof) => b"ROF\n",
        _ => b"",
    }
}

/// What comes behind its labels: a block without a copy before the end, if it is a `FOR`.
fn ending(word: Option<Word>) -> &'static [u8]
    ensures { result.now ≡ ending word }
{
    match word {
        Some(Word::For) => b" FOR 0\nROF\nEND",
        _ => b" END",
    }
}

/// Bytes of a line up to its word, or up to the end of its labels if it has none.
fn label_bytes(line: &Reading<'_, '_>) -> usize {
    match (line.word, line.tokens, line.labels()) {
        (Some(_), [word, ..], _) => word.at as usize,
        (_, _, [.., last]) => (last.at as usize).saturating_add(last.text.len()),
        _ => 0,
    }
}

/// The line of which a copy joins a counter to a label so that it is this name, of those but the one of this number.
fn joined_before<A: Allocator + Copy>(
    scene: &Scene<'_, A>,
    name: &[u8],
    number: u32,
    steps: &mut Steps,
) -> Result<Definer, AllocError>
    ensures { IfOk result (IsDefiner scene.now.settings.now scene.now.source.now name.now) }
{
    for line in &scene.lines {
        let reading = line.reading();
        if reading.number == number || !joins(scene, &reading, name) {
            continue;
        }
        match is_walked(scene, reading.number, number, steps)? {
            None => return Ok(Definer::Unknown),
            Some(true) => return Ok(Definer::Joined),
            Some(false) => {}
        }
    }
    Ok(Definer::Nothing)
}

/// Whether a line of the source may join a counter to one of its labels so that it is this name.
pub fn may_be_joined<A: Allocator + Copy>(scene: &Scene<'_, A>, name: &[u8]) -> bool {
    for line in &scene.lines {
        if joins(scene, &line.reading(), name) {
            return true;
        }
    }
    false
}

/// Whether a counter may be joined to one of a line's labels so that it is this name.
fn joins<A: Allocator + Copy>(scene: &Scene<'_, A>, line: &Reading<'_, '_>, name: &[u8]) -> bool {
    if !matches!(line.form, LineForm::Statement) {
        return false;
    }
    let labels = line.labels();
    for (i, token) in labels.iter().enumerate() {
        if is_name(token)
            && may_join(token.text, name)
            && is_joined(scene, line.number, &labels[i + 1..])
        {
            return true;
        }
    }
    false
}

/// Whether a counter may be joined to the first name so that it is the second one: two digits at least stand after it.
fn may_join(first: &[u8], name: &[u8]) -> bool {
    match name.strip_prefix(first) {
        Some(digits) => digits.len() > 1 && digits.iter().all(|byte| byte.is_ascii_digit()),
        None => false,
    }
}

/// Whether a token among the labels of a line is a name that the line defines as it is written: no counter of its
/// block, and no part of a join.
pub fn is_label<A: Allocator + Copy>(
    scene: &Scene<'_, A>,
    line: &Reading<'_, '_>,
    before: &[Token<'_>],
    token: &Token<'_>,
    behind: &[Token<'_>],
) -> bool {
    let is_counter = matches!(line.word, Some(Word::For)) && last_name(behind).is_none();
    is_name(token)
        && !is_counter
        && !is_joined(scene, line.number, behind)
        && !ends_join(scene, line.number, before, token)
}

/// Whether these tokens join a counter to the name before them, on the line of this number.
pub fn is_joined<A: Allocator + Copy>(
    scene: &Scene<'_, A>,
    number: u32,
    behind: &[Token<'_>],
) -> bool {
    match behind {
        [and, counter, ..] if has_text(and, b"&") && is_name(counter) => {
            is_counter_at(scene.lines.as_slice(), number, counter.text)
        }
        _ => false,
    }
}

/// Whether a token is a counter that is joined to the tokens before it, on the line of this number.
pub fn ends_join<A: Allocator + Copy>(
    scene: &Scene<'_, A>,
    number: u32,
    before: &[Token<'_>],
    token: &Token<'_>,
) -> bool {
    match before {
        [.., and] if has_text(and, b"&") && is_name(token) => {
            is_counter_at(scene.lines.as_slice(), number, token.text)
        }
        _ => false,
    }
}

/// The first of these tokens, with the counters that are joined to it on the line of this number.
pub fn with_joined<'t, 's, A: Allocator + Copy>(
    scene: &Scene<'_, A>,
    number: u32,
    tokens: &'t [Token<'s>],
) -> &'t [Token<'s>] {
    for i in 0..tokens.len() {
        if i % 2 == 1 && !is_joined(scene, number, &tokens[i..]) {
            return &tokens[..i];
        }
    }
    tokens
}
