//! What the source would be if one of its lines were another.

ghost use Rattle.std.specs.Prelude.{◌≡◌, ◌≤◌, IfOk, IfSome, length};
ghost use Rattle.redcode_scene.specs.Definer.{HasLabel, bytes_through, with_line};

use crate::copies::blocks_around;
use crate::scene::{Row, Scene};
use bumpalo::Bump;
use redcode_expand::{Steps, expand_within};
use redcode_lines::{Span, line_text, part_of};
use redcode_text::Token;
use std::alloc::{AllocError, Allocator};
use war_types::{AsmFault, AsmKind};

/// Steps that may be spent on what is told of one refusal: twice as many as a service allows an assembly by default.
const STEPS: u64 = 50_000;

/// A budget of steps for what is told of one refusal.
pub fn probe_steps() -> Steps {
    Steps::new(STEPS)
}

/// Whether a line is walked over before the line `limit` is refused; `None` if that takes too long to find out.
///
/// A line outside of all blocks is, if it comes before. Any other one is replaced by an `EQU` without a name: the source
/// is then refused for that, unless it doesn't come so far.
pub fn is_walked<A: Allocator + Copy>(
    scene: &Scene<'_, A>,
    number: u32,
    limit: u32,
    steps: &mut Steps,
) -> Result<Option<bool>, AllocError> {
    if blocks_around(scene.lines.as_slice(), number).count == 0 {
        return Ok(Some(number < limit));
    }
    let Some(fault) = refusal_with(scene, number, b"EQU", steps)? else {
        return Ok(Some(false));
    };
    match fault.kind {
        AsmKind::Memory | AsmKind::SourceTooLong => Ok(None),
        AsmKind::BadEqu => Ok(Some(fault.line == number)),
        _ => Ok(Some(false)),
    }
}

/// Whether a line is refused for the names of `EQU` lines if it has one of its tokens in place of all of these.
pub fn is_limited<A: Allocator + Copy>(
    scene: &Scene<'_, A>,
    row: &Row<'_, '_>,
    operands: &[Token<'_>],
    name: &[u8],
    steps: &mut Steps,
) -> Result<bool, AllocError> {
    let number = row.reading.number;
    let front = Span {
        from: 0,
        width: row.spans(operands).from,
    };
    let front = part_of(line_text(scene.source, number), front);
    let mut text = Vec::from_slice(scene.alloc, front)?;
    text.extend_from_slice(name)?;
    match refusal_with(scene, number, text.as_slice(), steps)? {
        None => Ok(false),
        Some(fault) => Ok(fault.line == number && matches!(fault.kind, AsmKind::EquLimit)),
    }
}

/// Why the source can't be written out with this text in place of a line; `Memory` too if the steps are spent.
fn refusal_with<A: Allocator + Copy>(
    scene: &Scene<'_, A>,
    number: u32,
    text: &[u8],
    steps: &mut Steps,
) -> Result<Option<AsmFault>, AllocError> {
    let made = with_line(scene.alloc, scene.source, number, text)?;
    let region = Bump::new(scene.alloc);
    Ok(refusal_in(scene, &region, made.as_slice(), steps))
}

/// Why a text can't be written out, with this region for what is.
fn refusal_in<'t, A: Allocator + Copy>(
    scene: &Scene<'_, A>,
    region: &'t Bump<A>,
    text: &'t [u8],
    steps: &mut Steps,
) -> Option<AsmFault> {
    match expand_within(scene.alloc, region, text, scene.settings, steps) {
        Ok(_) => None,
        Err(fault) => Some(fault),
    }
}

/// Whether the source has a label of this name with this text in place of a line; `None` if it can't be written out
/// within the steps.
pub(crate) fn has_label_with<A: Allocator + Copy>(
    scene: &Scene<'_, A>,
    number: u32,
    text: &[u8],
    name: &[u8],
    steps: &mut Steps,
) -> Result<Option<bool>, AllocError>
    ensures { IfOk result (λ found. IfSome found
        (HasLabel scene.now.settings.now (with_line scene.now.source.now number text.now) name.now)) }
{
    let made = with_line(scene.alloc, scene.source, number, text)?;
    let region = Bump::new(scene.alloc);
    Ok(has_label(scene, &region, made.as_slice(), name, steps))
}

/// Whether a text has a label of this name, with this region for what is written out; `None` if that can't be.
fn has_label<'t, A: Allocator + Copy>(
    scene: &Scene<'_, A>,
    region: &'t Bump<A>,
    text: &'t [u8],
    name: &[u8],
    steps: &mut Steps,
) -> Option<bool>
    ensures { IfSome result (HasLabel scene.now.settings.now text.entry.now name.now) }
{
    match expand_within(scene.alloc, region, text, scene.settings, steps) {
        Ok(expanded) => Some(expanded.label(name).is_some()),
        Err(_) => None,
    }
}

/// The source with this text in place of the line of this number.
fn with_line<A: Allocator>(
    alloc: A,
    source: &[u8],
    number: u32,
    text: &[u8],
) -> Result<Vec<u8, A>, AllocError>
    ensures { IfOk result (λ made. made.items ≡ with_line source.now number text.now) }
{
    let from = bytes_through(number.saturating_sub(1), source);
    let (before, rest) = source.split_at(from);
    let (_, behind) = rest.split_at(bytes_through(1, rest));
    let mut made = Vec::from_slice(alloc, before)?;
    made.extend_from_slice(text)?;
    made.push(b'\n')?;
    made.extend_from_slice(behind)?;
    Ok(made)
}

/// How many bytes of a text there are up to its line feed of this number, counted from 1, and with it; all of them if
/// it has fewer.
fn bytes_through(feeds: u32, text: &[u8]) -> usize
    ensures value { result ≡ bytes_through feeds text.now }
    ensures within { result ≤ length text.now }
{
    let mut left = feeds;
    let mut rest = text;
    while let [byte, behind @ ..] = rest {
        if left == 0 {
            return text.len() - rest.len();
        }
        if *byte == b'\n' {
            left -= 1;
        }
        rest = behind;
    }
    text.len()
}
