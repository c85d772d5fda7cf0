//! What else is refused of a source in which a name is defined twice.

ghost use Rattle.std.specs.Prelude.{◌≡◌, OnOk, map};
ghost use Rattle.{redcode_scene.specs.Faults.is_told, redcode_diagnosis.specs.{Further.{PutsFurther}, Told.{is_twice}}};

use crate::diagnosis::{Diagnosis, is_memory, told};
use bumpalo::Bump;
use redcode_asm::warrior_from;
use redcode_blame::{Scene, told_faults};
use redcode_expand::{Expanded, Steps, expand_within};
use redcode_lines::{Span, part_of};
use redcode_scene::{Role, definition, is_operation, is_reserved};
use std::alloc::{AllocError, Allocator};
use war_types::{AsmFault, AsmKind, ExprFault, Settings};

/// Most names that are defined twice and passed over, and lines beside them. For each the source is written out once more.
const MOST: u32 = 10;

/// Steps that writing it out takes at most, all times together: as many as a service allows an assembly by default.
const STEPS: u64 = 25_000;

/// Most refusals in all.
const MOST_TOLD: usize = 100;

/// A part of a line: columns are counted from 1.
#[derive(Clone, Copy)]
struct Place {
    line: u32,
    column: u32,
    width: u32,
}

/// Whether a fault is that a name is defined twice.
pub(crate) fn is_twice(kind: AsmKind) -> bool
    ensures { result ≡ is_twice kind }
{
    matches!(kind, AsmKind::DuplicateName)
}

/// Puts the refusals of lines of a source in which a name is defined twice, after the one of that name, each line once: those that it has if
/// such names are blanked out, one after the other. A line that is refused all the same is blanked out whole. It ends after ten names and
/// lines, or once the steps are spent.
pub(crate) fn put_further<A: Allocator + Copy>(
    alloc: A,
    source: &[u8],
    settings: &Settings,
    all: &mut Vec<Diagnosis<A>, A>,
) -> Result<(), AllocError>
    ensures { OnOk result (PutsFurther source.now all.old.items all.new.items) }
{
    let mut text = Vec::new(alloc);
    text.extend_from_slice(source)?;
    let mut steps = Steps::new(STEPS);
    let mut next = newest(all.as_slice());
    for _ in 0..MOST {
        let Some(place) = next else {
            return Ok(());
        };
        blank(text.as_mut_slice(), place);
        next = put_round(alloc, source, text.as_slice(), settings, &mut steps, all)?;
    }
    Ok(())
}

/// What is blanked out next: a name that was found to be defined twice, or a line that is refused though it was told already.
fn next_place<A: Allocator>(all: &[Diagnosis<A>], first: AsmFault, known: bool) -> Option<Place> {
    if known {
        return Some(Place {
            line: first.line,
            column: 1,
            width: u32::MAX,
        });
    }
    if is_twice(first.kind) {
        return newest(all);
    }
    None
}

/// The place of the newest refusal.
fn newest<A: Allocator>(all: &[Diagnosis<A>]) -> Option<Place> {
    let last = all.last()?;
    Some(Place {
        line: last.fault.line,
        column: last.column,
        width: last.width,
    })
}

/// Whether a refusal of this line is among these.
fn is_told<A: Allocator>(all: &[Diagnosis<A>], line: u32) -> bool
    ensures { result ≡ is_told (map (λ d. d.fault) all.now) line }
{
    let mut rest = all;
    while let [diagnosis, behind @ ..] = rest {
        if diagnosis.fault.line == line {
            return true;
        }
        rest = behind;
    }
    false
}

/// Puts blanks in the place of a part of a line.
fn blank(text: &mut [u8], place: Place) {
    let mut line: u32 = 1;
    let mut column: u32 = 1;
    for at in 0..text.len() {
        if text[at] == b'\n' {
            line = line.saturating_add(1);
            column = 1;
        } else {
            if line == place.line && column >= place.column && column - place.column < place.width {
                text[at] = b' ';
            }
            column = column.saturating_add(1);
        }
    }
}

/// Puts the refusals of a text whose lines are as long as those of the source, by places in these. The first is that of the assembler. The
/// answer is what is blanked out next, if something is.
fn put_round<A: Allocator + Copy>(
    alloc: A,
    source: &[u8],
    text: &[u8],
    settings: &Settings,
    steps: &mut Steps,
    all: &mut Vec<Diagnosis<A>, A>,
) -> Result<Option<Place>, AllocError>
    ensures { OnOk result (PutsFurther source.now all.old.items all.new.items) }
{
    let region = Bump::new(alloc);
    put_within(alloc, &region, source, text, settings, steps, all)
}

/// The same with this region for what is written out. Nothing is put if the steps are spent.
fn put_within<'s, A: Allocator + Copy>(
    alloc: A,
    region: &'s Bump<A>,
    source: &[u8],
    text: &'s [u8],
    settings: &'s Settings,
    steps: &mut Steps,
    all: &mut Vec<Diagnosis<A>, A>,
) -> Result<Option<Place>, AllocError>
    ensures { OnOk result (PutsFurther source.now all.old.items all.new.items) }
{
    match expand_within(alloc, region, text, settings, steps) {
        Ok(expanded) => match warrior_from(alloc, &expanded, settings) {
            Ok(_) => Ok(None),
            Err(first) => put_refused(alloc, source, text, settings, Some(expanded), first, all),
        },
        Err(_) if steps.are_spent() => Ok(None),
        Err(first) => put_refused(alloc, source, text, settings, None, first, all),
    }
}

/// The same for a text that is refused, with its lines written out.
fn put_refused<'s, A: Allocator + Copy>(
    alloc: A,
    source: &[u8],
    text: &'s [u8],
    settings: &'s Settings,
    expanded: Option<Expanded<'s, A>>,
    first: AsmFault,
    all: &mut Vec<Diagnosis<A>, A>,
) -> Result<Option<Place>, AllocError>
    ensures { OnOk result (PutsFurther source.now all.old.items all.new.items) }
{
    if is_memory(first.kind) {
        return Err(AllocError);
    }
    let known = is_told(all.as_slice(), first.line);
    let scene = Scene::of(alloc, text, settings, expanded)?;
    put_from(&scene, source, first, all)?;
    Ok(next_place(all.as_slice(), first, known))
}

fn put_from<A: Allocator + Copy>(
    scene: &Scene<'_, A>,
    source: &[u8],
    first: AsmFault,
    all: &mut Vec<Diagnosis<A>, A>,
) -> Result<(), AllocError>
    ensures { OnOk result (PutsFurther source.now all.old.items all.new.items) }
{
    let faults = told_faults(scene, first)?;
    put_all(scene, source, faults.as_slice(), all)
}

/// Puts these faults, but for those of lines that are told already, and those that may be there only because a name or a
/// line was blanked out.
fn put_all<A: Allocator + Copy>(
    scene: &Scene<'_, A>,
    source: &[u8],
    faults: &[AsmFault],
    all: &mut Vec<Diagnosis<A>, A>,
) -> Result<(), AllocError>
    ensures { OnOk result (PutsFurther source.now all.old.items all.new.items) }
{
    let lacks = has_lost(scene, source);
    for fault in faults {
        put_new(scene, source, *fault, lacks, all)?;
    }
    Ok(())
}

/// Whether a fault may be there only because a name isn't defined any more, or a line is gone.
fn may_follow(kind: AsmKind) -> bool {
    matches!(
        kind,
        AsmKind::Expression(ExprFault::UnknownName | ExprFault::DivideByZero)
            | AsmKind::ForCount(ExprFault::UnknownName | ExprFault::DivideByZero)
            | AsmKind::AssertFalse
            | AsmKind::BadStart
    )
}

/// Whether the text lacks a name of the source that nothing defines in the text, or an operation.
fn has_lost<A: Allocator + Copy>(scene: &Scene<'_, A>, source: &[u8]) -> bool {
    let mut from: u32 = 0;
    let mut width: u32 = 0;
    for (old, new) in source.iter().zip(scene.source) {
        if old != new && (old.is_ascii_alphanumeric() || *old == b'_') {
            width = width.saturating_add(1);
            continue;
        }
        if is_lost(scene, part_of(source, Span { from, width })) {
            return true;
        }
        from = from.saturating_add(width).saturating_add(1);
        width = 0;
    }
    is_lost(scene, part_of(source, Span { from, width }))
}

/// Whether a part that the text lacks is an operation, or a name that is neither a label of what is written out nor that
/// of an `EQU`.
fn is_lost<A: Allocator + Copy>(scene: &Scene<'_, A>, part: &[u8]) -> bool {
    let is_number = match part {
        [first, ..] => first.is_ascii_digit(),
        [] => true,
    };
    if is_number || is_reserved(part) {
        return is_operation(part);
    }
    let is_label = match &scene.expanded {
        Some(expanded) => expanded.label(part).is_some(),
        None => false,
    };
    !is_label && definition(scene, Role::Equ, part, u32::MAX).is_none()
}

/// Puts this fault, unless one of its line is told already, or it may be there only because the text lacks something.
fn put_new<A: Allocator + Copy>(
    scene: &Scene<'_, A>,
    source: &[u8],
    fault: AsmFault,
    lacks: bool,
    all: &mut Vec<Diagnosis<A>, A>,
) -> Result<(), AllocError>
    ensures { OnOk result (PutsFurther source.now all.old.items all.new.items) }
{
    let follows = lacks && may_follow(fault.kind);
    if follows || fault.line == 0 || all.len() >= MOST_TOLD || is_told(all.as_slice(), fault.line) {
        return Ok(());
    }
    let diagnosis = told(scene, source, fault)?;
    all.push(diagnosis)?;
    Ok(())
}
