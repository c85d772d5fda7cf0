//! The faults of a source's lines, each line judged by itself.

ghost use Rattle.std.specs.Prelude.{◌≡◌, IfOk, OnOk};
ghost use Rattle.redcode_scene.specs.Faults.{fault_of, faults_from, faults_known, is_told, with_fault};

use crate::scene::Scene;
use redcode_asm::{Labels, said_by};
use redcode_expand::{Entry, Expanded, Line, LineKind};
use redcode_statement::Statement;
use redcode_text::Token;
use std::alloc::{AllocError, Allocator};
use war_types::{AsmFault, AsmKind, Settings};

/// Faults that are told of a source at most.
const FAULT_LIMIT: usize = 100;

/// What names stand for on a line.
pub fn labels_on<'e, 's, A: Allocator + Copy>(
    expanded: &'e Expanded<'s, A>,
    settings: &'e Settings,
    line: Line,
) -> Labels<'e, 's, A> {
    let before = line.before;
    let origin = match line.kind {
        LineKind::Operation => before,
        _ => 0,
    };
    Labels {
        expanded,
        settings,
        before,
        origin,
    }
}

/// The fault of a line, a false assertion included.
pub(crate) fn fault_of<A: Allocator + Copy>(
    expanded: &Expanded<'_, A>,
    settings: &Settings,
    entry: &Entry<'_, A>,
) -> Option<AsmKind>
    ensures { result ≡ fault_of settings.now expanded.now.labels entry.now }
{
    match said_by(expanded, settings, entry) {
        Ok(Statement::Assert(0)) => Some(AsmKind::AssertFalse),
        Ok(_) => None,
        Err(kind) => Some(kind),
    }
}

/// The first fault, and the faults of the other lines, if the source could be written out: each line of the source once, in the order in
/// which they are written out, up to 100 faults in all.
pub fn told_faults<A: Allocator + Copy>(
    scene: &Scene<'_, A>,
    first: AsmFault,
) -> Result<Vec<AsmFault, A>, AllocError>
    ensures { IfOk result (λ faults. faults.items ≡ faults_known scene.now.settings.now first scene.now.expanded) }
{
    let mut faults = Vec::new(scene.alloc);
    faults.push(first)?;
    if let Some(expanded) = &scene.expanded {
        add_faults(expanded, scene.settings, &mut faults)?;
    }
    Ok(faults)
}

/// Adds the faults of these lines.
fn add_faults<A: Allocator + Copy>(
    expanded: &Expanded<'_, A>,
    settings: &Settings,
    faults: &mut Vec<AsmFault, A>,
) -> Result<(), AllocError>
    ensures { OnOk result (faults.new.items
        ≡ faults_from settings.now expanded.now.labels faults.old.items expanded.now.lines) }
{
    let mut rest = expanded.entries();
    while let [entry, behind @ ..] = rest {
        add_fault(expanded, settings, entry, faults)?;
        rest = behind;
    }
    Ok(())
}

/// Adds the fault of a line, if it has one, unless one of its line in the source is told or no more are.
fn add_fault<A: Allocator + Copy>(
    expanded: &Expanded<'_, A>,
    settings: &Settings,
    entry: &Entry<'_, A>,
    faults: &mut Vec<AsmFault, A>,
) -> Result<(), AllocError>
    ensures { OnOk result (faults.new.items
        ≡ with_fault faults.old.items entry.now.source_line (fault_of settings.now expanded.now.labels entry.now)) }
{
    let line = entry.line.source_line;
    if faults.len() >= FAULT_LIMIT || is_told(faults.as_slice(), line) {
        return Ok(());
    }
    if let Some(kind) = fault_of(expanded, settings, entry) {
        faults.push(AsmFault { line, kind })?;
    }
    Ok(())
}

/// Whether a fault of this line is among the faults.
fn is_told(faults: &[AsmFault], line: u32) -> bool
    ensures { result ≡ is_told faults.now line }
{
    let mut rest = faults;
    while let [fault, behind @ ..] = rest {
        if fault.line == line {
            return true;
        }
        rest = behind;
    }
    false
}

/// A line of the expanded source with a fault.
#[derive(Clone, Copy)]
pub struct Faulty<'e, 's> {
    pub line: Line,
    /// As they stand in `Expanded`.
    pub tokens: &'e [Token<'s>],
    /// How often the line of the source has been written out, this time included.
    pub times: u32,
}

/// The first line of the expanded source that has this fault.
pub fn faulty_line<'e, 's, A: Allocator + Copy>(
    expanded: &'e Expanded<'s, A>,
    settings: &Settings,
    fault: AsmFault,
) -> Option<Faulty<'e, 's>> {
    let mut times: u32 = 0;
    for entry in expanded.entries() {
        if entry.line.source_line != fault.line {
            continue;
        }
        times = times.saturating_add(1);
        if fault_of(expanded, settings, entry) == Some(fault.kind) {
            return Some(Faulty {
                line: entry.line,
                tokens: entry.tokens.as_slice(),
                times,
            });
        }
    }
    None
}
