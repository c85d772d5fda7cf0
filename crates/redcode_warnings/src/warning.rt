//! The warnings of a source.

ghost use Rattle.std.specs.Prelude.{◌≡◌, ◌∷◌, [], ◌++◌, All, IfOk, OnOk, map, take};
ghost use Rattle.redcode_lines.specs.Place.{IsPlaceIn, line_text};
ghost use Rattle.redcode_warnings.specs.{Views.notes, Warnings.{noted, warnings_of}};

use crate::finding::{Finding, findings};
use crate::kind::WarningKind;
use crate::sentence::sentence_of;
use redcode_lines::{line_text, live_source, place_in, source_lines, whole};
use std::alloc::{AllocError, Allocator};

/// Bytes of the longest source that is read.
const SOURCE_LIMIT: usize = 65_536;

/// Warnings that are reported at most.
const WARNING_LIMIT: usize = 100;

/// One warning, as it is reported to people.
#[derive(Drop)]
pub struct Warning<A: Allocator> {
    pub kind: WarningKind,
    /// The line of the source, counted from 1, or 0 if none is to blame.
    pub line: u32,
    /// The column of the first byte to blame in the text of that line, counted from 1.
    pub column: u32,
    /// Bytes to blame: at least 1, or 0 in an empty text.
    pub width: u32,
    /// What is probably wrong.
    pub sentence: Vec<u8, A>,
}

/// All warnings of a source: first those of the source as a whole, then those of its lines in their order. Lines before
/// a `;redcode`, after an `END` and in a block whose count is 0 are not read, but for an instruction after that `END`.
/// The first 100 are told. A source of more than 65,536 bytes has none. It fails when memory runs out.
pub fn warnings<A: Allocator + Copy>(
    alloc: A,
    source: &[u8],
) -> Result<Vec<Warning<A>, A>, AllocError>
    ensures told { IfOk result (λ all. map (λ w. noted w.kind w.line) all.items ≡ warnings_of source.now) }
    ensures placed { IfOk result (λ all.
        All (λ w. IsPlaceIn (line_text source.now w.line) w.column w.width) all.items) }
{
    if source.len() > SOURCE_LIMIT {
        return Ok(Vec::new(alloc));
    }
    let (first, live) = live_source(source);
    let lines = source_lines(alloc, first, live)?;
    let found = findings(alloc, lines.as_slice())?;
    told_all(alloc, source, first_of(found.as_slice()))
}

/// The findings that are reported.
fn first_of<'f, 's>(found: &'f [Finding<'s>]) -> &'f [Finding<'s>]
    ensures { notes result.now ≡ take 100 (notes found.entry.now) }
{
    if found.len() <= WARNING_LIMIT {
        found
    } else {
        &found[..WARNING_LIMIT]
    }
}

/// These findings, as they are reported to people.
fn told_all<A: Allocator + Copy>(
    alloc: A,
    source: &[u8],
    found: &[Finding<'_>],
) -> Result<Vec<Warning<A>, A>, AllocError>
    ensures told { IfOk result (λ all. map (λ w. noted w.kind w.line) all.items ≡ notes found.now) }
    ensures placed { IfOk result (λ all.
        All (λ w. IsPlaceIn (line_text source.now w.line) w.column w.width) all.items) }
{
    let mut all = Vec::new(alloc);
    let mut rest = found;
    while let [finding, behind @ ..] = rest {
        tell(alloc, source, finding, &mut all)?;
        rest = behind;
    }
    Ok(all)
}

/// Adds a finding, as it is reported to people.
fn tell<A: Allocator + Copy>(
    alloc: A,
    source: &[u8],
    finding: &Finding<'_>,
    all: &mut Vec<Warning<A>, A>,
) -> Result<(), AllocError>
    ensures told { OnOk result (map (λ w. noted w.kind w.line) all.new.items
        ≡ map (λ w. noted w.kind w.line) all.old.items ++ notes (finding.now ∷ [])) }
    ensures placed { OnOk result (All (λ w. IsPlaceIn (line_text source.now w.line) w.column w.width) all.old.items
        → All (λ w. IsPlaceIn (line_text source.now w.line) w.column w.width) all.new.items) }
{
    let text = line_text(source, finding.line);
    let (column, width) = place_in(text, finding.span.unwrap_or(whole(text)));
    all.push(Warning {
        kind: finding.kind,
        line: finding.line,
        column,
        width,
        sentence: sentence_of(alloc, source, finding)?,
    })?;
    Ok(())
}
