//! The lines of a source written out, copy by copy.

ghost use Rattle.std.specs.Prelude.{◌≡◌, ◌≢◌, ◌+◌, ◌<◌, ◌≤◌, [], true, false, Some, drop, length, IfOk, OnOk};
ghost use Rattle.{redcode_text.specs.declared.vocabulary.Word.TheVariants.{For, Rof}, redcode_lines.specs.Block.parsed};
ghost use Rattle.{redcode_names.specs.Gives.Gives, redcode_expand.specs.Rest.{counters_of, AreOpen, Continues}};
ghost use Rattle.redcode_expand.specs.{Walk.{walk_all, walk_begin, closed}, Kept.AreKept, Cut.{cut_walk, with_cut}, Marks.line_in, Budget.{most_lines, steps_of}, Steps.{is_plain_word, are_plain, reads, steps_at, visit_steps}, Taken.walked_steps, Left.rest_steps};

use crate::beginning::begun_at;
use crate::counts::Counts;
use crate::marked_lines::{Edge, MarkedLines};
use crate::open_block::OpenBlock;
use crate::open_blocks::OpenBlocks;
use crate::steps::Steps;
use crate::walk::Walk;
use bumpalo::Bump;
use redcode_lines::SourceLine;
use redcode_names::NameHash;
use std::alloc::Allocator;
use war_types::{AsmFault, AsmKind, Settings};

/// Walks over the lines of a source written out.
pub(crate) fn walk_all<'s, A: Allocator + Copy>(
    alloc: A,
    region: &'s Bump<A>,
    lines: &[SourceLine<'s, A>],
    settings: &Settings,
    hash: NameHash,
    most: u64,
    steps: &mut Steps,
) -> Result<Walk<'s, A>, AsmFault>
    requires few { length lines.now ≤ 65536 }
    requires some { 0 < most }
    ensures steps { steps.old ≤ steps.new + steps_of most most_lines }
    ensures plain { are_plain lines.now ≡ true → steps.old ≤ steps.new + reads lines.now }
    ensures taken { steps.old ≤ steps.new + walked_steps settings.now (parsed lines.now) }
    ensures each { IfOk result (λ walk. walk.counted + steps.new ≤ steps.old) }
    ensures walk { Gives cut_walk result (with_cut (walk_all settings.now (parsed lines.now) walk_begin)) }
{
    let mut counts = Counts::new(alloc, lines.len())?;
    let lines = MarkedLines::new(alloc, lines)?;
    let mut blocks = OpenBlocks::new(alloc, region, hash);
    let mut walk = Walk::new(alloc, hash);
    match walk_lines(
        settings,
        &mut walk,
        &mut blocks,
        &mut counts,
        &lines,
        most,
        steps,
    ) {
        Ok(()) => Ok(walk),
        Err(fault) => Err(fault),
    }
}

/// Walks over all lines, with no count kept and no block begun.
fn walk_lines<'s, A: Allocator + Copy>(
    settings: &Settings,
    walk: &mut Walk<'s, A>,
    blocks: &mut OpenBlocks<'s, A>,
    counts: &mut Counts<A>,
    lines: &MarkedLines<'_, 's, A>,
    most: u64,
    steps: &mut Steps,
) -> Result<(), AsmFault>
    requires few { length lines.now ≤ 65536 }
    requires some { 0 < most }
    requires begin { walk.old ≡ walk_begin }
    requires none { blocks.old ≡ [] }
    requires kept { AreKept settings.now lines.now [] walk_begin counts.old }
    ensures steps { steps.old ≤ steps.new + steps_of most most_lines }
    ensures plain { are_plain lines.now ≡ true → steps.old ≤ steps.new + reads lines.now }
    ensures taken { steps.old ≤ steps.new + walked_steps settings.now (parsed lines.now) }
    ensures each { OnOk result (walk.new.counted + steps.new ≤ steps.old) }
    ensures walk { Gives (λ _. cut_walk walk.new) result (with_cut (walk_all settings.now (parsed lines.now) walk_begin)) }
{
    let mut at = 0;
    while at < lines.len() && !walk.ended {
        let floor = steps.floor(most);
        steps.spend(lines.steps(at, blocks.count()), floor)?;
        let mut work = 0;
        at = step(settings, walk, blocks, counts, lines, at, &mut work)?;
        steps.spend(work, floor)?;
    }
    Ok(())
}

/// Walks over the line at index `at`, within blocks. The answer is the index of the line to walk over next: the line after it, or the
/// first of a further copy. `work` rises by the steps that hang on more than the line: those of a count that
/// is worked out, and of a counter's name.
fn step<'s, A: Allocator + Copy>(
    settings: &Settings,
    walk: &mut Walk<'s, A>,
    blocks: &mut OpenBlocks<'s, A>,
    counts: &mut Counts<A>,
    lines: &MarkedLines<'_, 's, A>,
    at: usize,
    work: &mut u64,
) -> Result<usize, AsmFault>
    requires few { length lines.now ≤ 65536 }
    requires some { at < length lines.now }
    requires goes_on { walk.old.ended ≡ false }
    requires opened { AreOpen lines.now blocks.old (parsed (drop at lines.now)).1 }
    requires kept { AreKept settings.now lines.now (counters_of blocks.old) walk.old counts.old }
    ensures goes_on { Continues settings.now lines.now blocks.old at walk.old blocks.new walk.new result }
    ensures kept { OnOk result (AreKept settings.now lines.now (counters_of blocks.new) walk.new counts.new) }
    ensures counted { OnOk result (walk.new.counted ≤ walk.old.counted + 1) }
    ensures taken { IfOk result (λ next. steps_at (visit_steps (length blocks.old)) lines.now at + work.new + rest_steps settings.now lines.now blocks.new (parsed (drop next lines.now)) walk.new ≤ work.old + rest_steps settings.now lines.now blocks.old (parsed (drop at lines.now)) walk.old) }
    ensures plain { is_plain_word (line_in lines.now at).word ≡ true → blocks.old ≡ [] → IfOk result (λ next. (blocks.new ≡ []) × (next ≡ at + 1) × (work.new ≡ work.old)) }
{
    match lines.mark(at).edge {
        Edge::For => begin(settings, walk, blocks, counts, lines, at, work),
        Edge::Rof => {
            Counts::rise(counts)?;
            end_copy(settings, walk, blocks, lines, at, work)
        }
        Edge::Neither => {
            counts.rise()?;
            walk.step(settings, blocks, lines.shortened(at))?;
            Ok(at + 1)
        }
    }
}

/// Walks over the `FOR` of a block: on to its first copy, or past the block if it has none.
fn begin<'s, A: Allocator + Copy>(
    settings: &Settings,
    walk: &mut Walk<'s, A>,
    blocks: &mut OpenBlocks<'s, A>,
    counts: &mut Counts<A>,
    lines: &MarkedLines<'_, 's, A>,
    at: usize,
    work: &mut u64,
) -> Result<usize, AsmFault>
    requires few { length lines.now ≤ 65536 }
    requires some { at < length lines.now }
    requires goes_on { walk.old.ended ≡ false }
    requires opened { AreOpen lines.now blocks.old (parsed (drop at lines.now)).1 }
    requires word { (line_in lines.now at).word ≡ Some For }
    requires kept { AreKept settings.now lines.now (counters_of blocks.old) walk.old counts.old }
    ensures goes_on { Continues settings.now lines.now blocks.old at walk.old blocks.new walk.new result }
    ensures kept { OnOk result (AreKept settings.now lines.now (counters_of blocks.new) walk.new counts.new) }
    ensures counted { OnOk result (walk.new.counted ≤ walk.old.counted + 1) }
    ensures taken { IfOk result (λ next. steps_at (visit_steps (length blocks.old)) lines.now at + work.new + rest_steps settings.now lines.now blocks.new (parsed (drop next lines.now)) walk.new ≤ work.old + rest_steps settings.now lines.now blocks.old (parsed (drop at lines.now)) walk.old) }
{
    let rof = lines.mark(at).rof;
    if rof >= lines.len() {
        return Err(AsmFault {
            line: lines.number(at),
            kind: AsmKind::UnmatchedFor,
        });
    }
    let begun = begun_at(settings, walk, blocks, counts, lines, at, work)?;
    if begun.copies == 0 {
        close(settings, walk, blocks, lines, rof)?;
        return Ok(rof + 1);
    }
    counts.rise()?;
    let start = walk.counted();
    let left = begun.copies - 1;
    let body = at + 1;
    let number = lines.number(at);
    blocks.push(OpenBlock::new(number, begun.counter, left, start, body))?;
    Ok(body)
}

/// Walks over the `ROF` of the innermost block: on to its next copy, or past the block if there is none. `work` rises by the steps of the
/// counter's name, which is looked up again for the next copy.
fn end_copy<'s, A: Allocator + Copy>(
    settings: &Settings,
    walk: &mut Walk<'s, A>,
    blocks: &mut OpenBlocks<'s, A>,
    lines: &MarkedLines<'_, 's, A>,
    at: usize,
    work: &mut u64,
) -> Result<usize, AsmFault>
    requires few { length lines.now ≤ 65536 }
    requires some { at < length lines.now }
    requires goes_on { walk.old.ended ≡ false }
    requires opened { AreOpen lines.now blocks.old (parsed (drop at lines.now)).1 }
    requires word { (line_in lines.now at).word ≡ Some Rof }
    ensures open { OnOk result (blocks.old ≢ []) }
    ensures goes_on { Continues settings.now lines.now blocks.old at walk.old blocks.new walk.new result }
    ensures counted { OnOk result (walk.new.counted ≤ walk.old.counted + 1) }
    ensures taken { IfOk result (λ next. steps_at (visit_steps (length blocks.old)) lines.now at + work.new + rest_steps settings.now lines.now blocks.new (parsed (drop next lines.now)) walk.new ≤ work.old + rest_steps settings.now lines.now blocks.old (parsed (drop at lines.now)) walk.old) }
{
    let Some(block) = blocks.pop() else {
        return Err(AsmFault {
            line: lines.number(at),
            kind: AsmKind::UnmatchedRof,
        });
    };
    walk.end_copy(block.number, block.start)?;
    if block.left == 0 {
        close(settings, walk, blocks, lines, at)?;
        return Ok(at + 1);
    }
    let body = block.body;
    *work = work.saturating_add((block.name().len() / 32) as u64);
    blocks.push(block.next_copy(walk.counted()))?;
    Ok(body)
}

/// Walks over the `ROF` of a block.
fn close<'s, A: Allocator + Copy>(
    settings: &Settings,
    walk: &mut Walk<'s, A>,
    blocks: &OpenBlocks<'s, A>,
    lines: &MarkedLines<'_, 's, A>,
    at: usize,
) -> Result<(), AsmFault>
    requires some { at < length lines.now }
    requires word { (line_in lines.now at).word ≡ Some Rof }
    ensures closed { Gives (λ _. walk.new) result (closed settings.now (counters_of blocks.now) (line_in lines.now at) walk.old) }
    ensures before { walk.new.before ≡ walk.old.before }
    ensures counted { walk.new.counted ≡ walk.old.counted }
{
    if lines.mark(at).is_bare {
        return Ok(());
    }
    walk.close(settings, blocks, lines.reading(at))
}
