//! The lines of a source written out, with the names of `EQU`s in their operands replaced.

ghost use Rattle.std.specs.Prelude.{◌≡◌, ◌<◌, ◌≤◌, ◌+◌, ◌^◌, [], true, length, IfOk, Err};
ghost use Rattle.{war_types.specs.declared.fault.AsmKind.TheVariants.SourceTooLong, redcode_lines.specs.{Block.parsed, Operand.operands_of}, redcode_names.specs.{Gives.{Gives, fault_at}, Steps.rounds_steps}};
ghost use Rattle.redcode_expand.specs.{Laws.{AreCounted, BlocksAreWrittenOut, LabelsStandBehindInstructions}, Expansion.{expansion, address_of, all_replaced, line_replaced, expansion_of_blocks}, Cut.{shown, with_shown}, Budget.{most_lines, most_steps, steps_of}, Steps.{are_plain, is_plain, reads}, Taken.{blocks_steps, line_steps, lines_steps, steps_taken}};

use crate::blocks::walk_all;
use crate::entry::{Entry, joined};
use crate::steps::{Steps, line_steps};
use bumpalo::Bump;
use redcode_lines::{SourceLine, live_source, operands_of, source_lines};
use redcode_names::{Labels, NameHash, Names, TOKEN_LIMIT, too_many, written};
use std::alloc::Allocator;
use std::marker::Model;
use war_types::{AsmFault, AsmKind, Settings};

/// The most bytes that a source may have.
pub const SOURCE_LIMIT: usize = 65_536;

/// The lines of a source written out, and its labels.
#[derive(Drop)]
pub struct Expanded<'s, A: Allocator + Copy> {
    pub(crate) entries: Vec<Entry<'s, A>, A>,
    pub(crate) labels: Labels<'s, A>,
}

impl<'s, A: Allocator + Copy> Model for Expanded<'s, A> {
    ghost use Rattle.redcode_expand.specs.Expansion.{Expansion};

    ghost Value = { Expansion };

    ghost view = { λ e. record { lines = e.entries.items; labels = e.labels } };
}

/// Writes out the lines of a source: of a block from `FOR` to `ROF` its body, as often as the count says, one copy after another.
///
/// A source of more than 65,536 bytes is refused as `SourceTooLong` on line 0. Then the first line is refused, of those written out up
/// to the first `END`, that has one of these faults. `UnmatchedFor`, `UnmatchedRof`: a `FOR` or a `ROF` without the other. `ForLimit`: a
/// line past the 4,096 that count, or, once these are reached, the `FOR` of a copy in which nothing counts. `DuplicateName`: a name
/// defined a second time, or a predefined one. `BadEqu`: an `EQU` without a name or a body, or with a reserved word in its body.
/// `EquLimit`: a count of more than 512 tokens before or after one of 16 rounds of replacement, or with the name of an `EQU` after the
/// last round. `ForCount`: a count that has no value. Then the first line is refused as `EquLimit` whose operands break these limits.
/// `Memory` is answered only if an allocation failed.
///
/// Of the tokens of a line that is none of the language no more are kept than its `Entry` says, so the clause compares what is `shown` of
/// the lines: those tokens, and of any other line all of it. The numbers of copies, and the names that are joined to them, lie in the
/// region.
pub fn expand<'s, A: Allocator + Copy>(
    alloc: A,
    region: &'s Bump<A>,
    source: &'s [u8],
    settings: &Settings,
) -> Result<Expanded<'s, A>, AsmFault>
    ensures gives { Gives shown result (with_shown (expansion settings.now source.entry.now)) }
    ensures too_long { 65536 < length source.entry.now → result ≡ Err (fault_at 0 SourceTooLong) }
    ensures written { BlocksAreWrittenOut settings.now }
    ensures labels { LabelsStandBehindInstructions settings.now }
    ensures counted { IfOk result AreCounted }
{
    let mut steps = Steps::new(u64::MAX);
    expand_within(alloc, region, source, settings, &mut steps)
}

/// The same within a budget of steps: `Memory` is answered too if they are spent. Each line that is written out takes one at least, and
/// the whole source no more than `steps_taken` counts.
#[tactic(auto, unfolding(crate::specs::Expansion::expansion))]
pub fn expand_within<'s, A: Allocator + Copy>(
    alloc: A,
    region: &'s Bump<A>,
    source: &'s [u8],
    settings: &Settings,
    steps: &mut Steps,
) -> Result<Expanded<'s, A>, AsmFault>
    ensures gives { Gives shown result (with_shown (expansion settings.now source.entry.now)) }
    ensures too_long { 65536 < length source.entry.now → result ≡ Err (fault_at 0 SourceTooLong) }
    ensures written { BlocksAreWrittenOut settings.now }
    ensures labels { LabelsStandBehindInstructions settings.now }
    ensures counted { IfOk result AreCounted }
    ensures steps { steps.old ≤ steps.new + most_steps (length source.entry.now) }
    ensures plain { is_plain source.entry.now ≡ true → steps.old ≤ steps.new + (length source.entry.now + 1) }
    ensures taken { steps.old ≤ steps.new + steps_taken settings.now source.entry.now }
    ensures each { IfOk result (λ expanded. length expanded.lines + steps.new ≤ steps.old) }
{
    if source.len() > SOURCE_LIMIT {
        return Err(AsmFault {
            line: 0,
            kind: AsmKind::SourceTooLong,
        });
    }
    let (number, live) = live_source(source);
    let lines = source_lines(alloc, number, live)?;
    let hash = NameHash::of(source, settings);
    let most = line_steps(source.len());
    expanded_lines(alloc, region, lines.as_slice(), settings, hash, most, steps)
}

/// Writes out these lines.
fn expanded_lines<'s, A: Allocator + Copy>(
    alloc: A,
    region: &'s Bump<A>,
    lines: &[SourceLine<'s, A>],
    settings: &Settings,
    hash: NameHash,
    most: u64,
    steps: &mut Steps,
) -> Result<Expanded<'s, A>, AsmFault>
    requires few { length lines.now ≤ 65536 }
    requires some { 0 < most }
    ensures steps { steps.old ≤ steps.new + (steps_of most most_lines + 2 ^ 32) }
    ensures plain { are_plain lines.now ≡ true → steps.old ≤ steps.new + reads lines.now }
    ensures taken { steps.old ≤ steps.new + blocks_steps settings.now (parsed lines.now) }
    ensures each { IfOk result (λ expanded. length expanded.lines + steps.new ≤ steps.old) }
    ensures expanded { Gives shown result (with_shown (expansion_of_blocks settings.now (parsed lines.now))) }
{
    match walk_all(alloc, region, lines, settings, hash, most, steps) {
        Ok(walk) => walk.finish(steps),
        Err(fault) => Err(fault),
    }
}

impl<'s, A: Allocator + Copy> Expanded<'s, A> {
    /// The lines, up to and with the first `END`. Blank lines, comments, lines of labels alone and `EQU`, `FOR` and `ROF` lines are left
    /// out.
    pub fn entries(&self) -> &[Entry<'s, A>]
        ensures { result.now ≡ self.now.lines }
    {
        self.entries.as_slice()
    }

    /// The address of a label: the number of instructions before it.
    pub fn label(&self, name: &[u8]) -> Option<u32>
        ensures { result ≡ address_of self.now.labels name.now }
    {
        self.labels.address_of(name)
    }
}

/// The most steps that are counted while the names of `EQU`s are replaced in all operands.
const REPLACING: u64 = 1 << 32;

/// Replaces the names of EQUs in the operands of all lines. Those in which none is were paid for by the visits to their lines.
pub(crate) fn replace_each<'s, A: Allocator + Copy>(
    alloc: A,
    names: &Names<'s, A>,
    entries: Vec<Entry<'s, A>, A>,
    steps: &mut Steps,
) -> Result<Vec<Entry<'s, A>, A>, AsmFault>
    ensures steps { steps.old ≤ steps.new + 2 ^ 32 }
    ensures less { steps.new ≤ steps.old }
    ensures plain { names.now.equs ≡ [] → steps.new ≡ steps.old }
    ensures taken { steps.old ≤ steps.new + lines_steps names.now.equs entries.entry.items }
    ensures lines { Gives (λ lines. lines.items) result (all_replaced names.now.equs entries.entry.items) }
{
    let floor = steps.floor(REPLACING);
    let mut lines = Vec::with_capacity(alloc, entries.len())?;
    for entry in entries {
        let mut work = 0;
        let line = replace_in(alloc, names, entry, &mut work)?;
        lines.push(line)?;
        steps.spend(work, floor)?;
    }
    Ok(lines)
}

/// Replaces the names of EQUs in the operands of a line. One without such a name keeps its tokens as they are.
fn replace_in<'s, A: Allocator + Copy>(
    alloc: A,
    names: &Names<'s, A>,
    entry: Entry<'s, A>,
    work: &mut u64,
) -> Result<Entry<'s, A>, AsmFault>
    ensures line { Gives (λ line. line) result (line_replaced names.now.equs entry.entry) }
    ensures plain { names.now.equs ≡ [] → work.new ≡ work.old }
    ensures work { work.new ≤ work.old + line_steps names.now.equs entry.entry }
{
    let line = entry.line;
    let tokens = entry.tokens.as_slice();
    let operands = operands_of(line.kind, tokens);
    if operands.len() > TOKEN_LIMIT {
        return Err(too_many(line.source_line));
    }
    if names.has_no_equs() || !names.equs.are_among(operands) {
        return Ok(entry);
    }
    written_in(alloc, names, entry, work)
}

/// The line with its operands written anew.
fn written_in<'s, A: Allocator + Copy>(
    alloc: A,
    names: &Names<'s, A>,
    entry: Entry<'s, A>,
    work: &mut u64,
) -> Result<Entry<'s, A>, AsmFault>
    ensures line { Gives (λ line. line) result (line_replaced names.now.equs entry.entry) }
    ensures work { work.new ≤ work.old + rounds_steps 16 names.now.equs (operands_of entry.entry.kind entry.entry.tokens) }
{
    let line = entry.line;
    let tokens = entry.tokens.as_slice();
    let operands = operands_of(line.kind, tokens);
    let before = &tokens[..tokens.len() - operands.len()];
    let operands = written(alloc, &names.equs, line.source_line, operands, work)?;
    let tokens = joined(alloc, before, operands.as_slice())?;
    Ok(Entry {
        line,
        word: entry.word,
        title: entry.title,
        tokens,
    })
}
