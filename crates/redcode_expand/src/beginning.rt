//! How a block begins.

ghost use Rattle.std.specs.Prelude.{◌≡◌, ◌+◌, ◌<◌, ◌≤◌, ◌^◌, Some, drop, length, IfOk, OnOk};
ghost use Rattle.{redcode_text.specs.{Tokens.pieces, declared.vocabulary.Word.TheVariants.For}, redcode_lines.specs.Views.line_read};
ghost use Rattle.{redcode_names.specs.{Gives.Gives, Steps.replacing_steps}, redcode_expand.specs.{Taken.count_steps, Rest.counters_of, Walk.{begun, begun_as, begun_of}, Kept.{AreKept, counter_before}, Marks.line_in}};

use crate::count::copies_of;
use crate::counts::Counts;
use crate::marked_lines::MarkedLines;
use crate::open_blocks::OpenBlocks;
use crate::walk::Walk;
use redcode_copies::reading_of;
use redcode_lines::{Reading, behind_first, is_name};
use redcode_text::Token;
use std::alloc::Allocator;
use war_types::{AsmFault, Settings};

/// How a block begins.
#[derive(Clone, Copy)]
pub(crate) struct Begun<'s> {
    /// The counter's name, empty if there is none.
    pub counter: &'s [u8],
    pub copies: u64,
}

impl<'s, A: Allocator + Copy> Walk<'s, A> {
    /// Walks over the `FOR` of a block: its labels and its count.
    fn begin(
        &mut self,
        settings: &Settings,
        blocks: &OpenBlocks<'s, A>,
        line: Reading<'_, 's>,
        work: &mut u64,
    ) -> Result<Begun<'s>, AsmFault>
        ensures begun { Gives (λ b. begun_as self.new b.counter.now b.copies) result (begun settings.now (counters_of blocks.now) (line_read line.entry) self.old) }
        ensures goes_on { OnOk result (self.new.ended ≡ self.old.ended) }
        ensures counted { OnOk result (self.new.counted ≡ self.old.counted) }
        ensures few { IfOk result (λ b. b.copies < 2 ^ 63) }
        ensures work { work.new ≤ work.old + count_steps (counters_of blocks.now) (line_read line.entry) self.old }
    {
        let copy = blocks.copy_of(line)?;
        self.begin_as(settings, reading_of(line, &copy), work)
    }

    /// Walks over the `FOR` of a block as it reads.
    fn begin_as(
        &mut self,
        settings: &Settings,
        line: Reading<'_, 's>,
        work: &mut u64,
    ) -> Result<Begun<'s>, AsmFault>
        ensures begun { Gives (λ b. begun_as self.new b.counter.now b.copies) result (begun_of settings.now (line_read line.entry) self.old) }
        ensures goes_on { OnOk result (self.new.ended ≡ self.old.ended) }
        ensures counted { OnOk result (self.new.counted ≡ self.old.counted) }
        ensures few { IfOk result (λ b. b.copies < 2 ^ 63) }
        ensures work { work.new ≤ work.old + replacing_steps self.old.names.equs (drop 1 (line_read line.entry).tokens) }
    {
        let number = line.number;
        let before = self.before;
        let counter = self
            .names
            .define_earlier(settings, number, before, line.labels())?;
        let count = behind_first(line.tokens);
        match copies_of(
            self.alloc,
            settings,
            number,
            before,
            &self.names.equs,
            count,
            work,
        ) {
            Ok(copies) => Ok(Begun { counter, copies }),
            Err(fault) => Err(fault),
        }
    }
}

/// How a block begins. If it has no label its count may be one that is kept, and is kept from then on. `work` rises by the steps of a
/// count that is worked out.
pub(crate) fn begun_at<'s, A: Allocator + Copy>(
    settings: &Settings,
    walk: &mut Walk<'s, A>,
    blocks: &OpenBlocks<'s, A>,
    counts: &mut Counts<A>,
    lines: &MarkedLines<'_, 's, A>,
    at: usize,
    work: &mut u64,
) -> Result<Begun<'s>, AsmFault>
    requires some { at < length lines.now }
    requires word { (line_in lines.now at).word ≡ Some For }
    requires kept { AreKept settings.now lines.now (counters_of blocks.now) walk.old counts.old }
    ensures begun { Gives (λ b. begun_as walk.new b.counter.now b.copies) result (begun settings.now (counters_of blocks.now) (line_in lines.now at) walk.old) }
    ensures goes_on { OnOk result (walk.new.ended ≡ walk.old.ended) }
    ensures counted { OnOk result (walk.new.counted ≡ walk.old.counted) }
    ensures few { IfOk result (λ b. b.copies < 2 ^ 63) }
    ensures work { work.new ≤ work.old + count_steps (counters_of blocks.now) (line_in lines.now at) walk.old }
    ensures kept { OnOk result (AreKept settings.now lines.now (counters_of blocks.now) walk.new counts.new) }
{
    let line = lines.reading(at);
    if line.front.len() > 1 {
        let begun = walk.begin(settings, blocks, line, work)?;
        return Ok(begun);
    }
    let count = lines.mark(at).count;
    if let Some(copies) = counts.at(count) {
        return Ok(begun_with(line.front, copies));
    }
    let begun = walk.begin(settings, blocks, line, work)?;
    counts.learn(count, begun.copies);
    Ok(begun)
}

/// A block with this number of copies, whose counter is the name before its `FOR`.
fn begun_with<'s>(front: &[Token<'s>], copies: u64) -> Begun<'s>
    requires { length front.now ≤ 1 }
    ensures counter { result.counter.now ≡ counter_before (pieces front.now) }
    ensures copies { result.copies ≡ copies }
{
    let counter: &[u8] = match front {
        [name, ..] if is_name(name) => name.text,
        _ => b"",
    };
    Begun { counter, copies }
}
