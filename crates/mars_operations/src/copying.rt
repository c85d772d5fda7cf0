//! What a MOV writes, by the pairs of its modifier.

ghost use Rattle.std.specs.Prelude.{◌≡◌, ◌<◌, slice_set};
ghost use Rattle.{war_types.specs.Warrior.HasNumbersBelow, mars_words.specs.Pairs.pairs, mars_operations.specs.{Cells.{IsCore, cell}, Effect.{copied, moved}}};

use crate::cells::Core;
use mars_words::{Paired, Size, Word, pairs};
use std::alloc::Allocator;
use war_types::Modifier;

/// Copies the A register to the cell at an address: under `.I` whole, else its fields by the pairs.
#[inline(always)]
pub(crate) fn copy_to<A: Allocator>(
    core: &mut Core<A>,
    size: Size,
    modifier: Modifier,
    a: Word,
    at: u32,
)
    requires core { IsCore size core.old }
    requires a { HasNumbersBelow size a.instr }
    requires address { at < size }
    ensures value { core.new ≡ slice_set core.old at (copied modifier a.instr (cell core.old at)) }
    ensures core { IsCore size core.new }
{
    match modifier {
        Modifier::I => core.put(size, at, a),
        _ => move_to(core, size, modifier, a, at),
    }
}

#[inline(always)]
fn move_to<A: Allocator>(core: &mut Core<A>, size: Size, modifier: Modifier, a: Word, at: u32)
    requires core { IsCore size core.old }
    requires a { HasNumbersBelow size a.instr }
    requires address { at < size }
    ensures value { core.new ≡ slice_set core.old at (moved (pairs modifier) a.instr (cell core.old at)) }
    ensures core { IsCore size core.new }
{
    match pairs(modifier) {
        Paired::One(p) => core.put_number(size, at, p.target, a.number(p.source)),
        Paired::Two(p, q) => {
            let half = core
                .cell(size, at)
                .with_number(p.target, a.number(p.source));
            core.put(size, at, half.with_number(q.target, a.number(q.source)));
        }
    }
}
