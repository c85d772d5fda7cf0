//! The execution of an instruction.

ghost use Rattle.std.specs.Prelude.{◌≡◌, ◌<◌, ◌≤◌, All};
ghost use Rattle.mars_core.specs.{Cells.IsCore, Round.executed, Effect.queues, Code.addresses};

use crate::limits::Limits;
use mars_operations::Core;
use mars_operations::effect::{Queued, effect};
use mars_words::Size;
use std::alloc::Allocator;

/// Executes the instruction at `pc` in a core of `size` cells, under `limits`. A is evaluated wholly before B.
#[inline(always)]
pub(crate) fn execute<L: Limits, A: Allocator>(
    core: &mut Core<A>,
    size: Size,
    limits: L,
    pc: u32,
) -> Queued
    requires wide { 2 ≤ size }
    requires size { (L.reach limits).size ≡ size }
    requires core { IsCore size core.old }
    requires pc { pc < size }
    ensures value { executed (L.reach limits) core.old pc ≡ queues core.new (addresses result) }
    ensures core { IsCore size core.new }
    ensures addresses { All (λ a. a < size) (addresses result) }
{
    let i = core.cell(size, pc);
    let (a, b) = limits.operands(core, size, pc, i);
    effect(core, size, pc, i.op(), i.modifier(), a, b)
}
