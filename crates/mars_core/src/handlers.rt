//! The code of a kind of instructions, and that of all kinds without one.

ghost use Rattle.std.specs.Prelude.{◌≡◌, ◌/◌, ◌%◌, ◌<◌, ◌≤◌, All, slice_index_or};
ghost use Rattle.{war_types.specs.Warrior.HasNumbersBelow, mars_core.specs.{Cells.IsCore, Operand.evaluated, Effect.{effect, queues}, Whole.operand}};
ghost use Rattle.{mars_words.specs.Kinds.kinds, mars_words.specs.Words.{handler_of, same_operation, operation_code, modes_code, op_at, modifier_at, mode_at}, mars_core.specs.{Code.{addresses, operand_of, evaluated_both, whole_operands}, Passes.{IsAt, IsExecuted, parts_of, modes_of}}};

use crate::handled::handled;
use crate::modes::by_modes;
use crate::operations::by_operation;
use mars_operations::effect::{Queued, effect};
use mars_operations::{Core, Operand, evaluate};
use mars_words::{Field, Size, Word, mode_at, modifier_at, op_at};
use std::alloc::Allocator;

/// Executes the instruction at `pc` without limits, in a core of `size` cells, by the handler of its kind. SIDE is for
/// the compiler alone: each side then has a place of its own in the program, and each handler is called from one place
/// and written out there. So is the test for 0: by it the compiler takes the general way for one that is often gone,
/// and writes out its arms too. It makes one jump of both.
#[inline(always)]
pub(crate) fn dispatched<const SIDE: u64, A: Allocator>(
    core: &mut Core<A>,
    size: Size,
    pc: u32,
) -> Queued
    requires wide { 2 ≤ size }
    requires core { IsCore size core.old }
    requires pc { pc < size }
    ensures { IsExecuted size core.old core.new pc (addresses result) }
{
    let i = fetched(core, size, pc);
    if i.handler() == 0 {
        general::<SIDE, A>(core, size, pc, i)
    } else {
        handled::<SIDE, A>(core, size, pc, i)
    }
}

/// The instruction at `pc`.
#[inline(always)]
fn fetched<A: Allocator>(core: &Core<A>, size: Size, pc: u32) -> Word
    requires wide { 2 ≤ size }
    requires core { IsCore size core.now }
    requires pc { pc < size }
    ensures { IsAt size core.now pc result.instr }
{
    core.cell(size, pc)
}

/// Executes an instruction whose handler is HANDLER. OPERATION is its operation under a modifier that does the same.
pub(crate) fn arm<
    const SIDE: u64,
    const HANDLER: u64,
    const OPERATION: u64,
    const A_MODE: u64,
    const B_MODE: u64,
    A: Allocator,
>(core: &mut Core<A>, size: Size, pc: u32, i: Word) -> Queued
    requires at { IsAt size core.old pc i.instr }
    requires handler { HANDLER ≡ handler_of i.instr }
    requires some { 0 < HANDLER }
    requires kind { parts_of (slice_index_or kinds HANDLER 0) ≡ (OPERATION, A_MODE, B_MODE) }
    ensures { IsExecuted size core.old core.new pc (addresses result) }
{
    let a = operand_by::<A_MODE, A>(core, size, pc, i.number(Field::A));
    let b = operand_by::<B_MODE, A>(core, size, pc, i.number(Field::B));
    effect_by::<SIDE, HANDLER, OPERATION, A>(core, size, pc, a, b)
}

/// The operand of a mode that the compiler knows.
#[inline]
fn operand_by<const MODE: u64, A: Allocator>(
    core: &mut Core<A>,
    size: Size,
    pc: u32,
    number: u32,
) -> Operand
    requires core { IsCore size core.old }
    requires pc { pc < size }
    requires number { number < size }
    ensures value { operand size core.old pc (mode_at MODE) number ≡ evaluated (operand_of result) core.new }
    ensures core { IsCore size core.new }
    ensures pointer { result.pointer < size }
    ensures target { result.target < size }
    ensures register { HasNumbersBelow size result.register.instr }
{
    evaluate(core, size, pc, mode_at(MODE), number)
}

/// The effect of an operation and a modifier that the compiler knows. SIDE and PLACE, a number below 64 of a handler
/// and above of an arm without one, are for the compiler alone: so each is called from one place, and written out
/// there.
#[inline]
fn effect_by<const SIDE: u64, const PLACE: u64, const OPERATION: u64, A: Allocator>(
    core: &mut Core<A>,
    size: Size,
    pc: u32,
    a: Operand,
    b: Operand,
) -> Queued
    requires wide { 2 ≤ size }
    requires core { IsCore size core.old }
    requires pc { pc < size }
    requires a { a.pointer < size }
    requires a_numbers { HasNumbersBelow size a.register.instr }
    requires b { b.target < size }
    requires b_numbers { HasNumbersBelow size b.register.instr }
    ensures value { effect size pc (op_at (OPERATION / 8)) (modifier_at (OPERATION % 8)) (operand_of a)
        (operand_of b) core.old ≡ queues core.new (addresses result) }
    ensures core { IsCore size core.new }
    ensures addresses { All (λ a. a < size) (addresses result) }
{
    effect(
        core,
        size,
        pc,
        op_at(OPERATION >> 3),
        modifier_at(OPERATION % 8),
        a,
        b,
    )
}

/// Executes an instruction of a kind without a handler: both operands by one jump, then the operation by another.
#[inline(always)]
pub(crate) fn general<const SIDE: u64, A: Allocator>(
    core: &mut Core<A>,
    size: Size,
    pc: u32,
    i: Word,
) -> Queued
    requires at { IsAt size core.old pc i.instr }
    ensures { IsExecuted size core.old core.new pc (addresses result) }
{
    let (a, b) = by_modes::<SIDE, A>(core, size, pc, i);
    by_operation::<SIDE, A>(core, size, pc, i, a, b)
}

/// The same, for the arm of `handled` that the compiler leaves out. It is no part of the loop.
#[cold]
#[inline(never)]
pub(crate) fn general_apart<A: Allocator>(
    core: &mut Core<A>,
    size: Size,
    pc: u32,
    i: Word,
) -> Queued
    requires at { IsAt size core.old pc i.instr }
    ensures { IsExecuted size core.old core.new pc (addresses result) }
{
    general::<2, A>(core, size, pc, i)
}

/// The operands of an instruction of these modes. SIDE is for the compiler alone, as for `dispatched`.
#[inline(always)]
pub(crate) fn pair<
    const SIDE: u64,
    const MODES: u64,
    const A_MODE: u64,
    const B_MODE: u64,
    A: Allocator,
>(core: &mut Core<A>, size: Size, pc: u32, i: Word) -> (Operand, Operand)
    requires core { IsCore size core.old }
    requires pc { pc < size }
    requires numbers { HasNumbersBelow size i.instr }
    requires modes { MODES ≡ modes_code i.instr }
    requires parts { modes_of MODES ≡ (A_MODE, B_MODE) }
    ensures value { whole_operands size core.old pc i.instr
        ≡ evaluated_both (operand_of result.0) (operand_of result.1) core.new }
    ensures core { IsCore size core.new }
    ensures a { result.0.pointer < size }
    ensures a_numbers { HasNumbersBelow size result.0.register.instr }
    ensures b { result.1.target < size }
    ensures b_numbers { HasNumbersBelow size result.1.register.instr }
{
    let a = operand_by::<A_MODE, A>(core, size, pc, i.number(Field::A));
    let b = operand_by::<B_MODE, A>(core, size, pc, i.number(Field::B));
    (a, b)
}

/// The effect of an instruction that does the same as under OPERATION. SIDE and PLACE are for the compiler alone,
/// as for `effect_by`.
#[inline(always)]
pub(crate) fn effect_of<const SIDE: u64, const PLACE: u64, const OPERATION: u64, A: Allocator>(
    core: &mut Core<A>,
    size: Size,
    pc: u32,
    i: Word,
    a: Operand,
    b: Operand,
) -> Queued
    requires wide { 2 ≤ size }
    requires core { IsCore size core.old }
    requires pc { pc < size }
    requires a { a.pointer < size }
    requires a_numbers { HasNumbersBelow size a.register.instr }
    requires b { b.target < size }
    requires b_numbers { HasNumbersBelow size b.register.instr }
    requires operation { OPERATION ≡ same_operation (operation_code i.instr) }
    ensures value { effect size pc i.instr.op i.instr.modifier (operand_of a) (operand_of b) core.old
        ≡ queues core.new (addresses result) }
    ensures core { IsCore size core.new }
    ensures addresses { All (λ a. a < size) (addresses result) }
{
    effect_by::<SIDE, PLACE, OPERATION, A>(core, size, pc, a, b)
}

/// The effect of an instruction of any operation.
#[inline(always)]
pub(crate) fn effect_of_any<A: Allocator>(
    core: &mut Core<A>,
    size: Size,
    pc: u32,
    i: Word,
    a: Operand,
    b: Operand,
) -> Queued
    requires wide { 2 ≤ size }
    requires core { IsCore size core.old }
    requires pc { pc < size }
    requires a { a.pointer < size }
    requires a_numbers { HasNumbersBelow size a.register.instr }
    requires b { b.target < size }
    requires b_numbers { HasNumbersBelow size b.register.instr }
    ensures value { effect size pc i.instr.op i.instr.modifier (operand_of a) (operand_of b) core.old
        ≡ queues core.new (addresses result) }
    ensures core { IsCore size core.new }
    ensures addresses { All (λ a. a < size) (addresses result) }
{
    effect(core, size, pc, i.op(), i.modifier(), a, b)
}
