//! What each operation does.

ghost use Rattle.std.specs.Prelude.{◌≡◌, ◌<◌, ◌≤◌, All};
ghost use Rattle.{war_types.specs.Warrior.HasNumbersBelow, mars_words.specs.Code.arithmetic_of};
ghost use Rattle.mars_operations.specs.{Cells.IsCore, Effect.{queues, effect, skip_where, jump_where, calculates, put, target}, Code.{addresses, operand_of}};

use crate::cells::Core;
use crate::copying::copy_to;
use crate::operand::Operand;
use crate::registers::{all_lowered, are_equal, are_less, are_zero, calculated, fall_to_zero};
use mars_words::{Arithmetic, Field, Size, Word};
use std::alloc::Allocator;
use war_types::{Modifier, Op};

/// The addresses that an operation queues in place of the process that was executed.
#[derive(Clone, Copy)]
pub enum Queued {
    /// None: the process ends.
    Nothing,
    One(u32),
    /// The front one first.
    Two(u32, u32),
}

/// Executes an instruction of this operation and modifier that is at `pc`, once its operands are evaluated, in a
/// core of `size` cells.
#[inline(always)]
pub fn effect<A: Allocator>(
    core: &mut Core<A>,
    size: Size,
    pc: u32,
    op: Op,
    modifier: Modifier,
    a: Operand,
    b: Operand,
) -> Queued
    requires wide { 2 ≤ size }
    requires core { IsCore size core.old }
    requires pc { pc < size }
    requires a { a.pointer < size }
    requires a_numbers { HasNumbersBelow size a.register.instr }
    requires b { b.target < size }
    requires b_numbers { HasNumbersBelow size b.register.instr }
    ensures value { effect size pc op modifier (operand_of a) (operand_of b) core.old
        ≡ queues core.new (addresses result) }
    ensures core { IsCore size core.new }
    ensures addresses { All (λ a. a < size) (addresses result) }
{
    let next = size.next(pc);
    match op {
        Op::Dat => Queued::Nothing,
        Op::Mov => {
            copy_to(core, size, modifier, a.register, b.target);
            Queued::One(next)
        }
        Op::Add => calculates(core, size, pc, Arithmetic::Sum, modifier, a, b),
        Op::Sub => calculates(core, size, pc, Arithmetic::Difference, modifier, a, b),
        Op::Mul => calculates(core, size, pc, Arithmetic::Product, modifier, a, b),
        Op::Div => calculates(core, size, pc, Arithmetic::Quotient, modifier, a, b),
        Op::Mdl => calculates(core, size, pc, Arithmetic::Remainder, modifier, a, b),
        Op::Jmp => Queued::One(a.pointer),
        Op::Jmz => jump_where(size, pc, a, are_zero(modifier, b.register)),
        Op::Jmn => jump_where(size, pc, a, !are_zero(modifier, b.register)),
        Op::Djn => {
            let target = core.cell(size, b.target);
            core.put(size, b.target, all_lowered(size, modifier, target));
            jump_where(size, pc, a, !fall_to_zero(size, modifier, b.register))
        }
        Op::Seq => skip_where(size, pc, are_equal(modifier, a.register, b.register)),
        Op::Sne => skip_where(size, pc, !are_equal(modifier, a.register, b.register)),
        Op::Slt => skip_where(size, pc, are_less(modifier, a.register, b.register)),
        Op::Spl => Queued::Two(next, a.pointer),
        Op::Nop => Queued::One(next),
    }
}

/// An operation on numbers: each target field gets the value of its pair, if it has one.
#[inline(always)]
fn calculates<A: Allocator>(
    core: &mut Core<A>,
    size: Size,
    pc: u32,
    arithmetic: Arithmetic,
    modifier: Modifier,
    a: Operand,
    b: Operand,
) -> Queued
    requires core { IsCore size core.old }
    requires pc { pc < size }
    requires a_numbers { HasNumbersBelow size a.register.instr }
    requires b { b.target < size }
    requires b_numbers { HasNumbersBelow size b.register.instr }
    ensures value { calculates size pc (arithmetic_of arithmetic) modifier (operand_of a) (operand_of b) core.old
        ≡ queues core.new (addresses result) }
    ensures core { IsCore size core.new }
    ensures addresses { All (λ a. a < size) (addresses result) }
{
    let target = core.cell(size, b.target);
    let (target, all) = calculated(size, arithmetic, modifier, a.register, b.register, target);
    core.put(size, b.target, target);
    if all {
        Queued::One(size.next(pc))
    } else {
        Queued::Nothing
    }
}

/// Queues the A pointer if the test holds, and else the next instruction.
#[inline(always)]
fn jump_where(size: Size, pc: u32, a: Operand, test: bool) -> Queued
    requires pc { pc < size }
    requires a { a.pointer < size }
    ensures value { addresses result ≡ jump_where size pc (operand_of a) test }
    ensures addresses { All (λ a. a < size) (addresses result) }
{
    if test {
        Queued::One(a.pointer)
    } else {
        Queued::One(size.next(pc))
    }
}

/// Queues the next instruction, or the one after it if the test holds.
#[inline(always)]
fn skip_where(size: Size, pc: u32, test: bool) -> Queued
    requires wide { 2 ≤ size }
    requires pc { pc < size }
    ensures value { addresses result ≡ skip_where size pc test }
    ensures addresses { All (λ a. a < size) (addresses result) }
{
    Queued::One(size.plus(pc, if test { 2 } else { 1 }))
}
