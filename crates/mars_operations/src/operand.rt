//! The evaluation of operands without limits.

ghost use Rattle.std.specs.Prelude.{◌≡◌, ◌<◌, true};
ghost use Rattle.{war_types.specs.Warrior.HasNumbersBelow, mars_operations.specs.{Cells.IsCore, Operand.evaluated, Whole.{found, through, indirect, predecremented, postincremented, operand}}};
ghost use Rattle.{mars_words.specs.{Code.field_of, Words.is_plain}, mars_operations.specs.Code.operand_of};

use crate::cells::Core;
use mars_words::{Field, Size, Word};
use std::alloc::Allocator;
use war_types::Mode;

/// What evaluating an operand gives.
#[derive(Clone, Copy)]
pub struct Operand {
    /// The address that it reads.
    pub pointer: u32,
    /// The address that it writes.
    pub target: u32,
    /// A copy of the instruction that it reads, as it was when the operand was evaluated.
    pub register: Word,
}

/// The operand of this mode and number in the instruction at `pc`, in a core of `size` cells. An indirect mode
/// may raise or lower a number of the cell that it goes through.
#[inline(always)]
pub fn evaluate<A: Allocator>(
    core: &mut Core<A>,
    size: Size,
    pc: u32,
    mode: Mode,
    number: u32,
) -> Operand
    requires core { IsCore size core.old }
    requires pc { pc < size }
    requires number { number < size }
    ensures value { operand size core.old pc mode number ≡ evaluated (operand_of result) core.new }
    ensures core { IsCore size core.new }
    ensures pointer { result.pointer < size }
    ensures target { result.target < size }
    ensures register { HasNumbersBelow size result.register.instr }
{
    let at = size.plus(pc, number);
    match mode {
        Mode::Immediate => found(core, size, pc),
        Mode::Direct => found(core, size, at),
        Mode::AIndirect => indirect(core, size, at, Field::A),
        Mode::BIndirect => indirect(core, size, at, Field::B),
        Mode::APre => predecremented(core, size, at, Field::A),
        Mode::BPre => predecremented(core, size, at, Field::B),
        Mode::APost => postincremented(core, size, at, Field::A),
        Mode::BPost => postincremented(core, size, at, Field::B),
    }
}

/// The operand of a mode that is immediate or direct.
#[inline(always)]
pub fn plain<A: Allocator>(core: &Core<A>, size: Size, pc: u32, mode: Mode, number: u32) -> Operand
    requires core { IsCore size core.now }
    requires pc { pc < size }
    requires number { number < size }
    requires plain { is_plain mode ≡ true }
    ensures value { operand size core.now pc mode number ≡ evaluated (operand_of result) core.now }
    ensures pointer { result.pointer < size }
    ensures target { result.target < size }
    ensures register { HasNumbersBelow size result.register.instr }
{
    let offset = match mode {
        Mode::Immediate => 0,
        _ => number,
    };
    found(core, size, size.plus(pc, offset))
}

#[inline(always)]
fn found<A: Allocator>(core: &Core<A>, size: Size, pointer: u32) -> Operand
    requires core { IsCore size core.now }
    requires pointer { pointer < size }
    ensures value { operand_of result ≡ found core.now pointer }
    ensures pointer { result.pointer < size }
    ensures target { result.target < size }
    ensures register { HasNumbersBelow size result.register.instr }
{
    Operand {
        pointer,
        target: pointer,
        register: core.cell(size, pointer),
    }
}

/// An operand that points on from the cell at an address, by one of that cell's numbers.
#[inline(always)]
fn indirect<A: Allocator>(core: &Core<A>, size: Size, at: u32, field: Field) -> Operand
    requires core { IsCore size core.now }
    requires address { at < size }
    ensures value { operand_of result ≡ indirect size core.now at (field_of field) }
    ensures pointer { result.pointer < size }
    ensures target { result.target < size }
    ensures register { HasNumbersBelow size result.register.instr }
{
    let through = core.cell(size, at);
    found(core, size, size.plus(at, through.number(field)))
}

#[inline(always)]
fn predecremented<A: Allocator>(core: &mut Core<A>, size: Size, at: u32, field: Field) -> Operand
    requires core { IsCore size core.old }
    requires address { at < size }
    ensures value { predecremented size core.old at (field_of field) ≡ evaluated (operand_of result) core.new }
    ensures core { IsCore size core.new }
    ensures pointer { result.pointer < size }
    ensures target { result.target < size }
    ensures register { HasNumbersBelow size result.register.instr }
{
    let lowered = size.minus(core.cell(size, at).number(field), 1);
    core.put_number(size, at, field, lowered);
    indirect(core, size, at, field)
}

#[inline(always)]
fn postincremented<A: Allocator>(core: &mut Core<A>, size: Size, at: u32, field: Field) -> Operand
    requires core { IsCore size core.old }
    requires address { at < size }
    ensures value { postincremented size core.old at (field_of field) ≡ evaluated (operand_of result) core.new }
    ensures core { IsCore size core.new }
    ensures pointer { result.pointer < size }
    ensures target { result.target < size }
    ensures register { HasNumbersBelow size result.register.instr }
{
    let operand = indirect(core, size, at, field);
    let raised = size.plus(core.cell(size, at).number(field), 1);
    core.put_number(size, at, field, raised);
    operand
}
