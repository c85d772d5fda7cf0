//! The cells that a process may write.

ghost use Rattle.std.specs.Prelude.{◌≡◌, ◌<◌, ◌≤◌, All};
ghost use Rattle.{mars_words.specs.{Numbers.{plus, folded}, Code.field_of}, mars_core.specs.{Cells.IsCore, Operand.Reach, Round.executed, Touched.AreSameBut, Code.led_by}};

use mars_operations::Core;
use mars_words::{Field, Size};
use std::alloc::Allocator;
use war_types::Mode;

/// The addresses of the cells that the process at `pc` may write, within the limit `write`: its own, those that its
/// operands go through, and those to which the B operand may lead on. It leads on by a number of a cell that the
/// operands themselves may raise or lower before.
pub(crate) fn touchable<A: Allocator>(core: &Core<A>, size: Size, write: u32, pc: u32) -> [u16; 8]
    requires core { IsCore size core.now }
    requires pc { pc < size }
    requires write_least { 1 ≤ write }
    requires write_most { write ≤ size }
    ensures same { (reach : Reach) → reach.size ≡ size → reach.write ≡ write
        → AreSameBut result core.now (executed reach core.now pc).core }
    ensures addresses { All (λ a. a < size) result }
{
    let i = core.cell(size, pc);
    let a = size.folded(write, i.number(Field::A));
    let b = size.folded(write, i.number(Field::B));
    let through = core.cell(size, size.plus(pc, b));
    let number = through.number(led_by(i.b_mode()));
    let more = size.plus(number, 1);
    let less = size.minus(number, 1);
    [
        pc as u16,
        size.plus(pc, a) as u16,
        size.plus(pc, b) as u16,
        led_on(size, write, pc, b + number),
        led_on(size, write, pc, b + more),
        led_on(size, write, pc, b + less),
        led_on(size, write, pc, b + size.minus(more, 1)),
        led_on(size, write, pc, b + size.minus(less, 1)),
    ]
}

/// The address to which a pointer leads, counted from the instruction at `pc`.
fn led_on(size: Size, write: u32, pc: u32, pointer: u32) -> u16
    requires pc { pc < size }
    requires write_least { 1 ≤ write }
    requires write_most { write ≤ size }
    ensures value { result ≡ plus size pc (folded size write pointer) }
    ensures below { result < size }
{
    size.plus(pc, size.folded(write, pointer)) as u16
}

/// The number by which an indirect mode leads on.
fn led_by(mode: Mode) -> Field
    ensures { field_of result ≡ led_by mode }
{
    match mode {
        Mode::AIndirect | Mode::APre | Mode::APost => Field::A,
        _ => Field::B,
    }
}
