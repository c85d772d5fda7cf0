//! How far the operands of an instruction reach.

ghost use Rattle.std.specs.Prelude.{◌≡◌, ℕ, ◌+◌, ◌<◌, ◌≤◌};
ghost use Rattle.{war_types.specs.Warrior.HasNumbersBelow, mars_core.specs.{Cells.IsCore, Operand.{Reach, pointed, led_on, found_from, evaluated, operand, indirect, predecremented, postincremented}}};
ghost use Rattle.{mars_words.specs.Code.field_of, mars_core.specs.{Whole.whole, Code.{evaluated_both, operand_of, operands, whole_operands, pointers_of, IsReach}}};

use mars_operations::{Core, Operand, evaluate, plain};
use mars_words::{Field, Size, Word};
use std::alloc::Allocator;
use std::marker::Model;
use war_types::Mode;

/// How far operands reach. One of the two kinds below is chosen once for a round, so a round without limits pays for
/// none.
pub(crate) trait Limits: Copy {
    /// The limits, and the size of their core.
    ghost reach: { Self → Reach };

    /// Evaluates the operands of an instruction that is at `pc`.
    fn operands<A: Allocator>(
        self,
        core: &mut Core<A>,
        size: Size,
        pc: u32,
        i: Word,
    ) -> (Operand, Operand)
        requires size { (reach self).size ≡ size }
        requires core { IsCore size core.old }
        requires pc { pc < size }
        requires numbers { HasNumbersBelow size i.instr }
        ensures value { operands (reach self) core.old pc i.instr
            ≡ evaluated_both (operand_of result.0) (operand_of result.1) core.new }
        ensures core { IsCore size core.new }
        ensures a { result.0.pointer < size }
        ensures a_numbers { HasNumbersBelow size result.0.register.instr }
        ensures b { result.1.target < size }
        ensures b_numbers { HasNumbersBelow size result.1.register.instr };
}

/// Operands read and write anywhere in a core of `size` cells.
#[derive(Clone, Copy)]
pub(crate) struct Whole {
    pub(crate) size: Size,
}

impl Limits for Whole {
    ghost reach = { λ w. whole w.size };

    #[inline(always)]
    fn operands<A: Allocator>(
        self,
        core: &mut Core<A>,
        size: Size,
        pc: u32,
        i: Word,
    ) -> (Operand, Operand) {
        whole_operands(core, size, pc, i)
    }
}

/// Evaluates the operands of an instruction that is at `pc`: A wholly before B.
#[inline(always)]
fn whole_operands<A: Allocator>(
    core: &mut Core<A>,
    size: Size,
    pc: u32,
    i: Word,
) -> (Operand, Operand)
    requires core { IsCore size core.old }
    requires pc { pc < size }
    requires numbers { HasNumbersBelow size i.instr }
    ensures value { whole_operands size core.old pc i.instr
        ≡ evaluated_both (operand_of result.0) (operand_of result.1) core.new }
    ensures core { IsCore size core.new }
    ensures a { result.0.pointer < size }
    ensures a_numbers { HasNumbersBelow size result.0.register.instr }
    ensures b { result.1.target < size }
    ensures b_numbers { HasNumbersBelow size result.1.register.instr }
{
    if i.is_plain() {
        let a = plain(core, size, pc, i.a_mode(), i.number(Field::A));
        let b = plain(core, size, pc, i.b_mode(), i.number(Field::B));
        (a, b)
    } else {
        let a = evaluate(core, size, pc, i.a_mode(), i.number(Field::A));
        let b = evaluate(core, size, pc, i.b_mode(), i.number(Field::B));
        (a, b)
    }
}

/// Operands read within one limit and write within another, around their instruction.
#[derive(Clone, Copy)]
pub(crate) struct Within {
    size: Size,
    read: u32,
    write: u32,
}

impl Model for Within {
    ghost use Rattle.mars_core.specs.{Operand.Reach, Code.IsReach};

    ghost Value = { Reach };

    ghost view = { λ w. record { size = w.size; read = w.read; write = w.write } };

    ghost invariant = { λ w. IsReach (record { size = w.size; read = w.read; write = w.write }) };

    ghost inverse = { λ reach. record { size = reach.size; read = reach.read; write = reach.write } };
}

/// Where an operand reads and where it writes, counted from its instruction.
#[derive(Clone, Copy)]
struct Pointers {
    read: u32,
    write: u32,
}

impl Limits for Within {
    ghost reach = { λ w. w };

    #[inline(always)]
    fn operands<A: Allocator>(
        self,
        core: &mut Core<A>,
        size: Size,
        pc: u32,
        i: Word,
    ) -> (Operand, Operand) {
        let a = self.evaluate(core, size, pc, i.a_mode(), i.number(Field::A));
        let b = self.evaluate(core, size, pc, i.b_mode(), i.number(Field::B));
        (a, b)
    }
}

impl Within {
    /// These limits in a core of `size` cells.
    pub(crate) fn of(size: Size, read: u16, write: u16) -> Within
        requires read_least { 1 ≤ read }
        requires read_most { read ≤ size }
        requires write_least { 1 ≤ write }
        requires write_most { write ≤ size }
        ensures size { result.size ≡ size }
        ensures read { result.read ≡ read }
        ensures write { result.write ≡ write }
    {
        Within {
            size,
            read: u32::from(read),
            write: u32::from(write),
        }
    }

    /// The operand of this mode and number in the instruction at `pc`, in a core of `size` cells.
    fn evaluate<A: Allocator>(
        self,
        core: &mut Core<A>,
        size: Size,
        pc: u32,
        mode: Mode,
        number: u32,
    ) -> Operand
        requires size { self.size ≡ size }
        requires core { IsCore size core.old }
        requires pc { pc < size }
        requires number { number < size }
        ensures value { operand self core.old pc mode number ≡ evaluated (operand_of result) core.new }
        ensures core { IsCore size core.new }
        ensures pointer { result.pointer < size }
        ensures target { result.target < size }
        ensures register { HasNumbersBelow size result.register.instr }
    {
        let p = self.pointed(number);
        match mode {
            Mode::Immediate => self.found(core, size, pc, Pointers { read: 0, write: 0 }),
            Mode::Direct => self.found(core, size, pc, p),
            Mode::AIndirect => self.indirect(core, size, pc, Field::A, p),
            Mode::BIndirect => self.indirect(core, size, pc, Field::B, p),
            Mode::APre => self.predecremented(core, size, pc, Field::A, p),
            Mode::BPre => self.predecremented(core, size, pc, Field::B, p),
            Mode::APost => self.postincremented(core, size, pc, Field::A, p),
            Mode::BPost => self.postincremented(core, size, pc, Field::B, p),
        }
    }

    /// A number as pointers.
    fn pointed(self, number: u32) -> Pointers
        ensures value { pointers_of result ≡ pointed self number }
        ensures read { result.read < self.size }
        ensures write { result.write < self.size }
    {
        Pointers {
            read: self.size.folded(self.read, number),
            write: self.size.folded(self.write, number),
        }
    }

    /// The operand that pointers lead to.
    fn found<A: Allocator>(self, core: &Core<A>, size: Size, pc: u32, p: Pointers) -> Operand
        requires size { self.size ≡ size }
        requires core { IsCore size core.now }
        requires pc { pc < size }
        requires read { p.read < size }
        requires write { p.write < size }
        ensures value { operand_of result ≡ found_from self core.now pc (pointers_of p) }
        ensures pointer { result.pointer < size }
        ensures target { result.target < size }
        ensures register { HasNumbersBelow size result.register.instr }
    {
        let pointer = size.plus(pc, p.read);
        Operand {
            pointer,
            target: size.plus(pc, p.write),
            register: core.cell(size, pointer),
        }
    }

    /// An operand whose pointers each lead on from the cell that they lead to, by one of that cell's numbers.
    fn indirect<A: Allocator>(
        self,
        core: &Core<A>,
        size: Size,
        pc: u32,
        field: Field,
        p: Pointers,
    ) -> Operand
        requires size { self.size ≡ size }
        requires core { IsCore size core.now }
        requires pc { pc < size }
        requires read { p.read < size }
        requires write { p.write < size }
        ensures value { operand_of result ≡ indirect self core.now pc (field_of field) (pointers_of p) }
        ensures pointer { result.pointer < size }
        ensures target { result.target < size }
        ensures register { HasNumbersBelow size result.register.instr }
    {
        let read = core.cell(size, size.plus(pc, p.read)).number(field);
        let write = core.cell(size, size.plus(pc, p.write)).number(field);
        let on = Pointers {
            read: size.folded(self.read, p.read + read),
            write: size.folded(self.write, p.write + write),
        };
        self.found(core, size, pc, on)
    }

    fn predecremented<A: Allocator>(
        self,
        core: &mut Core<A>,
        size: Size,
        pc: u32,
        field: Field,
        p: Pointers,
    ) -> Operand
        requires size { self.size ≡ size }
        requires core { IsCore size core.old }
        requires pc { pc < size }
        requires read { p.read < size }
        requires write { p.write < size }
        ensures value { predecremented self core.old pc (field_of field) (pointers_of p)
            ≡ evaluated (operand_of result) core.new }
        ensures core { IsCore size core.new }
        ensures pointer { result.pointer < size }
        ensures target { result.target < size }
        ensures register { HasNumbersBelow size result.register.instr }
    {
        let through = size.plus(pc, p.write);
        let lowered = size.minus(core.cell(size, through).number(field), 1);
        core.put_number(size, through, field, lowered);
        self.indirect(core, size, pc, field, p)
    }

    fn postincremented<A: Allocator>(
        self,
        core: &mut Core<A>,
        size: Size,
        pc: u32,
        field: Field,
        p: Pointers,
    ) -> Operand
        requires size { self.size ≡ size }
        requires core { IsCore size core.old }
        requires pc { pc < size }
        requires read { p.read < size }
        requires write { p.write < size }
        ensures value { postincremented self core.old pc (field_of field) (pointers_of p)
            ≡ evaluated (operand_of result) core.new }
        ensures core { IsCore size core.new }
        ensures pointer { result.pointer < size }
        ensures target { result.target < size }
        ensures register { HasNumbersBelow size result.register.instr }
    {
        let operand = self.indirect(core, size, pc, field, p);
        let through = size.plus(pc, p.write);
        let raised = size.plus(core.cell(size, through).number(field), 1);
        core.put_number(size, through, field, raised);
        operand
    }
}
