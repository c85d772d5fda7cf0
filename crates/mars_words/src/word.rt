//! What a cell holds, in 64 bits.

ghost use Rattle.std.specs.Prelude.{◌≡◌, ℕ, ◌<◌, ◌≤◌, ◌==◌, Bool, true, false, ◌&&◌};
ghost use Rattle.war_types.specs.Warrior.{HasNumbersBelow};
ghost use Rattle.mars_words.specs.{Numbers.{number, with_number}, Equal.are_equal, Code.field_of, Words.{Word, IsWord, word_in, op_at, modifier_at, mode_at, is_plain, kind_code, operation_code, modes_code, by_target, same_modifier, same_kind, handler_at, handler_of}};

use crate::field::Field;
use crate::kinds::{KINDS, MULTIPLIER, PLACES};
use std::marker::Model;
use war_types::{Instr, Mode, Modifier, Op};

const A: u32 = 16;

const B_MODE: u32 = 32;

const A_MODE: u32 = 35;

const MODIFIER: u32 = 38;

const OP: u32 = 41;

const HANDLER: u32 = 57;

const MARK: u32 = 63;

/// An instruction, and the mark of a cell that was written since its core was cleared. The B number is from bit 0
/// on, the A number from bit 16 on, then the B mode, the A mode, the modifier and the operation; from bit 57 on the
/// number of its handler. The mark is the highest bit.
#[derive(Clone, Copy)]
pub struct Word {
    bits: u64,
}

impl Model for Word {
    ghost use Rattle.std.specs.Prelude.{◌≡◌};
    ghost use Rattle.mars_words.specs.Words.{Word, word_in, bits_of, IsWord};

    ghost Value = { Word };

    ghost view = { λ w. word_in w.bits };

    ghost invariant = { λ w. IsWord w.bits };

    ghost inverse = { λ w. record { bits = bits_of w } };
}

impl Word {
    /// An instruction without a mark.
    pub fn of(i: Instr) -> Word
        ensures instr { result.instr ≡ i }
        ensures unmarked { result.is_marked ≡ false }
    {
        let kind = kind_of(i);
        Word {
            bits: wide(i.b) | wide(i.a) << A | kind << B_MODE | place_of(kind) << HANDLER,
        }
    }

    /// The word in these bits.
    #[inline(always)]
    pub fn in_bits(bits: u64) -> Word
        requires { IsWord bits }
        ensures { result ≡ word_in bits }
    {
        Word { bits }
    }

    /// The bits, as they are in a cell.
    #[inline(always)]
    pub fn bits(self) -> u64
        ensures value { word_in result ≡ self }
        ensures word { IsWord result }
    {
        self.bits
    }

    /// The number of the handler.
    #[inline(always)]
    pub fn handler(self) -> u64
        ensures { result ≡ handler_of self.instr }
    {
        self.bits >> HANDLER & 63
    }

    /// The instruction.
    pub fn instr(self) -> Instr
        ensures { result ≡ self.instr }
    {
        Instr {
            op: self.op(),
            modifier: self.modifier(),
            a_mode: self.a_mode(),
            a: self.number(Field::A) as u16,
            b_mode: self.b_mode(),
            b: self.number(Field::B) as u16,
        }
    }

    /// The operation and the modifier.
    #[inline(always)]
    pub fn operation(self) -> u64
        ensures { result ≡ operation_code self.instr }
    {
        self.bits >> MODIFIER & 127
    }

    /// Both modes.
    #[inline(always)]
    pub fn modes(self) -> u64
        ensures { result ≡ modes_code self.instr }
    {
        self.bits >> B_MODE & 63
    }

    /// The operation.
    #[inline(always)]
    pub fn op(self) -> Op
        ensures { result ≡ self.instr.op }
    {
        op_at(self.bits >> OP & 15)
    }

    /// The modifier.
    #[inline(always)]
    pub fn modifier(self) -> Modifier
        ensures { result ≡ self.instr.modifier }
    {
        modifier_at(self.bits >> MODIFIER & 7)
    }

    /// The mode of the A operand.
    #[inline(always)]
    pub fn a_mode(self) -> Mode
        ensures { result ≡ self.instr.a_mode }
    {
        mode_at(self.bits >> A_MODE & 7)
    }

    /// The mode of the B operand.
    #[inline(always)]
    pub fn b_mode(self) -> Mode
        ensures { result ≡ self.instr.b_mode }
    {
        mode_at(self.bits >> B_MODE & 7)
    }

    /// Whether both modes are immediate or direct.
    #[inline(always)]
    pub fn is_plain(self) -> bool
        ensures { result ≡ (is_plain self.instr.a_mode && is_plain self.instr.b_mode) }
    {
        self.bits >> (A_MODE + 1) & 3 == 0 && self.bits >> (B_MODE + 1) & 3 == 0
    }

    /// Whether the instructions are the same, whatever the marks are.
    #[inline(always)]
    pub fn equals(self, other: Word) -> bool
        ensures { result ≡ are_equal Modifier.I self.instr other.instr }
    {
        self.bits << 1 == other.bits << 1
    }

    /// One of the two numbers, at most 65,535.
    #[inline(always)]
    pub fn number(self, field: Field) -> u32
        ensures value { result ≡ number (field_of field) self.instr }
        ensures below { (size : ℕ) → HasNumbersBelow size self.instr → result < size }
        ensures small { result ≤ 65535 }
    {
        match field {
            Field::A => (self.bits >> A & 0xffff) as u32,
            Field::B => (self.bits & 0xffff) as u32,
        }
    }

    /// The word with `n` as one of the two numbers.
    #[inline(always)]
    pub fn with_number(self, field: Field, n: u32) -> Word
        requires { n ≤ 65535 }
        ensures value { result.instr ≡ with_number (field_of field) n self.instr }
        ensures below { (size : ℕ) → HasNumbersBelow size self.instr → n < size → HasNumbersBelow size result.instr }
        ensures mark { result.is_marked ≡ self.is_marked }
    {
        match field {
            Field::A => Word::in_bits(self.bits & !0xffff_0000 | u64::from(n) << A),
            Field::B => Word::in_bits(self.bits & !0xffff | u64::from(n)),
        }
    }

    /// Whether the word has the mark.
    #[inline(always)]
    pub fn is_marked(self) -> bool
        ensures { result ≡ self.is_marked }
    {
        self.bits >> MARK == 1
    }

    /// The same instruction with the mark.
    #[inline(always)]
    pub fn marked(self) -> Word
        ensures instr { result.instr ≡ self.instr }
        ensures mark { result.is_marked ≡ true }
    {
        Word {
            bits: self.bits | 1 << MARK,
        }
    }
}

/// The operation, the modifier and both modes.
fn kind_of(i: Instr) -> u64
    ensures value { result ≡ kind_code i }
    ensures small { result < 8192 }
{
    u64::from(i.b_mode.code())
        + u64::from(i.a_mode.code()) * 8
        + u64::from(i.modifier.code()) * 64
        + u64::from(i.op.code()) * 512
}

/// The number of a kind's handler.
fn place_of(kind: u64) -> u64
    requires { kind < 8192 }
    ensures { result ≡ handler_at kind }
{
    let kind = same_kind(kind);
    let place = u64::from(PLACES[(kind * MULTIPLIER / 256 % 256) as usize]);
    if u64::from(KINDS[place as usize]) == kind {
        place
    } else {
        0
    }
}

/// The kind that has the handler of a kind: under one of the modifiers under which the operation does the same.
#[tactic(auto, unfolding(crate::specs::Words::same_kind, crate::specs::Words::same_operation))]
fn same_kind(kind: u64) -> u64
    requires { kind < 8192 }
    ensures value { result ≡ same_kind kind }
    ensures small { result < 8192 }
{
    let modifier = same_modifier(op_at(kind / 512), modifier_at(kind / 64 % 8));
    kind / 512 * 512 + u64::from(modifier.code()) * 64 + kind % 64
}

/// Of the modifiers under which an operation does the same, one.
fn same_modifier(op: Op, modifier: Modifier) -> Modifier
    ensures { result ≡ same_modifier op modifier }
{
    match op {
        Op::Dat | Op::Jmp | Op::Spl | Op::Nop => Modifier::A,
        Op::Mov | Op::Seq | Op::Sne => modifier,
        Op::Jmz | Op::Jmn | Op::Djn => by_target(modifier),
        Op::Add | Op::Sub | Op::Mul | Op::Div | Op::Mdl | Op::Slt => match modifier {
            Modifier::I => Modifier::F,
            _ => modifier,
        },
    }
}

/// The modifier of the same B fields, where no A field is read.
fn by_target(modifier: Modifier) -> Modifier
    ensures { result ≡ by_target modifier }
{
    match modifier {
        Modifier::AB => Modifier::B,
        Modifier::BA => Modifier::A,
        Modifier::I => Modifier::F,
        _ => modifier,
    }
}

/// A number in 64 bits: it takes the lowest 16.
fn wide(number: u16) -> u64
    ensures value { result ≡ number }
    ensures small { result ≤ 65535 }
{
    u64::from(number)
}

/// The operation of a code; NOP is that of each code from 15 on.
#[inline(always)]
pub fn op_at(code: u64) -> Op
    ensures { result ≡ op_at code }
{
    match code {
        0 => Op::Dat,
        1 => Op::Mov,
        2 => Op::Add,
        3 => Op::Sub,
        4 => Op::Mul,
        5 => Op::Div,
        6 => Op::Mdl,
        7 => Op::Jmp,
        8 => Op::Jmz,
        9 => Op::Jmn,
        10 => Op::Djn,
        11 => Op::Seq,
        12 => Op::Sne,
        13 => Op::Slt,
        14 => Op::Spl,
        _ => Op::Nop,
    }
}

/// The modifier of a code; `.I` is that of each code from 6 on.
#[inline(always)]
pub fn modifier_at(code: u64) -> Modifier
    ensures { result ≡ modifier_at code }
{
    match code {
        0 => Modifier::A,
        1 => Modifier::B,
        2 => Modifier::AB,
        3 => Modifier::BA,
        4 => Modifier::F,
        5 => Modifier::X,
        _ => Modifier::I,
    }
}

/// The mode of a code; that of each code from 7 on is postincrement by the B number.
#[inline(always)]
pub fn mode_at(code: u64) -> Mode
    ensures { result ≡ mode_at code }
{
    match code {
        0 => Mode::Immediate,
        1 => Mode::Direct,
        2 => Mode::AIndirect,
        3 => Mode::BIndirect,
        4 => Mode::APre,
        5 => Mode::BPre,
        6 => Mode::APost,
        _ => Mode::BPost,
    }
}
