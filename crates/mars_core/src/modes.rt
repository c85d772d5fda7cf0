//! One dispatch over the pairs of modes. Written by `bench/kinds`.

ghost use Rattle.std.specs.Prelude.{◌≡◌, ◌<◌};
ghost use Rattle.{war_types.specs.Warrior.HasNumbersBelow, mars_core.specs.{Cells.IsCore, Code.{evaluated_both, operand_of, whole_operands}}};

use crate::handlers::pair;
use crate::kinds::{A_INDIRECT, A_POST, A_PRE, B_INDIRECT, B_POST, B_PRE, DIRECT, IMMEDIATE};
use mars_operations::{Core, Operand};
use mars_words::{Size, Word};
use std::alloc::Allocator;

/// The operands of the instruction that was read, by one jump over both modes.
#[inline(always)]
pub(crate) fn by_modes<const SIDE: u64, A: Allocator>(
    core: &mut Core<A>,
    size: Size,
    pc: u32,
    i: Word,
) -> (Operand, Operand)
    requires core { IsCore size core.old }
    requires pc { pc < size }
    requires numbers { HasNumbersBelow size i.instr }
    ensures value { whole_operands size core.old pc i.instr
        ≡ evaluated_both (operand_of result.0) (operand_of result.1) core.new }
    ensures core { IsCore size core.new }
    ensures a { result.0.pointer < size }
    ensures a_numbers { HasNumbersBelow size result.0.register.instr }
    ensures b { result.1.target < size }
    ensures b_numbers { HasNumbersBelow size result.1.register.instr }
{
    match i.modes() {
        0 => pair::<SIDE, 0, IMMEDIATE, IMMEDIATE, A>(core, size, pc, i),
        1 => pair::<SIDE, 1, IMMEDIATE, DIRECT, A>(core, size, pc, i),
        2 => pair::<SIDE, 2, IMMEDIATE, A_INDIRECT, A>(core, size, pc, i),
        3 => pair::<SIDE, 3, IMMEDIATE, B_INDIRECT, A>(core, size, pc, i),
        4 => pair::<SIDE, 4, IMMEDIATE, A_PRE, A>(core, size, pc, i),
        5 => pair::<SIDE, 5, IMMEDIATE, B_PRE, A>(core, size, pc, i),
        6 => pair::<SIDE, 6, IMMEDIATE, A_POST, A>(core, size, pc, i),
        7 => pair::<SIDE, 7, IMMEDIATE, B_POST, A>(core, size, pc, i),
        8 => pair::<SIDE, 8, DIRECT, IMMEDIATE, A>(core, size, pc, i),
        9 => pair::<SIDE, 9, DIRECT, DIRECT, A>(core, size, pc, i),
        10 => pair::<SIDE, 10, DIRECT, A_INDIRECT, A>(core, size, pc, i),
        11 => pair::<SIDE, 11, DIRECT, B_INDIRECT, A>(core, size, pc, i),
        12 => pair::<SIDE, 12, DIRECT, A_PRE, A>(core, size, pc, i),
        13 => pair::<SIDE, 13, DIRECT, B_PRE, A>(core, size, pc, i),
        14 => pair::<SIDE, 14, DIRECT, A_POST, A>(core, size, pc, i),
        15 => pair::<SIDE, 15, DIRECT, B_POST, A>(core, size, pc, i),
        16 => pair::<SIDE, 16, A_INDIRECT, IMMEDIATE, A>(core, size, pc, i),
        17 => pair::<SIDE, 17, A_INDIRECT, DIRECT, A>(core, size, pc, i),
        18 => pair::<SIDE, 18, A_INDIRECT, A_INDIRECT, A>(core, size, pc, i),
        19 => pair::<SIDE, 19, A_INDIRECT, B_INDIRECT, A>(core, size, pc, i),
        20 => pair::<SIDE, 20, A_INDIRECT, A_PRE, A>(core, size, pc, i),
        21 => pair::<SIDE, 21, A_INDIRECT, B_PRE, A>(core, size, pc, i),
        22 => pair::<SIDE, 22, A_INDIRECT, A_POST, A>(core, size, pc, i),
        23 => pair::<SIDE, 23, A_INDIRECT, B_POST, A>(core, size, pc, i),
        24 => pair::<SIDE, 24, B_INDIRECT, IMMEDIATE, A>(core, size, pc, i),
        25 => pair::<SIDE, 25, B_INDIRECT, DIRECT, A>(core, size, pc, i),
        26 => pair::<SIDE, 26, B_INDIRECT, A_INDIRECT, A>(core, size, pc, i),
        27 => pair::<SIDE, 27, B_INDIRECT, B_INDIRECT, A>(core, size, pc, i),
        28 => pair::<SIDE, 28, B_INDIRECT, A_PRE, A>(core, size, pc, i),
        29 => pair::<SIDE, 29, B_INDIRECT, B_PRE, A>(core, size, pc, i),
        30 => pair::<SIDE, 30, B_INDIRECT, A_POST, A>(core, size, pc, i),
        31 => pair::<SIDE, 31, B_INDIRECT, B_POST, A>(core, size, pc, i),
        32 => pair::<SIDE, 32, A_PRE, IMMEDIATE, A>(core, size, pc, i),
        33 => pair::<SIDE, 33, A_PRE, DIRECT, A>(core, size, pc, i),
        34 => pair::<SIDE, 34, A_PRE, A_INDIRECT, A>(core, size, pc, i),
        35 => pair::<SIDE, 35, A_PRE, B_INDIRECT, A>(core, size, pc, i),
        36 => pair::<SIDE, 36, A_PRE, A_PRE, A>(core, size, pc, i),
        37 => pair::<SIDE, 37, A_PRE, B_PRE, A>(core, size, pc, i),
        38 => pair::<SIDE, 38, A_PRE, A_POST, A>(core, size, pc, i),
        39 => pair::<SIDE, 39, A_PRE, B_POST, A>(core, size, pc, i),
        40 => pair::<SIDE, 40, B_PRE, IMMEDIATE, A>(core, size, pc, i),
        41 => pair::<SIDE, 41, B_PRE, DIRECT, A>(core, size, pc, i),
        42 => pair::<SIDE, 42, B_PRE, A_INDIRECT, A>(core, size, pc, i),
        43 => pair::<SIDE, 43, B_PRE, B_INDIRECT, A>(core, size, pc, i),
        44 => pair::<SIDE, 44, B_PRE, A_PRE, A>(core, size, pc, i),
        45 => pair::<SIDE, 45, B_PRE, B_PRE, A>(core, size, pc, i),
        46 => pair::<SIDE, 46, B_PRE, A_POST, A>(core, size, pc, i),
        47 => pair::<SIDE, 47, B_PRE, B_POST, A>(core, size, pc, i),
        48 => pair::<SIDE, 48, A_POST, IMMEDIATE, A>(core, size, pc, i),
        49 => pair::<SIDE, 49, A_POST, DIRECT, A>(core, size, pc, i),
        50 => pair::<SIDE, 50, A_POST, A_INDIRECT, A>(core, size, pc, i),
        51 => pair::<SIDE, 51, A_POST, B_INDIRECT, A>(core, size, pc, i),
        52 => pair::<SIDE, 52, A_POST, A_PRE, A>(core, size, pc, i),
        53 => pair::<SIDE, 53, A_POST, B_PRE, A>(core, size, pc, i),
        54 => pair::<SIDE, 54, A_POST, A_POST, A>(core, size, pc, i),
        55 => pair::<SIDE, 55, A_POST, B_POST, A>(core, size, pc, i),
        56 => pair::<SIDE, 56, B_POST, IMMEDIATE, A>(core, size, pc, i),
        57 => pair::<SIDE, 57, B_POST, DIRECT, A>(core, size, pc, i),
        58 => pair::<SIDE, 58, B_POST, A_INDIRECT, A>(core, size, pc, i),
        59 => pair::<SIDE, 59, B_POST, B_INDIRECT, A>(core, size, pc, i),
        60 => pair::<SIDE, 60, B_POST, A_PRE, A>(core, size, pc, i),
        61 => pair::<SIDE, 61, B_POST, B_PRE, A>(core, size, pc, i),
        62 => pair::<SIDE, 62, B_POST, A_POST, A>(core, size, pc, i),
        _ => pair::<SIDE, 63, B_POST, B_POST, A>(core, size, pc, i),
    }
}
