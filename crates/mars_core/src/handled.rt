//! One dispatch over the kinds of instructions that have a handler of their own. Written by `bench/kinds`.

ghost use Rattle.mars_core.specs.{Code.addresses, Passes.{IsAt, IsExecuted}};

use crate::handlers::{arm, general_apart};
use crate::kinds::{
    A_INDIRECT, A_POST, A_PRE, ADD_AB, ADD_F, B_INDIRECT, B_POST, B_PRE, DAT, DIRECT, DJN_A, DJN_B,
    DJN_F, IMMEDIATE, JMN_B, JMN_F, JMN_X, JMP, JMZ_A, JMZ_B, JMZ_F, MOV_AB, MOV_I, NOP, SEQ_BA,
    SEQ_I, SLT_B, SNE_I, SPL, SUB_F, SUB_X,
};
use mars_operations::Core;
use mars_operations::effect::Queued;
use mars_words::{Size, Word};
use std::alloc::Allocator;

/// Executes the instruction that was read, whose handler isn't 0, by one jump to its handler. The compiler leaves out
/// the last arm, since all numbers below 64 were named.
#[inline(always)]
#[tactic(auto, unfolding(mars_words::specs::Kinds::kinds))]
pub(crate) fn handled<const SIDE: u64, A: Allocator>(
    core: &mut Core<A>,
    size: Size,
    pc: u32,
    i: Word,
) -> Queued
    requires at { IsAt size core.old pc i.instr }
    ensures { IsExecuted size core.old core.new pc (addresses result) }
{
    match i.handler() {
        1 => arm::<SIDE, 1, JMP, DIRECT, B_PRE, A>(core, size, pc, i),
        2 => arm::<SIDE, 2, SPL, DIRECT, DIRECT, A>(core, size, pc, i),
        3 => arm::<SIDE, 3, DAT, DIRECT, DIRECT, A>(core, size, pc, i),
        4 => arm::<SIDE, 4, SPL, IMMEDIATE, B_PRE, A>(core, size, pc, i),
        5 => arm::<SIDE, 5, MOV_I, A_POST, B_POST, A>(core, size, pc, i),
        6 => arm::<SIDE, 6, MOV_I, A_INDIRECT, B_POST, A>(core, size, pc, i),
        7 => arm::<SIDE, 7, JMP, DIRECT, DIRECT, A>(core, size, pc, i),
        8 => arm::<SIDE, 8, SPL, DIRECT, B_PRE, A>(core, size, pc, i),
        9 => arm::<SIDE, 9, MOV_I, DIRECT, B_POST, A>(core, size, pc, i),
        10 => arm::<SIDE, 10, SPL, IMMEDIATE, IMMEDIATE, A>(core, size, pc, i),
        11 => arm::<SIDE, 11, DAT, B_PRE, B_PRE, A>(core, size, pc, i),
        12 => arm::<SIDE, 12, SPL, B_INDIRECT, DIRECT, A>(core, size, pc, i),
        13 => arm::<SIDE, 13, MOV_I, DIRECT, B_PRE, A>(core, size, pc, i),
        14 => arm::<SIDE, 14, MOV_I, A_POST, DIRECT, A>(core, size, pc, i),
        15 => arm::<SIDE, 15, SPL, B_INDIRECT, B_PRE, A>(core, size, pc, i),
        16 => arm::<SIDE, 16, DJN_F, DIRECT, B_POST, A>(core, size, pc, i),
        17 => arm::<SIDE, 17, ADD_AB, IMMEDIATE, DIRECT, A>(core, size, pc, i),
        18 => arm::<SIDE, 18, SPL, IMMEDIATE, DIRECT, A>(core, size, pc, i),
        19 => arm::<SIDE, 19, SPL, IMMEDIATE, A_PRE, A>(core, size, pc, i),
        20 => arm::<SIDE, 20, MOV_I, DIRECT, B_INDIRECT, A>(core, size, pc, i),
        21 => arm::<SIDE, 21, JMN_B, DIRECT, DIRECT, A>(core, size, pc, i),
        22 => arm::<SIDE, 22, JMP, DIRECT, A_PRE, A>(core, size, pc, i),
        23 => arm::<SIDE, 23, DJN_B, DIRECT, IMMEDIATE, A>(core, size, pc, i),
        24 => arm::<SIDE, 24, ADD_F, DIRECT, DIRECT, A>(core, size, pc, i),
        25 => arm::<SIDE, 25, DAT, IMMEDIATE, IMMEDIATE, A>(core, size, pc, i),
        26 => arm::<SIDE, 26, MOV_I, IMMEDIATE, A_INDIRECT, A>(core, size, pc, i),
        27 => arm::<SIDE, 27, JMP, DIRECT, B_POST, A>(core, size, pc, i),
        28 => arm::<SIDE, 28, MOV_I, B_PRE, B_PRE, A>(core, size, pc, i),
        29 => arm::<SIDE, 29, MOV_I, DIRECT, DIRECT, A>(core, size, pc, i),
        30 => arm::<SIDE, 30, SNE_I, DIRECT, DIRECT, A>(core, size, pc, i),
        31 => arm::<SIDE, 31, SUB_F, DIRECT, DIRECT, A>(core, size, pc, i),
        32 => arm::<SIDE, 32, MOV_I, A_PRE, A_POST, A>(core, size, pc, i),
        33 => arm::<SIDE, 33, DJN_F, DIRECT, B_PRE, A>(core, size, pc, i),
        34 => arm::<SIDE, 34, DJN_B, DIRECT, DIRECT, A>(core, size, pc, i),
        35 => arm::<SIDE, 35, JMZ_A, DIRECT, B_INDIRECT, A>(core, size, pc, i),
        36 => arm::<SIDE, 36, JMN_B, DIRECT, IMMEDIATE, A>(core, size, pc, i),
        37 => arm::<SIDE, 37, DAT, IMMEDIATE, DIRECT, A>(core, size, pc, i),
        38 => arm::<SIDE, 38, MOV_I, A_PRE, B_PRE, A>(core, size, pc, i),
        39 => arm::<SIDE, 39, SPL, B_INDIRECT, B_POST, A>(core, size, pc, i),
        40 => arm::<SIDE, 40, MOV_I, DIRECT, A_POST, A>(core, size, pc, i),
        41 => arm::<SIDE, 41, MOV_I, B_INDIRECT, B_PRE, A>(core, size, pc, i),
        42 => arm::<SIDE, 42, SEQ_I, DIRECT, DIRECT, A>(core, size, pc, i),
        43 => arm::<SIDE, 43, JMZ_F, DIRECT, A_INDIRECT, A>(core, size, pc, i),
        44 => arm::<SIDE, 44, JMP, B_INDIRECT, B_POST, A>(core, size, pc, i),
        45 => arm::<SIDE, 45, MOV_I, IMMEDIATE, DIRECT, A>(core, size, pc, i),
        46 => arm::<SIDE, 46, SUB_X, DIRECT, DIRECT, A>(core, size, pc, i),
        47 => arm::<SIDE, 47, JMZ_F, DIRECT, DIRECT, A>(core, size, pc, i),
        48 => arm::<SIDE, 48, MOV_AB, IMMEDIATE, B_INDIRECT, A>(core, size, pc, i),
        49 => arm::<SIDE, 49, JMP, A_INDIRECT, A_PRE, A>(core, size, pc, i),
        50 => arm::<SIDE, 50, MOV_I, DIRECT, A_INDIRECT, A>(core, size, pc, i),
        51 => arm::<SIDE, 51, SLT_B, DIRECT, DIRECT, A>(core, size, pc, i),
        52 => arm::<SIDE, 52, DAT, B_PRE, DIRECT, A>(core, size, pc, i),
        53 => arm::<SIDE, 53, JMZ_B, DIRECT, DIRECT, A>(core, size, pc, i),
        54 => arm::<SIDE, 54, DJN_A, DIRECT, DIRECT, A>(core, size, pc, i),
        55 => arm::<SIDE, 55, SEQ_BA, B_PRE, A_PRE, A>(core, size, pc, i),
        56 => arm::<SIDE, 56, JMZ_F, DIRECT, B_INDIRECT, A>(core, size, pc, i),
        57 => arm::<SIDE, 57, DJN_F, DIRECT, A_POST, A>(core, size, pc, i),
        58 => arm::<SIDE, 58, MOV_AB, IMMEDIATE, DIRECT, A>(core, size, pc, i),
        59 => arm::<SIDE, 59, SUB_X, IMMEDIATE, DIRECT, A>(core, size, pc, i),
        60 => arm::<SIDE, 60, JMN_X, DIRECT, DIRECT, A>(core, size, pc, i),
        61 => arm::<SIDE, 61, NOP, B_INDIRECT, B_PRE, A>(core, size, pc, i),
        62 => arm::<SIDE, 62, SPL, DIRECT, A_PRE, A>(core, size, pc, i),
        63 => arm::<SIDE, 63, JMN_F, DIRECT, DIRECT, A>(core, size, pc, i),
        _ => general_apart(core, size, pc, i),
    }
}
