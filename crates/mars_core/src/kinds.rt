//! Operations under modifiers, and modes, as words have them. Written by `bench/kinds`.

pub(crate) const DAT: u64 = 0;

pub(crate) const MOV_A: u64 = 8;

pub(crate) const MOV_B: u64 = 9;

pub(crate) const MOV_AB: u64 = 10;

pub(crate) const MOV_BA: u64 = 11;

pub(crate) const MOV_F: u64 = 12;

pub(crate) const MOV_X: u64 = 13;

pub(crate) const MOV_I: u64 = 14;

pub(crate) const ADD_A: u64 = 16;

pub(crate) const ADD_B: u64 = 17;

pub(crate) const ADD_AB: u64 = 18;

pub(crate) const ADD_BA: u64 = 19;

pub(crate) const ADD_F: u64 = 20;

pub(crate) const ADD_X: u64 = 21;

pub(crate) const SUB_A: u64 = 24;

pub(crate) const SUB_B: u64 = 25;

pub(crate) const SUB_AB: u64 = 26;

pub(crate) const SUB_BA: u64 = 27;

pub(crate) const SUB_F: u64 = 28;

pub(crate) const SUB_X: u64 = 29;

pub(crate) const MUL_A: u64 = 32;

pub(crate) const MUL_B: u64 = 33;

pub(crate) const MUL_AB: u64 = 34;

pub(crate) const MUL_BA: u64 = 35;

pub(crate) const MUL_F: u64 = 36;

pub(crate) const MUL_X: u64 = 37;

pub(crate) const DIV_A: u64 = 40;

pub(crate) const DIV_B: u64 = 41;

pub(crate) const DIV_AB: u64 = 42;

pub(crate) const DIV_BA: u64 = 43;

pub(crate) const DIV_F: u64 = 44;

pub(crate) const DIV_X: u64 = 45;

pub(crate) const MOD_A: u64 = 48;

pub(crate) const MOD_B: u64 = 49;

pub(crate) const MOD_AB: u64 = 50;

pub(crate) const MOD_BA: u64 = 51;

pub(crate) const MOD_F: u64 = 52;

pub(crate) const MOD_X: u64 = 53;

pub(crate) const JMP: u64 = 56;

pub(crate) const JMZ_A: u64 = 64;

pub(crate) const JMZ_B: u64 = 65;

pub(crate) const JMZ_F: u64 = 68;

pub(crate) const JMZ_X: u64 = 69;

pub(crate) const JMN_A: u64 = 72;

pub(crate) const JMN_B: u64 = 73;

pub(crate) const JMN_F: u64 = 76;

pub(crate) const JMN_X: u64 = 77;

pub(crate) const DJN_A: u64 = 80;

pub(crate) const DJN_B: u64 = 81;

pub(crate) const DJN_F: u64 = 84;

pub(crate) const DJN_X: u64 = 85;

pub(crate) const SEQ_A: u64 = 88;

pub(crate) const SEQ_B: u64 = 89;

pub(crate) const SEQ_AB: u64 = 90;

pub(crate) const SEQ_BA: u64 = 91;

pub(crate) const SEQ_F: u64 = 92;

pub(crate) const SEQ_X: u64 = 93;

pub(crate) const SEQ_I: u64 = 94;

pub(crate) const SNE_A: u64 = 96;

pub(crate) const SNE_B: u64 = 97;

pub(crate) const SNE_AB: u64 = 98;

pub(crate) const SNE_BA: u64 = 99;

pub(crate) const SNE_F: u64 = 100;

pub(crate) const SNE_X: u64 = 101;

pub(crate) const SNE_I: u64 = 102;

pub(crate) const SLT_A: u64 = 104;

pub(crate) const SLT_B: u64 = 105;

pub(crate) const SLT_AB: u64 = 106;

pub(crate) const SLT_BA: u64 = 107;

pub(crate) const SLT_F: u64 = 108;

pub(crate) const SLT_X: u64 = 109;

pub(crate) const SPL: u64 = 112;

pub(crate) const NOP: u64 = 120;

pub(crate) const IMMEDIATE: u64 = 0;

pub(crate) const DIRECT: u64 = 1;

pub(crate) const A_INDIRECT: u64 = 2;

pub(crate) const B_INDIRECT: u64 = 3;

pub(crate) const A_PRE: u64 = 4;

pub(crate) const B_PRE: u64 = 5;

pub(crate) const A_POST: u64 = 6;

pub(crate) const B_POST: u64 = 7;
