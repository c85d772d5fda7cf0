//! Settings and instructions.

pub use war_types::{Instr, Mode, Modifier, Op, RawSettings};

/// An instruction as Redcode writes it, which may stand in a table outside of functions: `instruction!(Add.AB Immediate 5, Direct 1)`.
/// Operands without a mode are direct.
#[macro_export]
macro_rules! instruction {
    ($op:ident . $modifier:ident $a:literal, $b:literal) => {
        $crate::instruction!($op.$modifier Direct $a, Direct $b)
    };
    ($op:ident . $modifier:ident $a_mode:ident $a:literal, $b_mode:ident $b:literal) => {
        $crate::Instr {
            op: $crate::Op::$op,
            modifier: $crate::Modifier::$modifier,
            a_mode: $crate::Mode::$a_mode,
            a: $a,
            b_mode: $crate::Mode::$b_mode,
            b: $b,
        }
    };
}

/// A DAT with two direct operands, which may stand in a table outside of functions.
#[macro_export]
macro_rules! dat {
    ($a:literal, $b:literal) => {
        $crate::instruction!(Dat.F $a, $b)
    };
}

/// A warrior that dies in its first turn.
pub const DIE: Instr = instruction!(Dat.F 0, 0);

/// A warrior that copies itself to the next cell.
pub const IMP: Instr = instruction!(Mov.I 0, 1);

/// A warrior that stays where it is.
pub const STAY: Instr = instruction!(Jmp.B 0, 0);

/// The settings that a command takes by default.
pub const USUAL: RawSettings = RawSettings {
    core: 8000,
    cycles: 80_000,
    processes: 8000,
    length: 100,
    distance: 100,
    rounds: 10,
    seed: 1,
    capacity: 20,
    read_limit: 0,
    write_limit: 0,
};

/// The settings of a hill of two, in a core of 64 cells.
pub const SMALL: RawSettings = RawSettings {
    core: 64,
    cycles: 100,
    processes: 8,
    length: 10,
    distance: 10,
    rounds: 2,
    seed: 1,
    capacity: 2,
    read_limit: 0,
    write_limit: 0,
};

pub fn dat(a: u16, b: u16) -> Instr {
    Instr { a, b, ..DIE }
}
