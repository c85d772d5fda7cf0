//! The two numbers of an instruction, and the pairs of them that a modifier names.

ghost use Rattle.std.specs.Prelude.{◌≡◌};
ghost use Rattle.mars_words.specs.{Pairs.pairs, Code.listed};

use war_types::Modifier;

/// One of the two numbers of an instruction.
#[derive(Clone, Copy, PartialEq, Eq)]
pub enum Field {
    A,
    B,
}

/// A number of the A operand's register, with a number of the B operand's register or target.
#[derive(Clone, Copy, PartialEq, Eq)]
pub struct Pair {
    pub source: Field,
    pub target: Field,
}

const A_TO_A: Pair = Pair {
    source: Field::A,
    target: Field::A,
};

const B_TO_B: Pair = Pair {
    source: Field::B,
    target: Field::B,
};

const A_TO_B: Pair = Pair {
    source: Field::A,
    target: Field::B,
};

const B_TO_A: Pair = Pair {
    source: Field::B,
    target: Field::A,
};

/// The pairs that a modifier names, in the order in which they are written.
#[derive(Clone, Copy, PartialEq, Eq)]
pub enum Paired {
    One(Pair),
    Two(Pair, Pair),
}

/// The pairs that a modifier names.
#[inline(always)]
pub fn pairs(modifier: Modifier) -> Paired
    ensures { listed result ≡ pairs modifier }
{
    match modifier {
        Modifier::A => Paired::One(A_TO_A),
        Modifier::B => Paired::One(B_TO_B),
        Modifier::AB => Paired::One(A_TO_B),
        Modifier::BA => Paired::One(B_TO_A),
        Modifier::F | Modifier::I => Paired::Two(A_TO_A, B_TO_B),
        Modifier::X => Paired::Two(A_TO_B, B_TO_A),
    }
}
