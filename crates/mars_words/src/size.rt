//! The size of a core, and the numbers below it.

ghost use Rattle.std.specs.Prelude.{◌≡◌, ◌<◌, ◌≤◌, IfSome};
ghost use Rattle.mars_words.specs.{Numbers.{plus, minus, folded, combined}, Code.arithmetic_of};

use crate::arithmetic::Arithmetic;
use std::marker::Model;

/// The number of a core's cells, at most 65,535: in 32 bits, as its addresses are.
#[derive(Clone, Copy)]
pub struct Size {
    cells: u32,
}

impl Model for Size {
    ghost use Rattle.std.specs.Prelude.{ℕ, ◌≤◌};

    ghost Value = { ℕ };

    ghost view = { λ s. s.cells };

    ghost invariant = { λ s. s.cells ≤ 65535 };

    ghost inverse = { λ n. record { cells = n } };
}

impl Size {
    /// The size of a core of `cells` cells.
    #[inline(always)]
    pub fn of(cells: u16) -> Size
        ensures { result ≡ cells }
    {
        Size {
            cells: u32::from(cells),
        }
    }

    /// The sum of two numbers. It is past the core once at most, so nothing is divided: the sum and the sum without the
    /// core's cells, which wraps if it is negative, are both computed, and the lesser one is taken without a branch.
    #[inline(always)]
    pub fn plus(self, m: u32, n: u32) -> u32
        requires m { m < self }
        requires n { n ≤ self }
        ensures value { result ≡ plus self m n }
        ensures below { result < self }
    {
        let sum = m + n;
        let less = sum.wrapping_sub(self.cells);
        if less < sum { less } else { sum }
    }

    /// The number after one: 0 after the last.
    #[inline(always)]
    pub fn next(self, m: u32) -> u32
        requires m { m < self }
        ensures value { result ≡ plus self m 1 }
        ensures below { result < self }
    {
        let next = m + 1;
        if next == self.cells { 0 } else { next }
    }

    /// The difference of two numbers.
    #[inline(always)]
    pub fn minus(self, m: u32, n: u32) -> u32
        requires m { m < self }
        requires n { n ≤ self }
        ensures value { result ≡ minus self m n }
        ensures below { result < self }
    {
        let difference = m.wrapping_sub(n);
        let more = difference.wrapping_add(self.cells);
        if more < difference { more } else { difference }
    }

    /// A number of the B operand with one of the A operand; `None` for a division by 0.
    #[inline(always)]
    pub fn combined(self, arithmetic: Arithmetic, y: u32, x: u32) -> Option<u32>
        requires x { x < self }
        requires y { y < self }
        ensures value { result ≡ combined self (arithmetic_of arithmetic) y x }
        ensures below { IfSome result (λ n. n < self) }
    {
        match arithmetic {
            Arithmetic::Sum => Some(self.plus(y, x)),
            Arithmetic::Difference => Some(self.minus(y, x)),
            Arithmetic::Product => Some(y * x % self.cells),
            Arithmetic::Quotient => y.checked_div(x),
            Arithmetic::Remainder => y.checked_rem(x),
        }
    }

    /// A pointer within a limit: it leads at most half of the limit forwards, and the rest backwards.
    #[inline(always)]
    pub fn folded(self, limit: u32, pointer: u32) -> u32
        requires least { 1 ≤ limit }
        requires most { limit ≤ self }
        ensures value { result ≡ folded self limit pointer }
        ensures below { result < self }
    {
        let rest = pointer % limit;
        if rest > limit / 2 {
            rest + (self.cells - limit)
        } else {
            rest
        }
    }
}
