//! The steps of an expansion.
//!
//! A source's lines are read, marked and compared once before the first step: they have 65,536 bytes at most. From then on each loop over
//! tokens, labels, bytes or counters is paid for:
//!
//! - A visit to a line takes a step, one for each of its tokens and one for each 32 bytes of a token (`visit_steps`). These pay for the
//!   copy of the line, its labels, the body of an `EQU`, the tokens of a count, what is kept of the line, and what it says once it is
//!   written out. A line with an `&` within blocks takes its tokens once more for each block and for each 16 bytes of it.
//! - A `FOR` takes the steps of its `ROF` too: where no copy is due that is read with it.
//! - A count that is worked out, and the operands of a written line, take one for each token that a name of an `EQU` becomes, in each
//!   round, and one for each 32 bytes of it (`work`).
//! - A further copy takes one for each 32 bytes of its counter's name, which is looked up again.

ghost use Rattle.std.specs.Prelude.{◌≡◌, ◌≤◌, ◌<◌, ◌+◌, nat_eq, OnOk};
ghost use Rattle.redcode_expand.specs.Budget.{line_steps};

use std::alloc::AllocError;
use std::marker::Model;

/// More than the steps of a line, of a source of this length: its tokens are read for each block that is open, and then replaced.
pub(crate) fn line_steps(length: usize) -> u64
    requires { length ≤ 65536 }
    ensures steps { result ≡ line_steps length }
    ensures some { 0 < result }
{
    let length = length as u64;
    (length + 1) * (length + 16_385)
}

/// A budget of steps. What counts as one: a token that is read, replaced or worked out, 32 bytes of a name that is looked up, a line that
/// is walked over.
#[derive(Drop)]
pub struct Steps {
    left: u64,
}

impl Model for Steps {
    ghost use Rattle.std.specs.Prelude.{ℕ};

    ghost Value = { ℕ };

    ghost view = { λ s. s.left };
}

impl Steps {
    /// A budget of this number of steps.
    pub fn new(steps: u64) -> Steps
        ensures { result ≡ steps }
    {
        Steps { left: steps }
    }

    /// Whether none is left.
    pub fn are_spent(&self) -> bool
        ensures { result ≡ nat_eq self.now 0 }
    {
        self.left == 0
    }

    /// What is left at least after something that takes `most` steps at most.
    pub(crate) fn floor(&self, most: u64) -> u64
        ensures low { result ≤ self.now }
        ensures few { self.now ≤ result + most }
        ensures less { 0 < most → 0 < self.now → result < self.now }
    {
        self.left.saturating_sub(most)
    }

    /// Takes steps, down to a floor. It fails if none is left.
    pub(crate) fn spend(&mut self, steps: u64, floor: u64) -> Result<(), AllocError>
        requires { floor ≤ self.old }
        ensures low { floor ≤ self.new }
        ensures less { self.new ≤ self.old }
        ensures few { self.old ≤ self.new + steps }
        ensures some { OnOk result (0 < self.new) }
        ensures spent { OnOk result (0 < steps → floor < self.old → self.new < self.old) }
    {
        self.left -= steps.min(self.left - floor);
        if self.left == 0 {
            return Err(AllocError);
        }
        Ok(())
    }
}
