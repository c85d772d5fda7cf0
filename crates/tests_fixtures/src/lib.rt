//! What the crates of tests share: an allocator that refuses growths, streams that fail, settings and instructions, and an old hill.
//!
//! No crate of the program stands on this one. Nothing here says what is expected: that is the tests' part.
//!
//! - this module and `plan`: `Refusing`, an allocator that refuses the growths that a test names, and counts them. A growth is one call of
//!   `allocate`, so each larger block that a collection asks for is one;
//! - `reading`, `writing` and `interrupted`: readers and writers that fail, are full, or whose calls are each tried twice.
//!   A stream of the system does so seldom, and not when a test wants it;
//! - `warriors`: settings, and the instructions of warriors;
//! - `earlier_hill`: the device of a hill in the old format;
//! - `tables`: macros by which tests write their tables.
//!
//! What one growth does to a `Plan` is proved. No contract says what a cell holds, so that `Refusing` follows its plan,
//! and that it gives memory back, are shown by tests alone: `refusing` of `tests_base`, and each test that refuses
//! growths pins their count. Nor does one say what the streams do beyond the contracts of the traits: the tests that
//! use them pin it.
#![tactic(auto)]

ghost use Rattle.std.specs.Prelude.{◌≤◌};

pub mod earlier_hill;
mod interrupted;
mod plan;
mod reading;
mod tables;
mod warriors;
mod writing;

pub use interrupted::{Interrupted, one_by_one};
use plan::Plan;
pub use reading::{FailingReader, reader};
use std::alloc::{AllocError, Allocator};
use std::cell::Cell;
pub use warriors::{DIE, IMP, Instr, Mode, Modifier, Op, RawSettings, SMALL, STAY, USUAL, dat};
pub use writing::{FULL, Full, FullWriter, writer};

/// The most runs of `refuse_each`.
pub const MOST_RUNS: u64 = 1000;

/// Passes each growth on to `inner`, but for those that its plan refuses.
///
/// Lend it as `&memory`: a `&` to an allocator is an allocator and is `Copy`.
pub struct Refusing<B: Allocator> {
    inner: B,
    plan: Cell<Plan>,
}

impl<B: Allocator> Refusing<B> {
    /// Refuses nothing until it is told to.
    pub fn new(inner: B) -> Refusing<B> {
        Refusing {
            inner,
            plan: Cell::new(Plan::new(0, 0)),
        }
    }

    /// From now on passes `passed` growths on, refuses the next `refused`, and passes the rest on.
    /// `u64::MAX` stands for all later ones. The count starts again at 0.
    pub fn refuse(&self, passed: u64, refused: u64) {
        self.plan.set(Plan::new(passed, refused));
    }

    /// Refuses every growth from now on, and keeps the count.
    pub fn refuse_rest(&self) {
        self.plan.set(self.plan.get().refuse_rest());
    }

    /// How many growths were refused since the last `refuse`.
    pub fn refused(&self) -> u64 {
        self.plan.get().refused()
    }
}

impl<B: Allocator> Drop for Refusing<B> {
    fn drop(self) {
        let Self { inner: _, plan: _ } = self;
    }
}

/// Takes one growth into the plan, and says whether it is refused.
fn refuses(plan: &Cell<Plan>) -> bool {
    let before = plan.get();
    plan.set(before.after_growth());
    before.refuses_next()
}

unsafe impl<B: Allocator> Allocator for Refusing<B> {
    ghost dealloc_token = { λ heap ty ptr. B.dealloc_token heap.inner ty ptr };

    fn allocate(&self, size: usize, align: usize) -> Result<*mut u8, AllocError> {
        if refuses(&self.plan) {
            return Err(AllocError);
        }
        self.inner.allocate(size, align)
    }

    unsafe fn deallocate(&self, ptr: *mut u8, size: usize, align: usize) {
        self.inner.deallocate(ptr, size, align);
    }
}

/// Calls `call(k)` with growth `k` alone refused, for `k` from 0 on, until a run meets no refusal.
///
/// Answers how many runs there were, the last one too: a call of `n` growths has `n + 1` runs.
/// It stops at `MOST_RUNS`. Afterwards `memory` refuses nothing.
pub fn refuse_each<B: Allocator, F: FnMut(u64)>(memory: &Refusing<B>, mut call: F) -> u64
    requires { F.IsAlwaysCallable call }
    ensures some { 1 ≤ result }
    ensures bounded { result ≤ 1000 }
{
    for k in 0..MOST_RUNS {
        memory.refuse(k, 1);
        call(k);
        if memory.refused() == 0 {
            memory.refuse(0, 0);
            return k + 1;
        }
    }
    memory.refuse(0, 0);
    MOST_RUNS
}
