//! Counts of blocks that were worked out, until a counter or `CURLINE` changes.

use std::alloc::{AllocError, Allocator};
use std::marker::Model;

/// How many copies a count asked for, and the epoch in which it did.
#[derive(Clone, Copy)]
pub(crate) struct Stamped {
    epoch: u64,
    copies: u64,
}

/// What is kept, for each line of a source, of the count of its block.
#[derive(Drop)]
pub(crate) struct Counts<A: Allocator> {
    counts: Vec<Stamped, A>,
    /// Rises when a counter or `CURLINE` changes, or an `EQU` is added.
    epoch: u64,
}

impl<A: Allocator> Model for Counts<A> {
    ghost use Rattle.{std.specs.Prelude.{ℕ, map, All, List, Option}, redcode_expand.specs.Kept.{latest_of, IsStamped}};

    ghost Value = { List (Option ℕ) };

    ghost view = { λ c. map (latest_of c.epoch) c.counts.items };

    ghost invariant = { λ c. All (IsStamped c.epoch) c.counts.items };
}

impl<A: Allocator + Copy> Counts<A> {
    ghost use Rattle.std.specs.Prelude.{◌≡◌, ◌<◌, length, replicate, slice_set, IfOk, OnOk, None, Some};
    ghost use Rattle.redcode_expand.specs.Kept.{kept_at};

    /// Counts for this number of lines, of which none is kept.
    pub(crate) fn new(alloc: A, lines: usize) -> Result<Counts<A>, AllocError>
        ensures { IfOk result (λ counts. counts ≡ replicate lines None) }
    {
        let none = Stamped {
            epoch: 0,
            copies: 0,
        };
        let counts = vec![in alloc; none; lines]?;
        Ok(Counts { counts, epoch: 1 })
    }

    /// The count of the line at index `place` as it is now, if that was worked out since the last `rise`.
    pub(crate) fn at(&self, place: usize) -> Option<u64>
        requires { place < length self.now }
        ensures { result ≡ kept_at self.now place }
    {
        let stamped = self.counts[place];
        if stamped.epoch == self.epoch {
            Some(stamped.copies)
        } else {
            None
        }
    }

    /// Keeps the count of the line at index `place` until the next `rise`.
    pub(crate) fn learn(&mut self, place: usize, copies: u64)
        requires { place < length self.old }
        ensures { self.new ≡ slice_set self.old place (Some copies) }
    {
        let epoch = self.epoch;
        self.counts[place] = Stamped { epoch, copies };
    }

    /// Forgets all counts.
    pub(crate) fn rise(&mut self) -> Result<(), AllocError>
        ensures { OnOk result (self.new ≡ replicate (length self.old) None) }
    {
        if self.epoch == u64::MAX {
            return Err(AllocError);
        }
        self.epoch += 1;
        Ok(())
    }
}
