//! Hills that are moved from one device to another.

use crate::calls::{close, migrate};
use hill_store::{MigrateFault, Store};
use sector_disk::Device;
use std::alloc::Allocator;

/// What is told of a move that one side refuses: `refused!(Old, Refusal::Damaged)`.
#[macro_export]
macro_rules! refused {
    ($side:ident, $refusal:expr) => { $crate::MigrateFault { side: $crate::MigrateSide::$side, refusal: $refusal } };
}

/// The hill of a device in the old format, moved to another one, if it is moved. The old device comes back.
pub fn moved<O: Device + Drop, D: Device + Drop, A: Allocator + Copy>(
    alloc: A,
    old: O,
    new: D,
) -> Option<(O, Store<D, A>)> {
    match migrate(alloc, old, new) {
        Ok(moved) => Some(moved),
        Err((old, new, _)) => {
            drop(old);
            drop(new);
            None
        }
    }
}

/// Two devices after a move from one to the other, and why there was none, if there was none.
pub fn tried<O: Device + Drop, D: Device + Drop, A: Allocator + Copy>(
    alloc: A,
    old: O,
    new: D,
) -> (O, D, Option<MigrateFault>) {
    match migrate(alloc, old, new) {
        Ok((old, store)) => (old, close(store), None),
        Err((old, new, fault)) => (old, new, Some(fault)),
    }
}
