//! Growths of memory of a move that are refused.

use crate::expecting::{expect_same, expect_the_rows};
use crate::hills::{moved_off, new_in, old_in};
use hill_store::{MigrateFault, Refusal};
use std::process::Abort;
use tests_stores::{TestMemory, Trial, migrate, refused, run};

/// An arena takes four growths, the members one and the codes of two warriors two, to open the hill. The eight sectors
/// of their slots and a header's take one each in the new device.
fn fault_at(k: u64) -> Option<MigrateFault> {
    match k {
        0..=6 => Some(refused!(Old, Refusal::Memory)),
        7..=15 => Some(refused!(New, Refusal::Disk)),
        _ => None,
    }
}

/// Growth `k` was refused with this fault, or there is no such growth. None is refused from now on.
fn expect_fault<M: TestMemory>(rt: &impl Abort, memory: M, k: u64, fault: Option<MigrateFault>) {
    let found = (k, fault, memory.refused() == 1);
    let due = (k, fault_at(k), fault.is_some());
    expect_same(rt, &found, &due, "a growth");
    memory.refuse(0, 0);
}

/// Growth `k` of a move is refused, and then none. The new device has its memory from where the store has it.
fn expect_growth<M: TestMemory>(rt: &impl Abort, memory: M, k: u64) {
    let (old, new) = (old_in(rt, memory), new_in(rt, memory));
    memory.refuse(k, 1);
    match migrate(memory, old, new) {
        Ok((old, store)) => {
            drop(old);
            expect_fault(rt, memory, k, None);
            expect_the_rows(rt, store);
        }
        Err((old, new, fault)) => {
            expect_fault(rt, memory, k, Some(fault));
            drop(moved_off(rt, memory, old, new));
        }
    }
}

/// Each growth of a move is refused.
struct Growths;

impl<R: Abort> Trial<R> for Growths {
    fn run<M: TestMemory>(rt: &R, memory: M, _: M) {
        for k in 0..=16 {
            expect_growth(rt, memory, k);
        }
    }
}

#[test]
fn each_growth_of_a_move(rt: HostRuntime) {
    run::<HostRuntime, Growths>(&rt, rt.alloc());
}
