//! What a stop, or one fault, leaves of a hill of two that is moved to another device.

use crate::expecting::{expect_same, expect_the_rows};
use crate::hills::{blank_of, expect_fault, hill_on, image_of, moved_off, new_in, old_in};
use hill_store::Refusal;
use sector_disk::FuseKind;
use std::process::Abort;
use tests_stores::{SECTORS, TestMemory, Trial, lasting, migrate, run, tried};

/// Calls of the new device: a sync, two headers, four sectors for each of two slots, a sync, the header in sector 1,
/// and a sync.
const CALLS: u64 = 14;

/// Whether a new device that stopped after `calls` calls holds the hill: without the header that is written and not
/// synced, and with it.
fn due(calls: u64) -> (bool, bool) {
    match calls {
        0..=12 => (false, false),
        13 => (false, true),
        _ => (true, true),
    }
}

/// Whether a disk holds the hill. It holds no other.
fn holds_the_hill<M: TestMemory>(rt: &impl Abort, memory: M, disk: M::Disk) -> bool {
    match hill_on(rt, memory, lasting(memory, disk)) {
        Some(store) => {
            expect_the_rows(rt, store);
            true
        }
        None => false,
    }
}

/// How many images there are of what is written and not synced after `calls` calls: up to eight sectors of slots, or a
/// header.
fn images_of(calls: u64) -> u32 {
    match calls {
        4..=11 => 1 << (calls - 3),
        13 => 2,
        _ => 1,
    }
}

/// Keeps or loses each of the sectors 2 to 9, which are written first, and the header in sector 1, which is written
/// after their sync.
fn choice_of(kept: u32) -> [u32; 10] {
    let first = [kept % 2, kept / 2 % 2, kept / 4 % 2, kept / 8 % 2];
    let second = [kept / 16 % 2, kept / 32 % 2, kept / 64 % 2, kept / 128 % 2];
    let mut choice = [0; 10];
    choice[1] = kept % 2;
    choice[2..6].copy_from_slice(&first);
    choice[6..].copy_from_slice(&second);
    choice
}

/// Every image of a disk that stopped after `calls` calls holds what is due: each second one has the header.
fn expect_images<M: TestMemory>(rt: &impl Abort, memory: M, disk: &M::Disk, calls: u64) {
    let (lost, kept) = due(calls);
    for image in 0..images_of(calls) {
        let left = image_of(rt, disk, &choice_of(image));
        let found = holds_the_hill(rt, memory, left);
        let due = if image % 2 == 0 { lost } else { kept };
        expect_same(rt, &(image, calls, found), &(image, calls, due), "an image");
    }
}

/// A new device holds the hill, or it can be moved to that device again.
fn expect_goes_on<M: TestMemory>(rt: &impl Abort, memory: M, old: M::Device, new: M::Disk) {
    match migrate(memory, old, lasting(memory, new)) {
        Ok((old, store)) => {
            drop(old);
            expect_the_rows(rt, store);
        }
        Err((old, new, fault)) => {
            drop(old);
            expect_same(rt, &fault.refusal, &Refusal::Occupied, "a hill");
            assert!(rt; holds_the_hill(rt, memory, memory.within(new)));
        }
    }
}

/// What is left if the new device fails so after `calls` calls, and `made` were made. The old one still holds the hill,
/// which can be moved to a blank one.
fn expect_left<M: TestMemory>(rt: &impl Abort, memory: M, calls: u64, kind: FuseKind, made: u64) {
    let new = memory.failing(blank_of(rt, memory, SECTORS), calls, kind);
    let (old, new, fault) = tried(memory, old_in(rt, memory), new);
    expect_fault(rt, fault, calls < CALLS);
    let new = memory.within(new);
    expect_images(rt, memory, &new, made);
    let old = moved_off(rt, memory, old, new_in(rt, memory));
    expect_goes_on(rt, memory, old, new);
}

/// A stop at each call, and a fault at each one: the call that fails is lost, or it is made all the same.
struct Moves;

impl<R: Abort> Trial<R> for Moves {
    fn run<M: TestMemory>(rt: &R, memory: M, _: M) {
        for calls in 0..=CALLS {
            expect_left(rt, memory, calls, FuseKind::Stop, calls);
        }
        for calls in 0..CALLS {
            expect_left(rt, memory, calls, FuseKind::FailLost, calls);
            expect_left(rt, memory, calls, FuseKind::FailKept, calls + 1);
        }
    }
}

#[test]
fn a_stop_and_a_fault_at_each_call(rt: HostRuntime) {
    run::<HostRuntime, Moves>(&rt, rt.alloc());
}
