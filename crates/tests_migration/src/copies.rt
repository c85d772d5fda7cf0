//! A copy of a hill on another device.

use crate::expecting::expect_same;
use crate::hills::{blank_of, counted, created_on, hill_on, new_in};
use hill_store::{Refusal, Store};
use sector_disk::{Device, FuseKind};
use std::alloc::Allocator;
use std::process::Abort;
use tests_stores::{SECTORS, SMALL, TWO, TestMemory, Trial, copy, lasting, run, submit};

/// Calls of the new device when a hill of two warriors is copied: a sync and both headers, four sectors of each
/// warrior, a sync, a header, a sync.
const COPYING: u64 = 3 + 8 + 3;

/// A store of a hill with two warriors, on this device.
fn two_on<D: Device + Drop, A: Allocator + Copy>(
    rt: &impl Abort,
    alloc: A,
    device: D,
) -> Store<D, A> {
    let mut store = created_on(rt, alloc, device, SMALL);
    for (source, reply) in &TWO {
        expect_same(rt, &submit(&mut store, *source), reply, "a reply");
    }
    store
}

/// How many warriors are on the hill of a device, if it holds one, and whether all its results are true.
fn found_on<D: Device + Drop, A: Allocator + Copy>(
    rt: &impl Abort,
    alloc: A,
    device: D,
) -> Option<(usize, bool)> {
    match hill_on(rt, alloc, device) {
        Some(store) => Some(counted(store)),
        None => None,
    }
}

/// A copy is made on a device that holds no hill, and no second one. A device that is too small gets none.
fn expect_copied<D: Device, S: Device, N: Device, A: Allocator>(
    rt: &impl Abort,
    store: &Store<D, A>,
    small: &mut S,
    new: &mut N,
) {
    let found = (copy(store, small), copy(store, new), copy(store, new));
    let due = (Err(Refusal::TooSmall), Ok(()), Err(Refusal::Occupied));
    expect_same(rt, &found, &due, "three copies");
}

/// A copy is made though each growth of the store's memory is refused, and it asks for none. The devices are in other
/// memory.
fn expect_copied_without<M: TestMemory>(rt: &impl Abort, memory: M, disks: M) {
    let store = two_on(rt, memory, new_in(rt, disks));
    let mut small = lasting(disks, blank_of(rt, disks, SECTORS - 1));
    let mut new = new_in(rt, disks);
    memory.refuse(0, u64::MAX);
    expect_copied(rt, &store, &mut small, &mut new);
    drop(small);
    drop(store);
    let found = (found_on(rt, disks, new), memory.refused());
    expect_same(rt, &found, &(Some((2, true)), 0), "the copy");
}

/// Copying to a device that stops or fails after `calls` calls leaves no hill there, or the whole of it.
fn expect_cut<M: TestMemory>(
    rt: &impl Abort,
    memory: M,
    store: &Store<M::Device, M>,
    calls: u64,
    kind: FuseKind,
) {
    let is_cut = calls < COPYING;
    let mut device = memory.failing(blank_of(rt, memory, SECTORS), calls, kind);
    let due = if is_cut { Err(Refusal::Disk) } else { Ok(()) };
    expect_same(rt, &copy(store, &mut device), &due, "a copy");
    let found = found_on(rt, memory, lasting(memory, memory.within(device)));
    assert!(rt; found == Some((2, true)) || found.is_none() && is_cut);
}

/// Wherever copying stops, the device holds no hill, or the whole of it; and so at each call that fails.
fn expect_cuts<M: TestMemory>(rt: &impl Abort, memory: M) {
    let store = two_on(rt, memory, new_in(rt, memory));
    for calls in 0..COPYING + 1 {
        expect_cut(rt, memory, &store, calls, FuseKind::Stop);
        expect_cut(rt, memory, &store, calls, FuseKind::FailLost);
        expect_cut(rt, memory, &store, calls, FuseKind::FailKept);
    }
    drop(store);
}

/// Copies that are stopped, and one without memory.
struct Copies;

impl<R: Abort> Trial<R> for Copies {
    fn run<M: TestMemory>(rt: &R, memory: M, disks: M) {
        expect_cuts(rt, disks);
        expect_copied_without(rt, memory, disks);
    }
}

#[test]
fn copies_that_are_stopped_or_have_no_memory(rt: HostRuntime) {
    run::<HostRuntime, Copies>(&rt, rt.alloc());
}
