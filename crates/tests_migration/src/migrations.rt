//! A hill of two that is moved from a device in the old format to another one.

use crate::expecting::{expect_equal, expect_same, expect_the_rows};
use crate::hills::{blank_of, content_of, image_of, moved_off, new_in, old_disk, old_in};
use sector_disk::Device;
use std::process::Abort;
use tests_stores::{
    Counted, Disk, SECTORS, TestMemory, Trial, close, fell, holds, lasting, moved, opened, run,
    submit,
};

/// The old device is asked for a sync, two headers and two sectors of each slot. The new one is asked for a sync, two
/// headers, four sectors of each slot, a sync, a header and a sync, and then for what a warrior that falls makes. It is
/// answered at once, as on a hill that was opened.
fn expect_calls<M: TestMemory>(rt: &impl Abort, memory: M) {
    let moved = moved(memory, old_in(rt, memory), new_in(rt, memory));
    let (old, mut store) = moved.expect(rt, "it is moved");
    expect_same(rt, &submit(&mut store, b"MOV 0,1"), &fell!(4, 4), "a reply");
    let new = close(store);
    expect_same(rt, &(old.calls(), new.calls()), &(7, 14 + 2), "calls");
    drop(old);
    drop(new);
}

/// A disk in the old format that holds what this one does. Nothing of it is synced.
fn unsynced<M: TestMemory>(rt: &impl Abort, memory: M, whole: &mut M::Disk) -> M::Disk {
    let mut disk = blank_of(rt, memory, 8);
    for n in 0..8 {
        let content = content_of(rt, whole, n);
        assert!(rt; n < disk.sectors(), "it has the sector");
        disk.write(n, &content).expect(rt, "there is memory");
    }
    disk
}

/// What a move read of the old device has reached its disk, so a stop leaves the whole of it.
fn expect_synced<M: TestMemory>(rt: &impl Abort, memory: M) {
    let mut whole = old_disk(rt, memory);
    let old = lasting(memory, unsynced(rt, memory, &mut whole));
    let old = memory.within(moved_off(rt, memory, old, new_in(rt, memory)));
    let left = image_of(rt, &old, &[]);
    drop(old);
    expect_equal(rt, left, whole);
}

/// A disk for a hill of two, each of whose sectors holds this byte alone.
fn filled<M: TestMemory>(rt: &impl Abort, memory: M, byte: u8) -> M::Disk {
    let mut disk = blank_of(rt, memory, SECTORS);
    for n in 0..SECTORS {
        disk.put(n, &[byte; 512]).expect(rt, "it has the sector");
    }
    disk
}

/// Sectors of a new device that hold no header may hold anything. A slot that no warrior has keeps it.
fn expect_filled<M: TestMemory>(rt: &impl Abort, memory: M) {
    let new = lasting(memory, filled(rt, memory, 0xFF));
    let moved = moved(memory, old_in(rt, memory), new);
    let (old, store) = moved.expect(rt, "it is moved");
    drop(old);
    let mut new = close(store);
    let found = holds(&mut new, 10, &[0xFF; 512]);
    expect_same(rt, &found, &Ok(true), "a sector of a free slot");
    let store = opened(memory, new);
    expect_the_rows(rt, store.expect(rt, "it opens"));
}

/// The calls of both devices, an old device that is synced, and a new one that is not blank.
struct Migrations;

impl<R: Abort> Trial<R> for Migrations {
    fn run<M: TestMemory>(rt: &R, memory: M, _: M) {
        expect_calls(rt, memory);
        expect_synced(rt, memory);
        expect_filled(rt, memory);
    }
}

#[test]
fn calls_syncs_and_a_new_device_that_is_not_blank(rt: HostRuntime) {
    run::<HostRuntime, Migrations>(&rt, rt.alloc());
}
