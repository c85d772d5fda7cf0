//! Devices in memory, and hills on them, as the tests make them. What is to be done and isn't ends the test at once.

use crate::expecting::{expect_same, expect_the_rows};
use hill_store::{MigrateFault, Refusal, Store};
use sector_disk::Device;
use std::alloc::Allocator;
use std::process::Abort;
use tests_stores::{
    Disk, SECTORS, SMALL, THREE, TestMemory, audit, close, created, lasting, moved, narrowed, open,
    refused, sector, settings_from, submit,
};
use war_types::RawSettings;

/// A blank disk of `sectors` sectors.
pub(crate) fn blank_of<M: TestMemory>(rt: &impl Abort, memory: M, sectors: u32) -> M::Disk {
    memory.blank(sectors).expect(rt, "there is memory")
}

/// A device over a blank disk for a hill of two.
pub(crate) fn new_in<M: TestMemory>(rt: &impl Abort, memory: M) -> M::Device {
    lasting(memory, blank_of(rt, memory, SECTORS))
}

/// What a disk keeps that stops, if this is chosen of what it need not keep.
pub(crate) fn image_of<D: Disk>(rt: &impl Abort, disk: &D, choice: &[u32]) -> D {
    disk.image(choice).expect(rt, "there is memory")
}

/// What a device reads at one of its sectors.
pub(crate) fn content_of<D: Device>(rt: &impl Abort, device: &mut D, n: u32) -> [u8; 512] {
    sector(device, n).expect(rt, "it has the sector")
}

/// A hill without warriors, with these settings, on a device that held none.
pub(crate) fn created_on<D: Device + Drop, A: Allocator + Copy>(
    rt: &impl Abort,
    alloc: A,
    device: D,
    raw: RawSettings,
) -> Store<D, A> {
    let settings = settings_from(raw).expect(rt, "they are settings");
    created(alloc, device, settings).expect(rt, "it is created")
}

/// A hill of two, on which a third warrior fell: headers of the generations 2 and 3, and two slots.
pub(crate) fn written<M: TestMemory>(rt: &impl Abort, memory: M) -> M::Disk {
    let mut store = created_on(rt, memory, new_in(rt, memory), SMALL);
    for (source, reply) in &THREE {
        expect_same(rt, &submit(&mut store, *source), reply, "a reply");
    }
    memory.within(close(store))
}

/// A disk in the old format with that hill.
pub(crate) fn old_disk<M: TestMemory>(rt: &impl Abort, memory: M) -> M::Disk {
    let mut new = written(rt, memory);
    let old = narrowed(memory, &mut new, 3).expect(rt, "it has room");
    drop(new);
    old
}

/// A device over that disk.
pub(crate) fn old_in<M: TestMemory>(rt: &impl Abort, memory: M) -> M::Device {
    lasting(memory, old_disk(rt, memory))
}

/// The new device of a move failed, or nothing did.
pub(crate) fn expect_fault(rt: &impl Abort, fault: Option<MigrateFault>, fails: bool) {
    let due = if fails {
        Some(refused!(New, Refusal::Disk))
    } else {
        None
    };
    expect_same(rt, &fault, &due, "a fault");
}

/// The hill that a device holds, if it holds one. What it holds else is no hill.
pub(crate) fn hill_on<D: Device + Drop, A: Allocator + Copy>(
    rt: &impl Abort,
    alloc: A,
    device: D,
) -> Option<Store<D, A>> {
    match open(alloc, device) {
        Ok(store) => Some(store),
        Err((device, refusal)) => {
            drop(device);
            expect_same(rt, &refusal, &Refusal::NotAHill, "no hill");
            None
        }
    }
}

/// How many warriors are on the hill of a store, and whether all its results are true. The store is dropped.
pub(crate) fn counted<D: Device + Drop, A: Allocator + Copy>(
    mut store: Store<D, A>,
) -> (usize, bool) {
    let found = (store.hill().len(), audit(&mut store));
    drop(store);
    found
}

/// The hill of two is moved from one of these devices to the other. The old one comes back.
pub(crate) fn moved_off<O: Device + Drop, D: Device + Drop, A: Allocator + Copy>(
    rt: &impl Abort,
    alloc: A,
    old: O,
    new: D,
) -> O {
    let moved = moved(alloc, old, new);
    let (old, store) = moved.expect(rt, "it is moved");
    expect_the_rows(rt, store);
    old
}
