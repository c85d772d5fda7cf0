//! Devices, and hills of two on them, as the tests make them. What is to be done and isn't ends the test at once.

use hill_store::Store;
use sector_disk::{Device, FuseKind};
use std::alloc::Allocator;
use std::process::Abort;
use tests_stores::{Disk, SECTORS, SMALL, TestMemory, created, lasting, opened, settings_from};
use war_types::Settings;

/// A blank disk for a hill of two.
pub(crate) fn blank_in<M: TestMemory>(rt: &impl Abort, memory: M) -> M::Disk {
    memory.blank(SECTORS).expect(rt, "there is memory")
}

/// A device over such a disk.
pub(crate) fn new_in<M: TestMemory>(rt: &impl Abort, memory: M) -> M::Device {
    lasting(memory, blank_in(rt, memory))
}

/// A device over such a disk that stops or fails after `calls` calls.
pub(crate) fn blank_within<M: TestMemory>(
    rt: &impl Abort,
    memory: M,
    calls: u64,
    kind: FuseKind,
) -> M::Device {
    memory.failing(blank_in(rt, memory), calls, kind)
}

/// A device over what a disk keeps that stops, if this is chosen of what it need not keep.
pub(crate) fn image_of<M: TestMemory>(
    rt: &impl Abort,
    memory: M,
    disk: &M::Disk,
    choice: &[u32],
) -> M::Device {
    lasting(memory, disk.image(choice).expect(rt, "there is memory"))
}

/// The settings of a hill of two.
pub(crate) fn small(rt: &impl Abort) -> Settings {
    settings_from(SMALL).expect(rt, "they are settings")
}

/// A hill of two without warriors, on a device that held none.
pub(crate) fn created_on<D: Device + Drop, A: Allocator + Copy>(
    rt: &impl Abort,
    alloc: A,
    device: D,
) -> Store<D, A> {
    created(alloc, device, small(rt)).expect(rt, "it is created")
}

/// The hill that a device holds.
pub(crate) fn opened_on<D: Device + Drop, A: Allocator + Copy>(
    rt: &impl Abort,
    alloc: A,
    device: D,
) -> Store<D, A> {
    opened(alloc, device).expect(rt, "it opens")
}
