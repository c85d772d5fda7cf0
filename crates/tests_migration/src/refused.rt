//! Devices between which no hill is moved.

use crate::expecting::{expect_equal, expect_same};
use crate::hills::{
    blank_of, content_of, created_on, image_of, moved_off, new_in, old_disk, old_in, written,
};
use hill_store::Refusal;
use sector_disk::FuseKind;
use std::process::Abort;
use tests_stores::{
    Counted, Disk, SECTORS, SMALL, TestMemory, Trial, close, lasting, refusal_to_create, refused,
    run, settings_from, tried,
};

/// No hill is moved to this disk. Both come back as they were.
fn expect_new_refused<M: TestMemory>(rt: &impl Abort, memory: M, new: M::Disk, refusal: Refusal) {
    let before = image_of(rt, &new, &[]);
    let (old, new, fault) = tried(memory, old_in(rt, memory), lasting(memory, new));
    expect_same(rt, &fault, &Some(refused!(New, refusal)), "a fault");
    expect_equal(rt, memory.within(new), before);
    expect_equal(rt, memory.within(old), old_disk(rt, memory));
}

/// A disk with this header of a hill in the old format, and room for the new one.
fn with_old_header<M: TestMemory>(rt: &impl Abort, memory: M, n: u32) -> M::Disk {
    let mut old = old_disk(rt, memory);
    let header = content_of(rt, &mut old, n);
    drop(old);
    let mut disk = blank_of(rt, memory, SECTORS);
    disk.put(n, &header).expect(rt, "it has the sector");
    disk
}

/// A disk with this header of a hill in the old format is occupied, for a creation too.
fn expect_occupied<M: TestMemory>(rt: &impl Abort, memory: M, n: u32) {
    let disk = with_old_header(rt, memory, n);
    let other = lasting(memory, image_of(rt, &disk, &[]));
    expect_new_refused(rt, memory, disk, Refusal::Occupied);
    let settings = settings_from(SMALL).expect(rt, "they are settings");
    let refusal = refusal_to_create(memory, other, settings);
    let due = Some(Refusal::Occupied);
    expect_same(rt, &(n, refusal), &(n, due), "a header and a refusal");
}

/// New devices that are refused: one that is too small, and those that a hill occupies. Of a hill in the old format,
/// one header in its sector is enough.
fn expect_no_new<M: TestMemory>(rt: &impl Abort, memory: M) {
    let small = blank_of(rt, memory, SECTORS - 1);
    expect_new_refused(rt, memory, small, Refusal::TooSmall);
    let empty = created_on(rt, memory, new_in(rt, memory), SMALL);
    expect_new_refused(rt, memory, memory.within(close(empty)), Refusal::Occupied);
    expect_new_refused(rt, memory, written(rt, memory), Refusal::Occupied);
    expect_occupied(rt, memory, 0);
    expect_occupied(rt, memory, 1);
}

/// No hill is moved from this device, and the other one is not asked for anything, too small as it is.
fn expect_old_refused<M: TestMemory>(rt: &impl Abort, memory: M, old: M::Device, refusal: Refusal) {
    let new = lasting(memory, blank_of(rt, memory, 1));
    let (old, new, fault) = tried(memory, old, new);
    let due = (Some(refused!(Old, refusal)), 0);
    expect_same(rt, &(fault, new.calls()), &due, "a fault, and calls");
    drop(old);
    drop(new);
}

/// Sectors of a blank old device, and how it is refused. Harmed and cut ones are in `bench/transcripts`.
static BLANK: [(u32, Refusal); 2] = [(1, Refusal::TooSmall), (8, Refusal::NotAHill)];

/// Old devices that are refused: blank ones, and one in the new format.
fn expect_no_old<M: TestMemory>(rt: &impl Abort, memory: M) {
    for (sectors, refusal) in &BLANK {
        let old = lasting(memory, blank_of(rt, memory, *sectors));
        expect_old_refused(rt, memory, old, *refusal);
    }
    let newer = lasting(memory, written(rt, memory));
    expect_old_refused(rt, memory, newer, Refusal::NotAHill);
}

/// The device in the old format, which stops after `calls` calls.
fn stopping<M: TestMemory>(rt: &impl Abort, memory: M, calls: u64) -> M::Device {
    memory.failing(old_disk(rt, memory), calls, FuseKind::Stop)
}

/// Each of the seven calls that read the old device may fail.
fn expect_failing_old<M: TestMemory>(rt: &impl Abort, memory: M) {
    for calls in 0..7 {
        let old = stopping(rt, memory, calls);
        expect_old_refused(rt, memory, old, Refusal::Disk);
    }
    let old = stopping(rt, memory, 7);
    drop(moved_off(rt, memory, old, new_in(rt, memory)));
}

/// New devices that are refused, old ones that are, and an old one that fails.
struct NoneMoved;

impl<R: Abort> Trial<R> for NoneMoved {
    fn run<M: TestMemory>(rt: &R, memory: M, _: M) {
        expect_no_new(rt, memory);
        expect_no_old(rt, memory);
        expect_failing_old(rt, memory);
    }
}

#[test]
fn new_and_old_devices_that_are_refused(rt: HostRuntime) {
    run::<HostRuntime, NoneMoved>(&rt, rt.alloc());
}
