//! Growths of a device that takes its memory from an allocator that refuses them.

use crate::expecting::{answered_on, expect_reply, expect_rows, expect_same};
use crate::hills::{created_on, new_in, opened_on, small};
use hill_store::{Refusal, Reply};
use sector_disk::Device;
use std::process::Abort;
use tests_stores::{Counted, FIRST, ONE, TestMemory, close, create};

/// A device in memory takes a growth at the first write to a sector, as of the header of a hill that is created. A
/// warrior is placed on the hill that is created there then.
fn expect_none_created<M: TestMemory>(rt: &impl Abort, memory: M, disks: M) {
    let device = new_in(rt, disks);
    disks.refuse(0, 1);
    match create(memory, device, small(rt)) {
        Ok(store) => drop(store),
        Err((device, refusal)) => {
            expect_same(
                rt,
                &(device.faults(), refusal),
                &(1, Refusal::Disk),
                "one fault",
            );
            drop(answered_on(rt, memory, device, &ONE));
        }
    }
    expect_same(rt, &disks.refused(), &1, "growths of a device refused");
}

/// The hill that is opened on a device has no warrior, and one is placed there.
fn expect_empty<M: TestMemory>(rt: &impl Abort, memory: M, device: M::Device) {
    let mut store = opened_on(rt, memory, device);
    expect_rows(rt, &store, 0);
    expect_reply(rt, &mut store, b"MOV 0,1", FIRST);
    drop(store);
}

/// A growth of the device's memory, the first of these numbers, is refused while a warrior is submitted. The other one
/// is that of the calls for which the device was asked.
fn expect_refused<M: TestMemory>(rt: &impl Abort, memory: M, disks: M, growth: (u64, u64)) {
    let (k, calls) = growth;
    let mut store = created_on(rt, memory, new_in(rt, disks));
    disks.refuse(k, 1);
    expect_reply(rt, &mut store, b"MOV 0,1", Reply::Disk);
    expect_reply(rt, &mut store, b"MOV 0,1", Reply::Reopen);
    expect_rows(rt, &store, 0);
    let device = close(store);
    let found = (device.calls(), disks.refused());
    expect_same(rt, &found, &(calls, 1), "calls");
    expect_empty(rt, memory, device);
}

/// No growth of the device's memory is the sixth while a warrior is submitted.
fn expect_no_more<M: TestMemory>(rt: &impl Abort, memory: M, disks: M) {
    let mut store = created_on(rt, memory, new_in(rt, disks));
    disks.refuse(5, 1);
    expect_reply(rt, &mut store, b"MOV 0,1", FIRST);
    expect_same(rt, &disks.refused(), &0, "growths of a device refused");
    disks.refuse(0, 0);
    drop(store);
}

/// Growths of the device's memory, and the calls that it was asked for if one of them is refused.
static REFUSED: [(u64, u64); 5] = [(0, 5 + 1), (1, 5 + 2), (2, 5 + 3), (3, 5 + 4), (4, 5 + 6)];

/// A warrior is placed by the first writes to the four sectors of a slot, and, after a sync, to a header's: five
/// growths. The store whose device found no memory is as it was before, and so is the hill that is opened on its
/// device. It calls its device no more: creating the hill made five calls.
pub(super) fn expect_device_growths<M: TestMemory>(rt: &impl Abort, memory: M, disks: M) {
    expect_none_created(rt, memory, disks);
    for refused in &REFUSED {
        expect_refused(rt, memory, disks, *refused);
    }
    expect_no_more(rt, memory, disks);
}
