//! Growths of memory that are refused, one by one, of a creation, an opening, a submission and a table. `devices` has
//! growths of the device's memory, and `lists` growths of a list of submissions. `stinting` shows that there are none
//! after the first call of the device.
//!
//! The store has its memory from one allocator, and its device from another, but for `lists`.

use crate::expecting::{answered, expect_calls, expect_reply, expect_same};
use crate::hills::{created_on, image_of, new_in, small};
use devices::expect_device_growths;
use hill_store::{Refusal, Reply, Store};
use lists::expect_list_growths;
use std::process::Abort;
use stinting::expect_none_after_a_call;
use tests_stores::{
    FIRST, Numbers, ONE, TestMemory, Trial, refusal_to_create, refusal_to_open, row_at, run,
    submit, tried_reply,
};

mod devices;
mod lists;
mod stinting;

/// What is due of `count` growths if growth `k` is refused: a refusal for one growth, or none.
fn due(k: u64, count: u64) -> (Option<Refusal>, u64) {
    if k < count {
        (Some(Refusal::Memory), 1)
    } else {
        (None, 0)
    }
}

/// A hill is created with growth `k` of five refused: that is answered `Memory`, or there is no such growth.
fn expect_creation<M: TestMemory>(rt: &impl Abort, memory: M, disks: M, k: u64) {
    let device = new_in(rt, disks);
    memory.refuse(k, 1);
    let refusal = refusal_to_create(memory, device, small(rt));
    let found = (refusal, memory.refused());
    expect_same(rt, &found, &due(k, 5), "a creation");
}

/// The hill of a disk is opened with growth `k` of six refused: that is answered `Memory`, or there is no such growth.
fn expect_opening<M: TestMemory>(rt: &impl Abort, memory: M, disk: &M::Disk, k: u64) {
    let image = image_of(rt, memory, disk, &[]);
    memory.refuse(k, 1);
    let found = (refusal_to_open(memory, image), memory.refused());
    expect_same(rt, &found, &due(k, 6), "an opening");
}

/// Each growth of a creation: the members, and an arena's cells, the list of the written ones, and two queues. Then
/// each growth of an opening: these, and the code of the one warrior.
fn expect_hill_growths<M: TestMemory>(rt: &impl Abort, memory: M, disks: M) {
    for k in 0..6 {
        expect_creation(rt, memory, disks, k);
    }
    let disk = answered(rt, disks, &ONE);
    for k in 0..7 {
        expect_opening(rt, memory, &disk, k);
    }
    drop(disk);
    memory.refuse(0, 0);
}

/// What a source is answered at once, if it is.
fn reply_at_once<M: TestMemory>(store: &Store<M::Device, M>) -> Option<Reply> {
    match store.begin(b"MOV 0,1", None) {
        Some(Err(reply)) => Some(reply),
        Some(Ok(_)) | None => None,
    }
}

/// What is due of the ten growths of a source if growth `k` is refused: `Memory`, or this reply without a refusal.
fn due_reply(k: u64, reply: Option<Reply>) -> (Option<Reply>, u64) {
    if k < 10 {
        (Some(Reply::Memory), 1)
    } else {
        (reply, 0)
    }
}

/// A source is begun, tried and submitted, and each time growth `k` is refused.
fn expect_growth<M: TestMemory>(
    rt: &impl Abort,
    memory: M,
    store: &mut Store<M::Device, M>,
    k: u64,
) {
    memory.refuse(k, 1);
    let begun = (reply_at_once(store), memory.refused());
    memory.refuse(k, 1);
    let tried = (tried_reply(store, b"MOV 0,1", None), memory.refused());
    memory.refuse(k, 1);
    let submitted = (Some(submit(store, b"MOV 0,1")), memory.refused());
    let first = due_reply(k, Some(FIRST));
    let due = (due_reply(k, None), first, first);
    expect_same(rt, &(begun, tried, submitted), &due, "a growth");
}

/// The ten growths of a warrior, on an empty hill of two. A submission that is answered `Memory` leaves the hill as it
/// was, so the first that isn't is entry 1. So it is with one that is begun, and with a trial.
fn expect_warrior_growths<M: TestMemory>(rt: &impl Abort, memory: M, disks: M) {
    let mut store = created_on(rt, memory, new_in(rt, disks));
    for k in 0..11 {
        expect_growth(rt, memory, &mut store, k);
    }
    memory.refuse(0, 0);
    expect_calls(rt, store, 5 + 7);
}

/// The first row of the table with growth `k` refused, if there is memory for the table then, and how many growths were
/// refused.
fn expect_first_row<M: TestMemory>(
    rt: &impl Abort,
    memory: M,
    store: &Store<M::Device, M>,
    k: u64,
    due: (Option<Numbers>, u64),
) {
    memory.refuse(k, 1);
    let found = (row_at(store, 0), memory.refused());
    expect_same(rt, &found, &due, "the first row");
}

/// A table takes one growth. This is that of a hill of one warrior.
fn expect_table_growth<M: TestMemory>(rt: &impl Abort, memory: M) {
    let mut store = created_on(rt, memory, new_in(rt, memory));
    expect_reply(rt, &mut store, b"MOV 0,1", FIRST);
    expect_first_row(rt, memory, &store, 0, (None, 1));
    expect_first_row(rt, memory, &store, 1, (Some((1, 0, 0)), 0));
    memory.refuse(0, 0);
    drop(store);
}

/// Growths of hills, of a warrior, of a table, of a device and of a list, and none after a device was called. After
/// each of these both memories refuse nothing.
struct Growths;

impl<R: Abort> Trial<R> for Growths {
    fn run<M: TestMemory>(rt: &R, memory: M, disks: M) {
        expect_hill_growths(rt, memory, disks);
        expect_warrior_growths(rt, memory, disks);
        expect_table_growth(rt, memory);
        expect_device_growths(rt, memory, disks);
        expect_list_growths(rt, memory);
        expect_none_after_a_call(rt, memory, disks);
    }
}

#[test]
fn growths_that_are_refused(rt: HostRuntime) {
    run::<HostRuntime, Growths>(&rt, rt.alloc());
}
