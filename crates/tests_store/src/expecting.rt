//! What a store is expected to answer.

use crate::hills::{created_on, new_in, opened_on};
use hill_store::{Reply, Store};
use sector_disk::Device;
use std::alloc::Allocator;
use std::fmt::Debug;
use std::process::Abort;
use tests_stores::{
    Counted, Numbers, TestMemory, close, count_rows, other_row, submit, submit_all,
};

/// What was found is what is due. If it isn't, the note says what was looked at.
pub(crate) fn expect_same<T: PartialEq + Debug>(rt: &impl Abort, found: &T, due: &T, note: &str) {
    assert!(rt; *found == *due, "{note}: {found:?}, not {due:?}");
}

/// The store answers this to a source.
pub(crate) fn expect_reply<D: Device, A: Allocator + Copy>(
    rt: &impl Abort,
    store: &mut Store<D, A>,
    source: &[u8],
    reply: Reply,
) {
    expect_same(rt, &submit(store, source), &reply, "a reply");
}

/// The device of a hill of two that was created on it, and answered this.
pub(crate) fn answered_on<D: Device + Drop, A: Allocator + Copy>(
    rt: &impl Abort,
    alloc: A,
    device: D,
    answers: &[(&[u8], Reply)],
) -> D {
    let mut store = created_on(rt, alloc, device);
    for (source, reply) in answers {
        expect_reply(rt, &mut store, *source, *reply);
    }
    close(store)
}

/// The same, as the disk within a device that was blank.
pub(crate) fn answered<M: TestMemory>(
    rt: &impl Abort,
    memory: M,
    answers: &[(&[u8], Reply)],
) -> M::Disk {
    memory.within(answered_on(rt, memory, new_in(rt, memory), answers))
}

/// The replies of the store to a list of sources.
pub(crate) fn replies_of<D: Device, A: Allocator + Copy>(
    rt: &impl Abort,
    store: &mut Store<D, A>,
    sources: &[&[u8]],
) -> Vec<Reply, A> {
    submit_all(store, sources).expect(rt, "there is memory")
}

/// The store answers this to a list of sources.
pub(crate) fn expect_replies<D: Device, A: Allocator + Copy>(
    rt: &impl Abort,
    store: &mut Store<D, A>,
    sources: &[&[u8]],
    replies: &[Reply],
) {
    let found = replies_of(rt, store, sources);
    expect_same(rt, &found.as_slice(), &replies, "replies");
    drop(found);
}

/// The table has `count` rows.
pub(crate) fn expect_rows<D: Device, A: Allocator + Copy>(
    rt: &impl Abort,
    store: &Store<D, A>,
    count: usize,
) {
    expect_same(rt, &count_rows(store).ok(), &Some(count), "rows");
}

/// The rows of the table are these.
pub(crate) fn expect_table<D: Device, A: Allocator + Copy>(
    rt: &impl Abort,
    store: &Store<D, A>,
    rows: &[Numbers],
) {
    expect_rows(rt, store, rows.len());
    expect_same(rt, &other_row(store, rows), &None, "another row");
}

/// The hill that is opened on a device has `count` rows.
pub(crate) fn expect_opened<D: Device + Drop, A: Allocator + Copy>(
    rt: &impl Abort,
    alloc: A,
    device: D,
    count: usize,
) {
    let store = opened_on(rt, alloc, device);
    expect_rows(rt, &store, count);
    drop(store);
}

/// The device of this store was asked for `calls` calls.
pub(crate) fn expect_calls<D: Counted, A: Allocator + Copy>(
    rt: &impl Abort,
    store: Store<D, A>,
    calls: u64,
) {
    let device = close(store);
    expect_same(rt, &device.calls(), &calls, "calls");
    drop(device);
}
