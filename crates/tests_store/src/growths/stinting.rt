//! A device that lets a store take no memory after its first call.

use crate::expecting::{expect_opened, expect_reply, expect_same};
use crate::hills::{blank_in, created_on};
use hill_store::{Reply, Store};
use std::process::Abort;
use tests_stores::{THREE, TestMemory, audit, close, fell, lasting};

/// Growths are refused now, and none was asked for since.
fn expect_stinted<M: TestMemory>(rt: &impl Abort, memory: M) {
    expect_same(rt, &memory.refused(), &0, "growths after a call refused");
    assert!(rt; Box::new(memory, 0_u8).is_err());
    memory.refuse(0, 0);
}

/// The store answers this to a source, and took no memory once it had called its device.
fn expect_stinted_reply<M: TestMemory>(
    rt: &impl Abort,
    memory: M,
    store: &mut Store<M::Device, M>,
    source: &[u8],
    reply: Reply,
) {
    expect_reply(rt, store, source, reply);
    expect_stinted(rt, memory);
}

/// The disk of a hill of two, which was submitted to, audited and closed.
fn stinted<M: TestMemory>(rt: &impl Abort, memory: M, disk: M::Disk) -> M::Disk {
    let mut store = created_on(rt, memory, memory.stinting(disk));
    expect_stinted(rt, memory);
    for (source, reply) in &THREE {
        expect_stinted_reply(rt, memory, &mut store, *source, *reply);
    }
    expect_stinted_reply(rt, memory, &mut store, b"MOV 0,1", fell!(4, 4));
    memory.refuse(0, u64::MAX);
    expect_same(rt, &audit(&mut store), &true, "an audit");
    memory.within(close(store))
}

/// The device has its memory from elsewhere. A store takes none once it has called its device, to create a hill and to
/// submit, and an audit and the close take none at all.
pub(super) fn expect_none_after_a_call<M: TestMemory>(rt: &impl Abort, memory: M, disks: M) {
    let disk = stinted(rt, memory, blank_in(rt, disks));
    expect_same(rt, &memory.refused(), &0, "growths after a call refused");
    memory.refuse(0, 0);
    expect_opened(rt, memory, lasting(memory, disk), 2);
}
