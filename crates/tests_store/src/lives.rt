//! The life of a device: a fault, a store that is opened again, and a stop.

use crate::expecting::{answered_on, expect_reply, expect_same, expect_table};
use crate::hills::{blank_within, image_of, opened_on};
use hill_store::Reply;
use sector_disk::FuseKind;
use std::process::Abort;
use tests_stores::{Answered, FIRST, Numbers, TestMemory, Trial, close, placed, run, sector};

/// Calls that open a hill of two: a sync, two headers, and four sectors of each slot.
const OPENING: u64 = 11;

/// What a store answers whose device fails at the last sync while a third warrior is placed: 5 calls create the hill,
/// and each warrior makes 7. The first two lose at once, and each of them wins a round.
static FAILING: [Answered; 4] = [
    (b"DAT 0,0", FIRST),
    (b"DAT 0,0", placed!(2, 2, 3)),
    (b"JMP 0", Reply::Disk),
    (b"JMP 0", Reply::Reopen),
];

/// The hill has the third warrior and the first.
static ROWS: [Numbers; 2] = [(3, 6, 0), (1, 0, 2)];

/// The hill that a device opens to has the third warrior and the first. The device comes back.
fn expect_two<M: TestMemory>(rt: &impl Abort, memory: M, device: M::Device) -> M::Device {
    let store = opened_on(rt, memory, device);
    expect_table(rt, &store, &ROWS);
    close(store)
}

/// The device fails while a warrior is submitted to the hill that it opens to. It comes back.
fn failed<M: TestMemory>(rt: &impl Abort, memory: M, device: M::Device) -> M::Device {
    let mut store = opened_on(rt, memory, device);
    expect_reply(rt, &mut store, b"JMP 0", Reply::Disk);
    close(store)
}

/// The disk after the fault, on which the hill has two warriors. Then it stops after the four writes of a fourth
/// warrior's slot.
fn stopped_in_a_slot<M: TestMemory>(rt: &impl Abort, memory: M) -> M::Disk {
    let device = blank_within(rt, memory, 25, FuseKind::FailLost);
    let device = answered_on(rt, memory, device, &FAILING);
    let disk = memory.within(expect_two(rt, memory, device));
    let device = memory.failing(disk, OPENING + 4, FuseKind::Stop);
    memory.within(failed(rt, memory, device))
}

/// The second warrior's slot, sectors 6 to 9, is free, and each of them is kept or lost.
fn choice_of(kept: u32) -> [u32; 10] {
    let second = [kept % 2, kept / 2 % 2, kept / 4 % 2, kept / 8 % 2];
    let mut choice = [0; 10];
    choice[6..].copy_from_slice(&second);
    choice
}

/// In the first of these sectors is `JMP.B $0, $0`, or `DAT.F $0, $0` of the warrior that fell. Either way the hill has
/// two warriors.
fn expect_image<M: TestMemory>(rt: &impl Abort, memory: M, disk: &M::Disk, kept: u32) {
    let mut image = image_of(rt, memory, disk, &choice_of(kept));
    let content = sector(&mut image, 6).expect(rt, "it has the sector");
    let due = if kept % 2 == 0 { 0 } else { 7 };
    expect_same(rt, &content[0], &due, "an operation");
    drop(expect_two(rt, memory, image));
}

/// What a stop may leave of the disk has the hill of two, however much of the slot is kept.
struct Life;

impl<R: Abort> Trial<R> for Life {
    fn run<M: TestMemory>(rt: &R, memory: M, _: M) {
        let disk = stopped_in_a_slot(rt, memory);
        for kept in 0..16 {
            expect_image(rt, memory, &disk, kept);
        }
        drop(disk);
    }
}

#[test]
fn a_life_of_a_hill(rt: HostRuntime) {
    run::<HostRuntime, Life>(&rt, rt.alloc());
}
