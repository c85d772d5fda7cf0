//! Each growth of a device in memory refused in turn, and what takes no memory.

use crate::calls::{
    Counted, Step, expect_faults, expect_read, expect_stopped, made, set, take_all, write,
};
use crate::expecting::{expect, expect_count};
use hill_bytes::{
    Header, OldSlot, Slot, Wins, decode_header, decode_old_header, encode_header, encode_old_header,
};
use sector_disk::{Device, FuseDevice, FuseKind, MemoryDevice};
use std::alloc::{AllocError, Global};
use std::process::Abort;
use tests_fixtures::{IMP, Refusing, SMALL};
use war_types::{Settings, Title, Warrior};

/// `count` growths were refused.
fn expect_refusals(rt: &impl Abort, memory: &Refusing<Global>, count: u64) {
    expect_count(rt, memory.refused(), count, "refusals");
}

/// A device is there and takes these calls, or `refusals` growths were refused.
fn expect_either(
    rt: &impl Abort,
    memory: &Refusing<Global>,
    made: Result<Counted<'_>, AllocError>,
    steps: &[Step],
    refusals: u64,
) {
    expect_refusals(rt, memory, refusals);
    match made {
        Ok(mut device) => {
            expect_refusals(rt, memory, 0);
            take_all(rt, &mut device, steps);
            drop(device);
        }
        Err(AllocError) => expect_refusals(rt, memory, 1),
    }
}

/// What a new device of eight sectors is.
static NEW: [Step; 2] = [Step::Sectors(8), Step::Read(7, 0)];

/// A device of eight sectors is made, but for a refusal of this growth.
fn try_new(rt: &impl Abort, memory: &Refusing<Global>, growth: u64, refusals: u64) {
    memory.refuse(growth, 1);
    let made = MemoryDevice::new(memory, 8);
    expect_either(rt, memory, made, &NEW, refusals);
}

/// Two writes to the second sector.
static WRITTEN_TWICE: [Step; 2] = [Step::Write(1, 1), Step::Write(1, 2)];

/// What a stop that keeps the first of them leaves.
static KEPT_FIRST: [Step; 2] = [Step::Sectors(2), Step::Read(1, 1)];

/// A stop that keeps the first of the writes to the second sector of two, but for a refusal of this growth.
fn try_stopped(
    rt: &impl Abort,
    memory: &Refusing<Global>,
    device: &Counted<'_>,
    growth: u64,
    refusals: u64,
) {
    memory.refuse(growth, 1);
    let made = device.stopped(&[0, 1]);
    expect_either(rt, memory, made, &KEPT_FIRST, refusals);
}

/// Each is one growth.
#[test]
fn a_new_device_and_a_stopped_one(rt: HostRuntime) {
    let memory = Refusing::new(rt.alloc());
    try_new(&rt, &memory, 0, 1);
    try_new(&rt, &memory, 1, 0);
    memory.refuse(0, 0);
    let device = made(&rt, &memory, 2, &WRITTEN_TWICE);
    try_stopped(&rt, &memory, &device, 0, 1);
    try_stopped(&rt, &memory, &device, 1, 0);
    drop(device);
    drop(memory);
}

/// The one sector holds 0 for good, and 1 to 9 were written to it in this order.
fn expect_nine_contents(rt: &impl Abort, device: &Counted<'_>) {
    for number in 0..=9_u8 {
        expect_stopped(rt, device, &[u32::from(number)], 0, number);
    }
}

/// Writes a number all over the one sector, after the number before it. A refused write is made again.
fn write_number<D: Device>(rt: &impl Abort, device: &mut D, number: u8) {
    assert!(rt; 0 < device.sectors());
    if device.write(0, &[number; 512]).is_err() {
        expect_faults(rt, device, 1);
        expect_read(rt, device, 0, number.saturating_sub(1));
        write(rt, device, 0, number);
    }
}

/// Nine writes without this growth, or, if `refusals` is 0, with all of them.
fn write_nine<D: Device>(
    rt: &impl Abort,
    memory: &Refusing<Global>,
    device: &mut D,
    growth: u64,
    refusals: u64,
) {
    memory.refuse(growth, 1);
    for number in 1..=9_u8 {
        write_number(rt, device, number);
    }
    expect_refusals(rt, memory, refusals);
    expect_faults(rt, device, refusals);
    memory.refuse(0, 0);
}

/// The same: then each image is that of a device that met no refusal.
fn expect_writes(rt: &impl Abort, memory: &Refusing<Global>, growth: u64, refusals: u64) {
    let mut device = made(rt, memory, 1, &[]);
    write_nine(rt, memory, &mut device, growth, refusals);
    expect_nine_contents(rt, &device);
    drop(device);
}

/// A sector's list of contents doubles from 4, so nine writes are three growths. A refused one is a counted fault that changes
/// nothing, and the same write passes once there is memory.
#[test]
fn writes(rt: HostRuntime) {
    let memory = Refusing::new(rt.alloc());
    for growth in 0..3 {
        expect_writes(&rt, &memory, growth, 1);
    }
    expect_writes(&rt, &memory, 3, 0);
    drop(memory);
}

/// One write to each of two sectors.
static WRITTEN: [Step; 2] = [Step::Write(0, 1), Step::Write(1, 2)];

/// A read and a sync of a device of two sectors whose first holds 1.
static SYNCED: [Step; 3] = [Step::Sectors(2), Step::Read(0, 1), Step::Sync];

/// They need no memory, and nor does it that the second sector holds 3 then.
fn call_without_memory(rt: &impl Abort, memory: &Refusing<Global>, device: &mut Counted<'_>) {
    memory.refuse(0, u64::MAX);
    take_all(rt, device, &SYNCED);
    set(rt, device, 1, 3);
}

/// A read and two syncs of a device whose second sector holds 3. The last sync fails.
static FUSED: [Step; 3] = [Step::Read(1, 3), Step::Sync, Step::Refused(0)];

/// These calls are made of the device within one whose third call fails.
fn call_within<D: Device + Drop>(rt: &impl Abort, device: D) -> D {
    let mut fused = FuseDevice::new(device, 2, FuseKind::FailLost);
    take_all(rt, &mut fused, &FUSED);
    fused.into_inner()
}

/// The device met no fault, and no growth was refused. Its first sector holds 1 when it is stopped.
fn expect_no_refusal(rt: &impl Abort, memory: &Refusing<Global>, device: &Counted<'_>) {
    expect_faults(rt, device, 0);
    expect_refusals(rt, memory, 0);
    memory.refuse(0, 0);
    expect_stopped(rt, device, &[], 0, 1);
}

#[test]
fn what_takes_no_memory(rt: HostRuntime) {
    let memory = Refusing::new(rt.alloc());
    let mut device = made(&rt, &memory, 2, &WRITTEN);
    call_without_memory(&rt, &memory, &mut device);
    let device = call_within(&rt, device);
    expect_no_refusal(&rt, &memory, &device);
    drop(device);
    drop(memory);
}

fn small(rt: &impl Abort) -> Settings {
    Settings::new(SMALL).expect(rt, "they are accepted")
}

/// A header in both formats, written and read.
fn expect_headers(rt: &impl Abort) {
    let header = Header::new(0, small(rt), 0, &[]).expect(rt, "a header");
    let bytes = encode_header(&header);
    let old_bytes = encode_old_header(&header).expect(rt, "it has room");
    drop(header);
    expect(rt, decode_header(&bytes).is_some(), "a header");
    expect(rt, decode_old_header(&old_bytes).is_some(), "an old header");
}

/// Slots of both formats hold the warrior, which has no results.
fn expect_slot(rt: &impl Abort, warrior: &Warrior<&Refusing<Global>>) {
    let slot = Slot::encode(warrior, &[Wins::NONE; 21]);
    expect(rt, slot.results() == [Wins::NONE; 21], "results");
    let old = OldSlot {
        sectors: [slot.sectors[0], slot.sectors[3]],
    };
    expect(
        rt,
        old.widened().sectors == slot.sectors,
        "a slot of the old format",
    );
    expect(rt, Slot::blank().sectors != slot.sectors, "no blank slot");
}

/// A warrior of one instruction, which has its memory from here.
fn warrior_in<'m>(rt: &impl Abort, memory: &'m Refusing<Global>) -> Warrior<&'m Refusing<Global>> {
    let code = Vec::from_slice(memory, &[IMP]).expect(rt, "there is memory");
    let name = Title::new(b"", "Unnamed");
    let author = Title::new(b"", "Anonymous");
    Warrior::new(code, 0, name, author, &small(rt)).expect(rt, "it fits")
}

#[test]
fn headers_and_slots_need_none(rt: HostRuntime) {
    let memory = Refusing::new(rt.alloc());
    let warrior = warrior_in(&rt, &memory);
    memory.refuse(0, u64::MAX);
    expect_headers(&rt);
    expect_slot(&rt, &warrior);
    expect_refusals(&rt, &memory, 0);
    drop(warrior);
    drop(memory);
}
