//! What the calls of a store answer, and how many calls they ask of its device.

use crate::expecting::{
    answered, answered_on, expect_calls, expect_replies, expect_reply, expect_same,
};
use crate::hills::{blank_in, blank_within, created_on, image_of, new_in, opened_on, small};
use hill_store::{Refusal, Reply, Store};
use sector_disk::FuseKind;
use std::process::Abort;
use tests_stores::{
    Answered, Disk, EMPTY, FIRST, ONE, REPLIES, SOURCES, TWO, TestMemory, Trial, lasting,
    refusal_to_create, refusal_to_open, run, set_byte, submit, tried_reply, with_zeros,
};

/// Creating makes five calls: sync, read, read, write, sync. Each warrior that is placed makes seven more, the one that
/// falls two.
fn expect_list<M: TestMemory>(rt: &impl Abort, memory: M) {
    let mut store = created_on(rt, memory, new_in(rt, memory));
    expect_replies(rt, &mut store, &SOURCES, &REPLIES);
    expect_replies(rt, &mut store, &[], &[]);
    expect_calls(rt, store, 5 + 16);
}

/// Numbers of steps, and the reply within them.
static WITHIN: [(u64, Option<Reply>); 2] = [(0, None), (1_000_000, Some(FIRST))];

/// A source whose assembly spends its steps is not submitted, and its device is not called. Within enough of them it
/// is.
fn expect_spent<M: TestMemory>(rt: &impl Abort, memory: M) {
    let mut store = created_on(rt, memory, new_in(rt, memory));
    for (steps, reply) in &WITHIN {
        let found = store.submit_within(b"MOV 0,1", Some(*steps));
        expect_same(rt, &found, reply, "a reply within some steps");
    }
    expect_calls(rt, store, 5 + 7);
}

/// Sources for a hill of two: two tie with both of its warriors, one loses to both, and one is refused.
static TRIED: [&[u8]; 4] = [b"MOV 0,1", b"DAT 0,0", b"JMP 0", b"MVO 0"];

/// A source is answered the same way if it is tried, in many steps too, and if it is submitted then.
fn expect_trial<M: TestMemory>(rt: &impl Abort, store: &mut Store<M::Device, M>, source: &[u8]) {
    let tried = tried_reply(store, source, None);
    let within = tried_reply(store, source, Some(1_000_000));
    let submitted = Some(submit(store, source));
    expect_same(rt, &(within, submitted), &(tried, tried), "replies");
}

/// So it is on a hill of two that is opened. Without steps a source that is tried isn't answered.
fn expect_tried<M: TestMemory>(rt: &impl Abort, memory: M) {
    let disk = answered(rt, memory, &TWO);
    let mut store = opened_on(rt, memory, lasting(memory, disk));
    for source in &TRIED {
        expect_trial(rt, &mut store, *source);
    }
    let spent = tried_reply(&mut store, b"JMP 0", Some(0));
    drop(store);
    expect_same(rt, &spent, &None, "a trial without steps");
}

/// Sectors of a blank device, and how a creation on it is refused.
static BLANK: [(u32, Option<Refusal>); 4] = [
    (14, None),
    (13, Some(Refusal::TooSmall)),
    (4, Some(Refusal::TooSmall)),
    (1, Some(Refusal::TooSmall)),
];

/// No hill is created on a disk that is too small, or has one. A command makes a file that is large enough before it
/// creates a hill. Files that are refused to be opened are in `bench/transcripts`.
fn expect_refused<M: TestMemory>(rt: &impl Abort, memory: M) {
    for (sectors, refusal) in &BLANK {
        let disk = memory.blank(*sectors).expect(rt, "there is memory");
        let found = refusal_to_create(memory, lasting(memory, disk), small(rt));
        expect_same(rt, &(*sectors, found), &(*sectors, *refusal), "a creation");
    }
    let occupied = lasting(memory, answered(rt, memory, &[]));
    let found = refusal_to_create(memory, occupied, small(rt));
    expect_same(rt, &found, &Some(Refusal::Occupied), "a hill");
}

/// Refusals, and their names.
static NAMES: [(Refusal, &str); 6] = [
    (Refusal::Disk, "Disk"),
    (Refusal::TooSmall, "TooSmall"),
    (Refusal::Occupied, "Occupied"),
    (Refusal::Memory, "Memory"),
    (Refusal::NotAHill, "NotAHill"),
    (Refusal::Damaged, "Damaged"),
];

fn expect_name(rt: &(impl Abort + AllocGlobal), refusal: Refusal, name: &str) {
    let text = format!(in rt.alloc(); "{refusal}").expect(rt, "there is memory");
    expect_same(rt, &text.as_str(), &name, "a name");
    drop(text);
}

#[test]
fn a_refusal_tells_its_name(rt: HostRuntime) {
    for (refusal, name) in &NAMES {
        expect_name(&rt, *refusal, *name);
    }
}

/// What a store answers whose device stops at the last sync of a second warrior.
static CUT: [Answered; 3] = [
    (b"MOV 0,1", FIRST),
    (b"JMP 0", Reply::Disk),
    (b"JMP 0", Reply::Reopen),
];

/// A store answers this whose device stops after 18 calls. What is left of the device then is shown by `sweeps`.
fn expect_cut<M: TestMemory>(rt: &impl Abort, memory: M) {
    let device = blank_within(rt, memory, 18, FuseKind::Stop);
    drop(answered_on(rt, memory, device, &CUT));
}

/// How the header of two warriors begins, of the generation 2. Zeros follow.
static NAMED: [u8; 84] = [
    0x4B, 0x4F, 0x54, 0x48, 0x48, 0x49, 0x4C, 0x32, 0, 0, 0, 0, 0, 0, 0, 2, 0, 0x40, 0, 0, 0, 0x64,
    0, 8, 0, 10, 0, 10, 0, 2, 0, 0, 0, 1, 0, 2, 0, 0, 0, 0, 0, 0, 0, 0, 0, 0, 0, 2, 0, 2, 0, 0, 0,
    0, 0, 0, 0, 1, 0, 0, 0, 0, 0, 0, 0, 0, 1, 0, 0, 0, 0, 0, 0, 0, 2, 1, 0, 0, 0, 0, 0, 0, 0, 0,
];

/// How that of the greatest generation begins, without warriors.
static WORN: [u8; 36] = [
    0x4B, 0x4F, 0x54, 0x48, 0x48, 0x49, 0x4C, 0x32, 255, 255, 255, 255, 255, 255, 255, 255, 0,
    0x40, 0, 0, 0, 0x64, 0, 8, 0, 10, 0, 10, 0, 2, 0, 0, 0, 1, 0, 2,
];

/// A disk of a hill of two that has a header which begins so in one of its sectors, and nothing else.
fn disk_with<M: TestMemory>(rt: &impl Abort, memory: M, n: u32, header: &[u8]) -> M::Disk {
    let mut disk = blank_in(rt, memory);
    disk.put(n, &with_zeros(header))
        .expect(rt, "it has the sector");
    disk
}

/// A device whose header names two slots, in which there are no warriors, is refused so if it stops after `calls`
/// calls. A sync, two headers and the four sectors of the first slot are seven calls: if the eighth fails, the first
/// slot is reported all the same.
fn expect_bad_slots<M: TestMemory>(rt: &impl Abort, memory: M, calls: u64, refusal: Refusal) {
    let device = memory.failing(disk_with(rt, memory, 0, &NAMED), calls, FuseKind::Stop);
    let found = refusal_to_open(memory, device);
    expect_same(rt, &(calls, found), &(calls, Some(refusal)), "a refusal");
}

/// The greatest generation takes no warrior. Opening makes three calls if the hill is empty, and what follows none.
fn expect_worn<M: TestMemory>(rt: &impl Abort, memory: M) {
    let disk = disk_with(rt, memory, 1, &WORN);
    let mut store = opened_on(rt, memory, lasting(memory, disk));
    expect_reply(rt, &mut store, b"", EMPTY);
    expect_reply(rt, &mut store, b"MOV 0,1", Reply::Worn);
    expect_calls(rt, store, 3);
}

/// A disk that an earlier version wrote, which kept no results.
fn earlier<M: TestMemory>(rt: &impl Abort, memory: M) -> M::Disk {
    let mut disk = answered(rt, memory, &TWO);
    for n in 0..2 {
        set_byte(&mut disk, n, 7, b'0').expect(rt, "it has the byte");
    }
    disk
}

/// A disk that an earlier version wrote holds no hill, and one is created over it.
fn expect_no_earlier_hill<M: TestMemory>(rt: &impl Abort, memory: M) {
    let disk = earlier(rt, memory);
    let refusal = refusal_to_open(memory, image_of(rt, memory, &disk, &[]));
    expect_same(rt, &refusal, &Some(Refusal::NotAHill), "no hill");
    drop(answered_on(rt, memory, lasting(memory, disk), &ONE));
}

/// Lists, steps that are spent, trials, devices that are refused or fail, slots in their order, the greatest
/// generation, and an earlier hill.
struct Calls;

impl<R: Abort> Trial<R> for Calls {
    fn run<M: TestMemory>(rt: &R, memory: M, _: M) {
        expect_list(rt, memory);
        expect_spent(rt, memory);
        expect_tried(rt, memory);
        expect_refused(rt, memory);
        expect_cut(rt, memory);
        expect_bad_slots(rt, memory, 6, Refusal::Disk);
        expect_bad_slots(rt, memory, 7, Refusal::Damaged);
        expect_worn(rt, memory);
        expect_no_earlier_hill(rt, memory);
    }
}

#[test]
fn calls_of_a_store(rt: HostRuntime) {
    run::<HostRuntime, Calls>(&rt, rt.alloc());
}
