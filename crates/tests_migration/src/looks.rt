//! A hill that is looked at while a warrior is placed, with each read failing and each growth refused.

use crate::expecting::expect_same;
use crate::hills::{counted, created_on, image_of, new_in};
use crate::passing::{Goes, Passing};
use hill_look::{LookRefusal, Source, look_at_hill};
use hill_store::{Refusal, Reply};
use sector_disk::{Device, FuseKind};
use std::alloc::Allocator;
use std::process::Abort;
use tests_stores::{FIRST, SECTORS, SMALL, TestMemory, Trial, close, opened, run, submit};

/// Calls of the device when a hill of one warrior is opened: a sync, two headers, and the four sectors of its slot.
const OPENING: u64 = 7;

/// Calls of the device when a warrior is placed: four sectors, a sync, a header, a sync.
const PLACING: u64 = 7;

/// Reads of a try: the slots, and both headers.
const TRY: u64 = SECTORS as u64;

/// Reads of a look at which nothing changes: both headers twice, and the other sectors.
const LOOK: u64 = SECTORS as u64 + 2;

/// The disk of a hill of one warrior.
fn one_on<M: TestMemory>(rt: &impl Abort, memory: M) -> M::Disk {
    let mut store = created_on(rt, memory, new_in(rt, memory), SMALL);
    expect_same(rt, &submit(&mut store, b"JMP 0"), &FIRST, "a reply");
    memory.within(close(store))
}

/// What is on the disk if another warrior is placed and the device stops after `calls` of these calls.
fn stopped_at<M: TestMemory>(rt: &impl Abort, memory: M, disk: &M::Disk, calls: u64) -> M::Disk {
    let copy = image_of(rt, disk, &[]);
    let fuse = memory.failing(copy, OPENING.saturating_add(calls), FuseKind::Stop);
    let mut store = opened(memory, fuse).expect(rt, "it opens");
    let reply = submit(&mut store, b"MOV 0,1");
    assert!(rt; matches!(reply, Reply::Placed { .. }) == (calls == PLACING));
    memory.within(close(store))
}

/// A source that goes through these devices.
fn source_of<D: Device + Drop, A: Allocator + Copy>(
    devices: Vec<D, A>,
    every: u64,
    goes: Goes,
) -> Passing<D, A> {
    Passing {
        devices,
        every,
        goes,
        fails_at: 0,
        reads: 0,
        sectors: SECTORS,
        faults: 0,
    }
}

/// A source that goes through the disk before a warrior is placed, after each of the calls of that, and at the end.
fn placing<M: TestMemory>(rt: &impl Abort, memory: M) -> Passing<M::Disk, M> {
    let disk = one_on(rt, memory);
    let mut images = Vec::new(memory);
    for calls in 0..PLACING + 1 {
        let image = stopped_at(rt, memory, &disk, calls);
        assert!(rt; images.push(image).is_ok());
    }
    drop(disk);
    source_of(images, 1, Goes::Once)
}

/// A source in which each try finds the headers of another hill.
fn changing<M: TestMemory>(rt: &impl Abort, memory: M) -> Passing<M::Disk, M> {
    let one = one_on(rt, memory);
    let two = stopped_at(rt, memory, &one, PLACING);
    let mut devices = Vec::new(memory);
    assert!(rt; devices.push(one).is_ok());
    assert!(rt; devices.push(two).is_ok());
    source_of(devices, TRY, Goes::Round)
}

/// How many warriors are on the hill that is looked at, and whether all its results are true; or why there is none.
fn look<S: Source, A: Allocator + Copy>(
    alloc: A,
    source: &mut S,
) -> Result<(usize, bool), LookRefusal> {
    match look_at_hill(alloc, source) {
        Ok(store) => Ok(counted(store)),
        Err(refusal) => Err(refusal),
    }
}

/// If its headers change within each try, a hundred tries are made.
fn expect_changing<M: TestMemory>(rt: &impl Abort, memory: M) {
    let mut source = changing(rt, memory);
    let found = (look(memory, &mut source), source.reads);
    let due = (Err(LookRefusal::Changing), 2 + 100 * TRY);
    expect_same(rt, &found, &due, "a look");
    drop(source);
}

/// With `every` reads between two calls there are one or two warriors, and at last two.
fn expect_one_or_two<D: Device + Drop, A: Allocator + Copy>(
    rt: &impl Abort,
    memory: A,
    source: &mut Passing<D, A>,
    every: u64,
) {
    source.every = every;
    source.reads = 0;
    let found = look(memory, source);
    assert!(rt; found == Ok((1, true)) || found == Ok((2, true)));
    source.reads = 1000;
    expect_same(rt, &look(memory, source), &Ok((2, true)), "a look");
}

/// This read fails. It is `Disk`, and is not tried again.
fn expect_failed<D: Device + Drop, A: Allocator + Copy>(
    rt: &impl Abort,
    memory: A,
    source: &mut Passing<D, A>,
    fails_at: u64,
) {
    source.every = 1000;
    source.reads = 0;
    source.faults = 0;
    source.fails_at = fails_at;
    let found = look(memory, source);
    let due = Err(LookRefusal::Refused(Refusal::Disk));
    let found = (found, source.reads, source.faults);
    expect_same(rt, &found, &(due, fails_at, 1), "a look");
}

/// Growth `k` of the seven of a look is refused, or there is no such growth. One that is refused is `Memory`: the
/// sectors, the members, an arena's four, and a warrior's code.
fn expect_growth<M: TestMemory>(
    rt: &impl Abort,
    memory: M,
    source: &mut Passing<M::Disk, M>,
    k: u64,
) {
    source.every = 1000;
    source.reads = 0;
    source.fails_at = 0;
    memory.refuse(k, 1);
    let found = (look(memory, source), memory.refused());
    let due = if k < 7 {
        (Err(LookRefusal::Refused(Refusal::Memory)), 1)
    } else {
        (Ok((1, true)), 0)
    };
    expect_same(rt, &found, &due, "a look");
}

/// However fast a warrior is placed meanwhile; with each read that fails; and with each growth that is refused.
fn expect_looks<M: TestMemory>(rt: &impl Abort, memory: M) {
    let mut source = placing(rt, memory);
    for every in 1..LOOK + 1 {
        expect_one_or_two(rt, memory, &mut source, every);
    }
    for fails_at in 1..LOOK + 1 {
        expect_failed(rt, memory, &mut source, fails_at);
    }
    for k in 0..8 {
        expect_growth(rt, memory, &mut source, k);
    }
    drop(source);
}

/// A hill that changes too quickly, and one that is written meanwhile.
struct Looks;

impl<R: Abort> Trial<R> for Looks {
    fn run<M: TestMemory>(rt: &R, memory: M, _: M) {
        expect_changing(rt, memory);
        expect_looks(rt, memory);
    }
}

#[test]
fn a_hill_that_is_written_meanwhile(rt: HostRuntime) {
    run::<HostRuntime, Looks>(&rt, rt.alloc());
}
