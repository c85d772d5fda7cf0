//! What a stop leaves of a hill of twenty, with the results of all its pairs, that is moved to another device.
//!
//! Twenty warriors that lose at once come, and two that stay where they are. These win each of their rounds but those
//! against one another, and the two that came last fall. So the hill has entries 1 to 18 in slots 0 to 17, entry 21 in
//! slot 20 and entry 22 in slot 19. Slot 18 and some places of results hold what was written of warriors that fell.

use crate::expecting::{expect_same, expect_table};
use crate::hills::{blank_of, created_on, expect_fault, hill_on, image_of};
use hill_store::{Reply, Store};
use sector_disk::{Device, FuseKind};
use std::alloc::Allocator;
use std::process::Abort;
use tests_fixtures::small;
use tests_stores::{
    Numbers, TestMemory, Trial, close, lasting, moved, narrowed, run, submit, tried,
};
use war_types::RawSettings;

/// Sectors that a hill of twenty needs: two headers, and four for each of twenty-one slots.
const SECTORS: u32 = 86;

/// The settings of the hill.
const TWENTY: RawSettings = small!(capacity: 20);

/// The table: entries, their points, and their ages. The two that stay have two ties with one another, and six points
/// of each other one. Those that lose have three points of one another, and none of these.
static ROWS: [Numbers; 20] = [
    (21, 110, 1),
    (22, 110, 0),
    (1, 51, 21),
    (2, 51, 20),
    (3, 51, 19),
    (4, 51, 18),
    (5, 51, 17),
    (6, 51, 16),
    (7, 51, 15),
    (8, 51, 14),
    (9, 51, 13),
    (10, 51, 12),
    (11, 51, 11),
    (12, 51, 10),
    (13, 51, 9),
    (14, 51, 8),
    (15, 51, 7),
    (16, 51, 6),
    (17, 51, 5),
    (18, 51, 4),
];

/// The warrior that is submitted as this entry is on the hill.
fn expect_placed<D: Device, A: Allocator + Copy>(
    rt: &impl Abort,
    store: &mut Store<D, A>,
    expected: u64,
) {
    let source: &[u8] = if expected <= 20 { b"DAT 0,0" } else { b"JMP 0" };
    let found = match submit(store, source) {
        Reply::Placed { entry, .. } => entry,
        _ => 0,
    };
    expect_same(rt, &found, &expected, "an entry");
}

/// A device over a blank disk for the hill.
fn new_in<M: TestMemory>(rt: &impl Abort, memory: M) -> M::Device {
    lasting(memory, blank_of(rt, memory, SECTORS))
}

/// A device in the old format with the hill.
fn old_in<M: TestMemory>(rt: &impl Abort, memory: M) -> M::Device {
    let mut store = created_on(rt, memory, new_in(rt, memory), TWENTY);
    for entry in 1..=22 {
        expect_placed(rt, &mut store, entry);
    }
    let mut new = memory.within(close(store));
    let old = narrowed(memory, &mut new, 21).expect(rt, "it has room");
    drop(new);
    lasting(memory, old)
}

/// The table of the store is that of the hill, and its results are those of the matches. It is dropped.
fn expect_in<D: Device + Drop, A: Allocator + Copy>(rt: &impl Abort, mut store: Store<D, A>) {
    expect_table(rt, &mut store, &ROWS);
    drop(store);
}

/// Calls that move it: a sync, two headers, four sectors for each of twenty slots, a sync, a header and a sync.
const CALLS: u64 = 86;

/// An image of the disk holds the hill, or none.
fn expect_image<M: TestMemory>(
    rt: &impl Abort,
    memory: M,
    disk: &M::Disk,
    choice: &[u32; 86],
    holds: bool,
) {
    let image = lasting(memory, image_of(rt, disk, choice));
    let found = match hill_on(rt, memory, image) {
        Some(store) => {
            expect_in(rt, store);
            true
        }
        None => false,
    };
    expect_same(rt, &found, &holds, "the hill");
}

/// Whether the images hold the hill if the header is lost, and if it is kept.
fn due(calls: u64) -> (bool, bool) {
    match calls {
        0..=84 => (false, false),
        85 => (false, true),
        _ => (true, true),
    }
}

/// Choices of each sector: all lost, or all kept.
static LOST: [u32; 86] = [0; 86];

static KEPT: [u32; 86] = [1; 86];

/// The sectors of the slots, in the order in which they are written: that of the entries.
fn written_at(place: u64) -> usize {
    match place {
        0..=71 => 2 + place as usize,
        72..=75 => 10 + place as usize,
        _ => 78 + (place % 4) as usize,
    }
}

/// A choice that is another for one sector.
fn choice_with(choice: &[u32; 86], n: usize, other: u32) -> [u32; 86] {
    let mut choice = *choice;
    if let Some(place) = choice.get_mut(n) {
        *place = other;
    }
    choice
}

/// How many sectors of slots are written and not synced after `calls` calls.
fn unsynced(calls: u64) -> u64 {
    match calls {
        4..=83 => calls - 3,
        _ => 0,
    }
}

/// All that was not synced is lost, all is kept, and of the sectors of slots that were not synced each alone is kept or
/// lost: then there is no header.
fn expect_images<M: TestMemory>(rt: &impl Abort, memory: M, disk: &M::Disk, calls: u64) {
    let (lost, kept) = due(calls);
    expect_image(rt, memory, disk, &LOST, lost);
    expect_image(rt, memory, disk, &KEPT, kept);
    for place in 0..unsynced(calls) {
        let n = written_at(place);
        expect_image(rt, memory, disk, &choice_with(&LOST, n, 1), false);
        expect_image(rt, memory, disk, &choice_with(&KEPT, n, 0), false);
    }
}

/// The hill is moved to a device that stops after `calls` calls, and to a blank one then. The old device comes back.
fn expect_stop<M: TestMemory>(rt: &impl Abort, memory: M, old: M::Device, calls: u64) -> M::Device {
    let new = memory.failing(blank_of(rt, memory, SECTORS), calls, FuseKind::Stop);
    let (old, new, fault) = tried(memory, old, new);
    expect_fault(rt, fault, calls < CALLS);
    let new = memory.within(new);
    expect_images(rt, memory, &new, calls);
    drop(new);
    let moved = moved(memory, old, new_in(rt, memory));
    let (old, store) = moved.expect(rt, "it is moved");
    expect_in(rt, store);
    old
}

/// The old device keeps the hill after each stop, and it can be moved to a blank one.
struct Stops;

impl<R: Abort> Trial<R> for Stops {
    fn run<M: TestMemory>(rt: &R, memory: M, _: M) {
        let mut old = old_in(rt, memory);
        for calls in 0..=CALLS {
            old = expect_stop(rt, memory, old, calls);
        }
        drop(old);
    }
}

#[test]
fn a_stop_at_each_call(rt: HostRuntime) {
    run::<HostRuntime, Stops>(&rt, rt.alloc());
}
