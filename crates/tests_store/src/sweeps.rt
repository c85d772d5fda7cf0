//! A device that stops, or fails once, at each of its calls while a hill is created and four sources are submitted.

use crate::expecting::{expect_replies, expect_same, replies_of};
use crate::hills::{blank_within, created_on, image_of, opened_on, small};
use hill_store::{Refusal, Reply, Store};
use sector_disk::FuseKind;
use std::process::Abort;
use tests_stores::{
    FIRST, Numbers, SECTORS, SOURCES, TestMemory, Trial, close, create, fell, numbers_at, open,
    placed, run, submit,
};

/// Numbers in a choice: one for each sector.
const CHOICES: usize = SECTORS as usize;

/// A number for a sector that names the content written last, whatever there is.
const KEPT: u32 = 9;

/// A choice that keeps all that was written.
static ALL: [u32; CHOICES] = [KEPT; CHOICES];

/// What an image opens to: its rows, `NONE` where there is none, and the entry that comes next, or why it opens to no
/// hill.
type Opens = Result<(Numbers, Numbers, u64), Refusal>;

/// No row.
const NONE: Numbers = (0, 0, 0);

/// What is due before a hill is there.
const NO_HILL: Opens = Err(Refusal::NotAHill);

/// What is due of a hill without warriors.
const NOBODY: Opens = Ok((NONE, NONE, 1));

/// What is due of a hill of one warrior.
const ONE: Opens = Ok(((1, 0, 0), NONE, 2));

/// What is due of a hill of two: both have two points, and the one that came first is one older.
const TWO: Opens = Ok(((1, 2, 1), (2, 2, 0), 3));

/// What is due of a hill of two on which a third fell.
const FALLEN: Opens = Ok(((1, 2, 1), (2, 2, 0), 4));

/// What is due if the device stops after `calls` calls: without the header that is written and not synced, and with it.
/// Counted by hand from the order of the calls. A creation is a sync, two reads, the header and a sync. Each warrior
/// that is placed is the four sectors of its slot, a sync, the header and a sync, and the one that falls the header and
/// a sync.
fn due(calls: u64) -> (Opens, Opens) {
    match calls {
        0..=3 => (NO_HILL, NO_HILL),
        4 => (NO_HILL, NOBODY),
        5..=10 => (NOBODY, NOBODY),
        11 => (NOBODY, ONE),
        12..=17 => (ONE, ONE),
        18 => (ONE, TWO),
        19 => (TWO, TWO),
        20 => (TWO, FALLEN),
        _ => (FALLEN, FALLEN),
    }
}

/// What is due if one sector alone is kept of all that was not synced. If that is a header, it is in sector 0 or 1.
fn due_with(n: usize, calls: u64) -> Opens {
    let (lost, kept) = due(calls);
    let header = match calls {
        11 | 20 => 1,
        _ => 0,
    };
    if n == header { kept } else { lost }
}

/// The device, after a creation and the four submissions.
fn submitted_on<M: TestMemory>(rt: &impl Abort, memory: M, device: M::Device) -> M::Device {
    match create(memory, device, small(rt)) {
        Ok(mut store) => {
            drop(replies_of(rt, &mut store, &SOURCES));
            close(store)
        }
        Err((device, _)) => device,
    }
}

/// What a device opens to.
fn opens_to<M: TestMemory>(rt: &impl Abort, memory: M, device: M::Device) -> Opens {
    match open(memory, device) {
        Ok(store) => Ok(hill_of(rt, store)),
        Err((device, refusal)) => {
            drop(device);
            Err(refusal)
        }
    }
}

/// The hill of a store, which is dropped. The entry that comes next is that of a warrior which is submitted.
fn hill_of<M: TestMemory>(
    rt: &impl Abort,
    mut store: Store<M::Device, M>,
) -> (Numbers, Numbers, u64) {
    let (first, second) = (row_at(rt, &store, 0), row_at(rt, &store, 1));
    let reply = submit(&mut store, b"DAT 0,0");
    drop(store);
    (first, second, entry_of(rt, reply))
}

/// The entry that a warrior was counted as.
fn entry_of(rt: &impl Abort, reply: Reply) -> u64 {
    match reply {
        Reply::Placed { entry, .. } | Reply::Fell { entry, .. } => Some(entry),
        _ => None,
    }
    .expect(rt, "a warrior is counted")
}

/// The row at a place of the table.
fn row_at<M: TestMemory>(rt: &impl Abort, store: &Store<M::Device, M>, place: usize) -> Numbers {
    match numbers_at(store, place).expect(rt, "there is memory") {
        Some(row) => row,
        None => NONE,
    }
}

/// An image of a device that stopped after `calls` calls opens to what is due.
fn expect_image<M: TestMemory>(
    rt: &impl Abort,
    memory: M,
    device: M::Device,
    expected: Opens,
    calls: u64,
) {
    let found = opens_to(rt, memory, device);
    expect_same(rt, &(calls, found), &(calls, expected), "an image");
}

/// A choice that keeps what was written to one sector alone.
fn choice_of(n: usize) -> [u32; CHOICES] {
    let mut choice = [0; CHOICES];
    if let Some(place) = choice.get_mut(n) {
        *place = KEPT;
    }
    choice
}

/// The images: all that was not synced is lost, all of it is kept, and each sector by itself is kept.
fn expect_images<M: TestMemory>(rt: &impl Abort, memory: M, calls: u64) {
    let device = blank_within(rt, memory, calls, FuseKind::Stop);
    let disk = memory.within(submitted_on(rt, memory, device));
    let (lost, kept) = due(calls);
    expect_image(rt, memory, image_of(rt, memory, &disk, &[]), lost, calls);
    expect_image(rt, memory, image_of(rt, memory, &disk, &ALL), kept, calls);
    for n in 0..CHOICES {
        let image = image_of(rt, memory, &disk, &choice_of(n));
        expect_image(rt, memory, image, due_with(n, calls), calls);
    }
    drop(disk);
}

/// What the list is answered if the device fails once, after 17 calls.
static CUT_SHORT: [Reply; 2] = [FIRST, Reply::Disk];

/// A device that failed once, after 17 calls of the script.
fn failed_once<M: TestMemory>(rt: &impl Abort, memory: M, device: M::Device) -> M::Device {
    let mut store = created_on(rt, memory, device);
    expect_replies(rt, &mut store, &SOURCES, &CUT_SHORT);
    close(store)
}

/// The rows of the hill, once it is opened again after a fault of its device, and what `JMP 0` is answered there.
fn expect_around_a_fault<M: TestMemory>(
    rt: &impl Abort,
    memory: M,
    kind: FuseKind,
    due: (Numbers, Reply),
) {
    let device = blank_within(rt, memory, 17, kind);
    let mut store = opened_on(rt, memory, failed_once(rt, memory, device));
    let (first, second) = (row_at(rt, &store, 0), row_at(rt, &store, 1));
    let reply = submit(&mut store, b"JMP 0");
    drop(store);
    expect_same(
        rt,
        &(first.0, second, reply),
        &(1, due.0, due.1),
        "around a fault",
    );
}

/// A stop at each call, and a write of a header that fails.
struct Sweeps;

impl<R: Abort> Trial<R> for Sweeps {
    fn run<M: TestMemory>(rt: &R, memory: M, _: M) {
        for calls in 0..=21 {
            expect_images(rt, memory, calls);
        }
        let (lost, kept) = ((NONE, placed!(2, 2, 2)), ((2, 2, 0), fell!(3, 4)));
        expect_around_a_fault(rt, memory, FuseKind::FailLost, lost);
        expect_around_a_fault(rt, memory, FuseKind::FailKept, kept);
    }
}

#[test]
fn stops_and_a_fault(rt: HostRuntime) {
    run::<HostRuntime, Sweeps>(&rt, rt.alloc());
}
