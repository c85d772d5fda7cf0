//! How sessions end if a read, a write or a call of the device fails.

use crate::hills::{empty_hill, expect_count, failing, reopened};
use crate::sessions::{LINES, answered, expect_alone, expect_session};
use crate::streams::{Manner, plain};
use hill_store::Store;
use koth_session::SessionEnd;
use sector_disk::FuseKind;
use std::process::Abort;
use tests_fixtures::{FULL, Full};
use tests_stores::{TestMemory, Trial, run};

/// Of reads of `read` bytes this one fails. What came before it is answered, and stays.
fn expect_read<M: TestMemory>(
    rt: &(impl Abort + AllocGlobal),
    memory: M,
    lines: &[u8],
    read: usize,
    fails_at: u64,
    answers: &[u8],
) {
    let manner = Manner {
        read,
        fails_at,
        ..plain()
    };
    let due = (SessionEnd::ReadFault, 1, 0);
    let count = usize::from(answers.starts_with(b"PLACED "));
    expect_alone(rt, memory, &[lines], manner, due, answers, count);
}

/// `reads` reads of `read` bytes, each of which fails once, and one more, which isn't made.
fn expect_reads<M: TestMemory>(
    rt: &(impl Abort + AllocGlobal),
    memory: M,
    read: usize,
    reads: u64,
) {
    for fails_at in 1..=reads {
        let came = (fails_at.saturating_sub(1) as usize).saturating_mul(read);
        expect_read(rt, memory, LINES, read, fails_at, answered(came));
    }
    let manner = Manner {
        read,
        fails_at: reads.saturating_add(1),
        ..plain()
    };
    let due = (SessionEnd::Quit, 0, 0);
    expect_alone(rt, memory, &[LINES], manner, due, answered(28), 1);
}

/// It takes seven reads of four bytes or 28 of one, each of which fails once. What came before it is answered.
struct Reads;

impl<R: Abort + AllocGlobal> Trial<R> for Reads {
    fn run<M: TestMemory>(rt: &R, memory: M, _: M) {
        expect_reads(rt, memory, 4, 7);
        expect_reads(rt, memory, 1, 28);
        expect_read(rt, memory, b"SHOW\n", 5, 2, b".\n");
    }
}

#[test]
fn a_read_that_fails(rt: HostRuntime) {
    run::<HostRuntime, Reads>(&rt, rt.alloc());
}

/// A session of one warrior whose output takes `room` bytes, `written` at a time, and then is full. It takes the first
/// bytes of the answers, and the warrior stays.
fn expect_full<M: TestMemory>(
    rt: &(impl Abort + AllocGlobal),
    memory: M,
    lines: &[u8],
    answers: &[u8],
    written: usize,
    room: usize,
    full: Full,
) {
    let manner = Manner {
        written,
        room,
        full,
        ..plain()
    };
    let (taken, rest) = answers.split_at(room.min(answers.len()));
    let due = if rest.is_empty() {
        (SessionEnd::Quit, 0, 0)
    } else {
        (SessionEnd::WriteFault, 0, 1)
    };
    expect_alone(rt, memory, &[lines], manner, due, taken, 1);
}

/// Each number of bytes, up to all of the answers, whatever the output does then.
fn expect_rooms<M: TestMemory>(
    rt: &(impl Abort + AllocGlobal),
    memory: M,
    lines: &[u8],
    answers: &[u8],
) {
    for room in 0..=answers.len() {
        for full in &FULL {
            for written in [1, 4, usize::MAX] {
                expect_full(rt, memory, lines, answers, written, room, *full);
            }
        }
    }
}

/// Of a session with a table, and of one without.
struct Rooms;

impl<R: Abort + AllocGlobal> Trial<R> for Rooms {
    fn run<M: TestMemory>(rt: &R, memory: M, _: M) {
        expect_rooms(rt, memory, LINES, answered(28));
        expect_rooms(
            rt,
            memory,
            b"SUBMIT\n;name Imp\n;author A. K. Dewdney\nMOV 0,1\n.\nSHOW\nQUIT\nSHOW\n",
            b"PLACED 1 1 0\n1 1 0 0 Imp by A. K. Dewdney\n.\n",
        );
    }
}

#[test]
fn a_writer_that_is_full(rt: HostRuntime) {
    run::<HostRuntime, Rooms>(&rt, rt.alloc());
}

/// Lines of a session whose device fails in a submission, or did before, its answers and its end: then a table is
/// answered, and no submission.
static ON_A_FAILED_STORE: [(&[u8], &[u8], SessionEnd); 4] = [
    (LINES, b"", SessionEnd::StoreFailed),
    (b"SHOW\nQUIT\n", b".\n", SessionEnd::Quit),
    (b"SUBMIT\n.\nSHOW\n", b"", SessionEnd::StoreFailed),
    (
        b"SHOW\nSUBMIT\nMOV 0,1\n.\n",
        b".\n",
        SessionEnd::StoreFailed,
    ),
];

/// Sessions on a store whose device fails in the first one. The table stays empty.
fn expect_failed<M: TestMemory>(
    rt: &(impl Abort + AllocGlobal),
    memory: M,
    store: &mut Store<M::Device, M>,
) {
    for (lines, answers, end) in &ON_A_FAILED_STORE {
        let due = (*end, 0, 0);
        expect_session(rt, memory, store, &[*lines], plain(), due, *answers);
        expect_count(rt, store, 0);
    }
}

/// A device that fails after these calls leaves `count` warriors on the hill that is opened on it.
fn expect_after<M: TestMemory>(
    rt: &(impl Abort + AllocGlobal),
    memory: M,
    calls: u64,
    kind: FuseKind,
    count: usize,
) {
    let mut store = empty_hill(rt, failing(memory, calls, kind));
    expect_failed(rt, memory, &mut store);
    let store = reopened(rt, memory, store);
    expect_count(rt, &store, count);
    drop(store);
}

/// Five calls create the hill. Then come those of the warrior: four sectors of its slot, a sync, the header and a sync.
/// The one that fails isn't made, or it is.
struct Failures;

impl<R: Abort + AllocGlobal> Trial<R> for Failures {
    fn run<M: TestMemory>(rt: &R, memory: M, _: M) {
        for calls in 5..12 {
            let (lost, kept) = (usize::from(calls == 11), usize::from(calls >= 10));
            expect_after(rt, memory, calls, FuseKind::FailLost, lost);
            expect_after(rt, memory, calls, FuseKind::FailKept, kept);
        }
    }
}

#[test]
fn a_device_that_fails(rt: HostRuntime) {
    run::<HostRuntime, Failures>(&rt, rt.alloc());
}
