//! Each growth of memory of a session refused in turn: what is answered then, what is after it, and what the same input
//! is answered once there is memory.

use crate::compare::expect_same;
use crate::hills::{Ground, NEVER, empty_hill, reopened};
use crate::sessions::{LINES, expect_session};
use crate::streams::plain;
use hill_store::Store;
use koth_session::SessionEnd;
use sector_disk::FuseKind;
use std::process::Abort;
use tests_fixtures::rows;
use tests_stores::{TestMemory, Trial, run};

const NONE: &str = ".\n";

const ONE: &str = "1 1 0 0 Unnamed by Anonymous\n.\n";

/// Of two that tie both rounds.
const TIED: &str = "1 1 2 1 Unnamed by Anonymous\n2 2 2 0 Unnamed by Anonymous\n.\n";

/// Of one that won both against the other.
const WON: &str = "1 1 6 1 Unnamed by Anonymous\n2 2 0 0 Unnamed by Anonymous\n.\n";

/// A number of growths, and how a session ends if one of them is refused: its answers, its end, and the table of the
/// hill after it.
type Refused = (u64, &'static str, SessionEnd, &'static str);

/// The growths of a session on one warrior, in their order, and then how it ends without a refusal. First come the four
/// buffers, without which nothing is read, and then those of the assembler.
static OF_ONE: [Refused; 3] = [
    (4, "", SessionEnd::Memory, NONE),
    (10, "MEMORY\nBAD\n", SessionEnd::Quit, NONE),
    (1, "PLACED 1 1 0\nBAD\n", SessionEnd::Quit, ONE),
];

/// The same if the device has its memory there too: the first writes to the four sectors of a slot and to a header's
/// follow.
static OF_ONE_AND_DEVICE: [Refused; 4] = [
    (4, "", SessionEnd::Memory, NONE),
    (10, "MEMORY\nBAD\n", SessionEnd::Quit, NONE),
    (5, "", SessionEnd::StoreFailed, NONE),
    (1, "PLACED 1 1 0\nBAD\n", SessionEnd::Quit, ONE),
];

/// Lines of a session on three warriors and their table.
const THREE: &[u8] = b"SUBMIT\nMOV 0,1\n.\nSUBMIT\nJMP 0\n.\nSUBMIT\nDAT 0,0\n.\nSHOW\n";

/// The same of these. The second header is written to a sector that was written before, as is the third. The table is a
/// list of rows and a text of 60 bytes, which grows from 8 to 64.
static OF_THREE_AND_DEVICE: [Refused; 8] = rows! {
    4 => "", SessionEnd::Memory, NONE;
    10
        => "MEMORY\nPLACED 1 1 0\nPLACED 2 2 0\n1 1 6 1 Unnamed by Anonymous\n2 2 0 0 Unnamed by Anonymous\n.\n",
            SessionEnd::EndOfInput, WON;
    5 => "", SessionEnd::StoreFailed, NONE;
    10
        => "PLACED 1 1 0\nMEMORY\nPLACED 2 2 0\n1 1 6 1 Unnamed by Anonymous\n2 2 0 0 Unnamed by Anonymous\n.\n",
            SessionEnd::EndOfInput, WON;
    4 => "PLACED 1 1 0\n", SessionEnd::StoreFailed, ONE;
    10
        => "PLACED 1 1 0\nPLACED 2 2 2\nMEMORY\n1 1 2 1 Unnamed by Anonymous\n2 2 2 0 Unnamed by Anonymous\n.\n",
            SessionEnd::EndOfInput, TIED;
    5 => "PLACED 1 1 0\nPLACED 2 2 2\nFELL 3 0\n", SessionEnd::Memory, TIED;
    1
        => "PLACED 1 1 0\nPLACED 2 2 2\nFELL 3 0\n1 1 2 1 Unnamed by Anonymous\n2 2 2 0 Unnamed by Anonymous\n.\n",
            SessionEnd::EndOfInput, TIED;
};

/// A session on a store answers so, and ends so.
fn answer<M: TestMemory>(
    rt: &(impl Abort + AllocGlobal),
    memory: M,
    store: &mut Store<M::Device, M>,
    lines: &[u8],
    end: SessionEnd,
    answers: &str,
) {
    let due = (end, 0, 0);
    expect_session(
        rt,
        memory,
        store,
        &[lines],
        plain(),
        due,
        answers.as_bytes(),
    );
}

/// The table of a store is this, and so is that of the hill that is opened on its device.
fn expect_table<M: TestMemory>(
    rt: &(impl Abort + AllocGlobal),
    memory: M,
    mut store: Store<M::Device, M>,
    table: &str,
) {
    answer(
        rt,
        memory,
        &mut store,
        b"SHOW\n",
        SessionEnd::EndOfInput,
        table,
    );
    let mut store = reopened(rt, memory, store);
    answer(
        rt,
        memory,
        &mut store,
        b"SHOW\n",
        SessionEnd::EndOfInput,
        table,
    );
    drop(store);
}

/// A session on an empty hill without growth `k` ends so, and `refused` were refused.
fn expect_ending<M: TestMemory>(
    rt: &(impl Abort + AllocGlobal),
    ground: Ground<M>,
    k: u64,
    lines: &[u8],
    ending: Refused,
    refused: u64,
) {
    let (_, answers, end, table) = ending;
    let mut store = empty_hill(rt, ground);
    ground.memory.refuse(k, 1);
    answer(rt, ground.memory, &mut store, lines, end, answers);
    expect_same(rt, &ground.memory.refused(), &refused, "refused");
    ground.memory.refuse(0, 0);
    expect_table(rt, ground.memory, store, table);
}

/// Each growth of a session on these lines is refused in turn, and each time they are given to a session with memory
/// then.
fn expect_growths<M: TestMemory>(
    rt: &(impl Abort + AllocGlobal),
    ground: Ground<M>,
    lines: &[u8],
    refusals: &[Refused],
) {
    let Some((done, refusals)) = refusals.split_last() else {
        return;
    };
    let mut k: u64 = 0;
    for ending in refusals {
        let (growths, _, _, _) = *ending;
        for _ in 0..growths {
            expect_ending(rt, ground, k, lines, *ending, 1);
            expect_ending(rt, ground, u64::MAX, lines, *done, 0);
            k = k.saturating_add(1);
        }
    }
    expect_ending(rt, ground, k, lines, *done, 0);
}

/// The same where the device has its memory from there.
fn expect_where<M: TestMemory>(
    rt: &(impl Abort + AllocGlobal),
    memory: M,
    of_device: M,
    lines: &[u8],
    refusals: &[Refused],
) {
    let ground = Ground {
        memory,
        of_device,
        calls: NEVER,
        kind: FuseKind::FailLost,
    };
    expect_growths(rt, ground, lines, refusals);
}

/// Growths where the device has memory of its own, and where it has its memory from where the session has it.
struct Growths;

impl<R: Abort + AllocGlobal> Trial<R> for Growths {
    fn run<M: TestMemory>(rt: &R, memory: M, disks: M) {
        expect_where(rt, memory, disks, LINES, &OF_ONE);
        expect_where(rt, memory, memory, LINES, &OF_ONE_AND_DEVICE);
        expect_where(rt, memory, memory, THREE, &OF_THREE_AND_DEVICE);
    }
}

#[test]
fn of_sessions(rt: HostRuntime) {
    run::<HostRuntime, Growths>(&rt, rt.alloc());
}
