//! Sessions over streams: that no signal, no request of HTTP and no answer that is awaited ends one.

use crate::compare::expect_same;
use crate::hills::{NEVER, empty_hill, expect_count, failing, reopened};
use crate::streams::{Answers, Manner, Pieces, Taking, plain};
use hill_store::Store;
use koth_session::{Counted, SessionEnd, session};
use sector_disk::FuseKind;
use std::cell::Cell;
use std::io::Read;
use std::process::Abort;
use tests_stores::{TestMemory, Trial, run};

/// Lines of a session on one warrior.
pub(crate) const LINES: &[u8] = b"SUBMIT\nMOV 0,1\n.\nBOGUS\nQUIT\n";

/// What is answered to its first `count` bytes.
pub(crate) fn answered(count: usize) -> &'static [u8] {
    let answers = if count < 17 {
        ""
    } else if count < 23 {
        "PLACED 1 1 0\n"
    } else {
        "PLACED 1 1 0\nBAD\n"
    };
    answers.as_bytes()
}

/// How a session has to end, and the faults that its input and its output have to have.
pub(crate) type Due = (SessionEnd, u64, u64);

/// A session of these pieces on a store ends so, and answers so.
pub(crate) fn expect_session<M: TestMemory>(
    rt: &(impl Abort + AllocGlobal),
    memory: M,
    store: &mut Store<M::Device, M>,
    pieces: &[&[u8]],
    manner: Manner,
    due: Due,
    answers: &[u8],
) {
    let lines = Cell::new(0);
    let input = Pieces::new(pieces, manner, &lines);
    let output = Answers::new(rt.alloc(), manner, &lines);
    expect_over(rt, memory, store, input, output, due, answers);
}

/// The same over these streams.
fn expect_over<M: TestMemory, I: Read + Drop, O: Taking>(
    rt: &impl Abort,
    memory: M,
    store: &mut Store<M::Device, M>,
    input: I,
    output: O,
    due: Due,
    answers: &[u8],
) {
    let mut input = Counted::new(input);
    let mut output = Counted::new(output);
    let end = session(memory, &mut input, &mut output, store);
    let found = (end, input.faults(), output.faults());
    drop(input);
    let output = output.into_inner();
    expect_same(rt, &found, &due, "an end, and faults");
    expect_same(rt, &output.taken(), &answers, "answers");
    drop(output);
}

/// The same on an empty hill of its own, on which `count` warriors are then, and on the one that is opened on its
/// device.
pub(crate) fn expect_alone<M: TestMemory>(
    rt: &(impl Abort + AllocGlobal),
    memory: M,
    pieces: &[&[u8]],
    manner: Manner,
    due: Due,
    answers: &[u8],
    count: usize,
) {
    let mut store = empty_hill(rt, failing(memory, NEVER, FuseKind::FailLost));
    expect_session(rt, memory, &mut store, pieces, manner, due, answers);
    expect_count(rt, &store, count);
    let store = reopened(rt, memory, store);
    expect_count(rt, &store, count);
    drop(store);
}

/// Commands. Each but the last is answered by a line.
static COMMANDS: [&[u8]; 5] = [
    b"SHOW\n",
    b"SUBMIT\nMOV 0,1\n.\n",
    b"BOGUS\n",
    b"SUBMIT\n.\n",
    b"QUIT\n",
];

/// A peer sends a command only once the one before it was answered.
struct Commands;

impl<R: Abort + AllocGlobal> Trial<R> for Commands {
    fn run<M: TestMemory>(rt: &R, memory: M, _: M) {
        let due = (SessionEnd::Quit, 0, 0);
        let answers: &[u8] = b".\nPLACED 1 1 0\nBAD\nREFUSED 0 Empty\n";
        expect_alone(rt, memory, &COMMANDS, plain(), due, answers, 1);
    }
}

#[test]
fn no_answer_is_held_back(rt: HostRuntime) {
    run::<HostRuntime, Commands>(&rt, rt.alloc());
}

/// Each call of the streams is interrupted once.
struct Signalled;

impl<R: Abort + AllocGlobal> Trial<R> for Signalled {
    fn run<M: TestMemory>(rt: &R, memory: M, _: M) {
        let manner = Manner {
            read: 1,
            written: 1,
            is_interrupted: true,
            ..plain()
        };
        let due = (SessionEnd::Quit, 0, 0);
        expect_alone(rt, memory, &[LINES], manner, due, answered(28), 1);
    }
}

#[test]
fn signals_end_no_session(rt: HostRuntime) {
    run::<HostRuntime, Signalled>(&rt, rt.alloc());
}

/// A session over streams answers a request of HTTP, which ends that of a peer of a service, as any other lines.
struct Request;

impl<R: Abort + AllocGlobal> Trial<R> for Request {
    fn run<M: TestMemory>(rt: &R, memory: M, _: M) {
        let lines: &[u8] = b"POST / HTTP/1.1\r\nHost: here\r\n\r\nSHOW\n";
        let due = (SessionEnd::EndOfInput, 0, 0);
        let answers: &[u8] = b"BAD\nBAD\nBAD\n.\n";
        for most in [usize::MAX, 1] {
            let manner = Manner {
                read: most,
                written: most,
                ..plain()
            };
            expect_alone(rt, memory, &[lines], manner, due, answers, 0);
        }
    }
}

#[test]
fn a_request_is_no_command(rt: HostRuntime) {
    run::<HostRuntime, Request>(&rt, rt.alloc());
}
