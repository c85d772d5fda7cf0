//! Commands whose reads and writes fail, or are interrupted by signals, at each place.

use crate::expecting::{Due, check_over, expect};
use crate::program::{Manner, Stage, Trial, on_host, whole};
use std::process::Abort;
use tests_fixtures::{FULL, Full};

/// A source of six bytes without an instruction.
const SOURCE: &str = "\n\n\n\n\n\n";

/// What is due for it.
static EMPTY: Due<'static> = Due {
    output: b"REFUSED 0 Empty\n",
    errors: "standard input:1:1: Empty: ",
    status: 1,
    refused: 0,
};

/// What is due if it can't be read.
static UNREAD: Due<'static> = Due {
    output: b"",
    errors: "DISK standard input: ",
    status: 3,
    refused: 0,
};

/// Commands, and how what they write begins.
static LINES: [(&str, &[u8]); 2] = [
    ("koth asm", b"REFUSED 0 Empty\n"),
    ("koth --help", b"A King of the Hi"),
];

/// The source is read `most` bytes at a time, by `reads` reads, each of which fails once. The last one finds the end.
fn check_reads<S: Stage>(rt: &impl Abort, stage: &S, most: usize, reads: u64) {
    for fails_at in 1..=reads {
        check_read(rt, stage, most, fails_at, fails_at, &UNREAD);
    }
    check_read(rt, stage, most, 0, reads, &EMPTY);
}

/// The same if read `fails_at` fails: then there are `reads` reads.
fn check_read<S: Stage>(
    rt: &impl Abort,
    stage: &S,
    most: usize,
    fails_at: u64,
    reads: u64,
    due: &Due<'_>,
) {
    let manner = Manner {
        read: most,
        fails_at,
        ..whole(SOURCE)
    };
    let made = check_over(rt, stage, u64::MAX, "koth asm", manner, due);
    expect(rt, made == reads, "reads", made, "another number");
}

/// An output is full at each byte of what is due.
fn check_rooms<S: Stage>(rt: &impl Abort, stage: &S, line: &str, due: &[u8]) {
    for room in 0..due.len() {
        check_full(rt, stage, line, due.split_at(room).0);
    }
}

/// An output is full after these bytes, in each way, and takes them at once or one by one.
fn check_full<S: Stage>(rt: &impl Abort, stage: &S, line: &str, begun: &[u8]) {
    for full in &FULL {
        check_room(rt, stage, line, usize::MAX, begun, *full);
        check_room(rt, stage, line, 1, begun, *full);
    }
}

/// The same in one way, if it takes `most` bytes at a time.
fn check_room<S: Stage>(
    rt: &impl Abort,
    stage: &S,
    line: &str,
    most: usize,
    begun: &[u8],
    full: Full,
) {
    let due = Due {
        output: begun,
        errors: "DISK standard output: ",
        status: 3,
        refused: 0,
    };
    let manner = Manner {
        read: 1,
        written: most,
        room: begun.len(),
        full,
        ..whole("")
    };
    check_over(rt, stage, u64::MAX, line, manner, &due);
}

/// Each read and each write is interrupted once, and passes one byte.
fn check_signals<S: Stage>(rt: &impl Abort, stage: &S) {
    let manner = Manner {
        read: 1,
        written: 1,
        signals: true,
        ..whole(SOURCE)
    };
    check_over(rt, stage, u64::MAX, "koth asm", manner, &EMPTY);
}

struct Failing;

impl<R: Abort> Trial<R> for Failing {
    fn run<S: Stage>(rt: &R, stage: &S) {
        check_reads(rt, stage, 4, 3);
        check_reads(rt, stage, 1, 7);
        for (line, due) in &LINES {
            check_rooms(rt, stage, line, due);
        }
        check_signals(rt, stage);
    }
}

#[test]
fn reads_and_writes_that_fail(rt: HostRuntime) {
    on_host::<HostRuntime, Failing>(&rt);
}
