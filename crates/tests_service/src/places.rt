//! Peers that wait for a place, and those whose places they are given.

use crate::callers::{Cue, Deed};
use crate::serving::{ALL, Due, act_within, within};
use std::process::Abort;
use tests_stores::{TestMemory, Trial, run};

/// A peer whose bytes make no whole line keeps its place while no one waits. If another peer waits, it keeps the place
/// for 60 seconds after its last line, be it one of a source, and no longer.
static BYTES_WITHOUT_A_LINE: [Cue; 11] = [
    (0, Deed::Calls(1)),
    (0, Deed::Takes(1, ALL)),
    (0, Deed::Says(1, "SH")),
    (50_000, Deed::Says(1, "O")),
    (100_000, Deed::Says(1, "W\n")),
    (100_001, Deed::Calls(2)),
    (100_001, Deed::Takes(2, ALL)),
    (100_001, Deed::Says(2, "BOGUS\n")),
    (150_000, Deed::Says(1, "SUBMIT\nMOV")),
    (209_999, Deed::Says(1, " 0,1")),
    (210_001, Deed::Ends(2)),
];

static BYTES_WITHOUT_A_LINE_DUE: [Due; 5] = [
    Due::Heard(1, ".\n"),
    Due::Closed(1, 210_000),
    Due::Told("1 ", &["connected", "Displaced"]),
    Due::Heard(2, "BAD\n"),
    Due::Closed(2, 210_001),
];

/// If another peer waits, a peer that sends nothing keeps its place for 2 seconds. One that sent a byte in these keeps
/// it longer.
static A_FIRST_BYTE: [Cue; 9] = [
    (0, Deed::Calls(1)),
    (1_000, Deed::Calls(2)),
    (1_999, Deed::Takes(2, ALL)),
    (2_500, Deed::Calls(3)),
    (3_999, Deed::Says(2, "B")),
    (9_000, Deed::Says(2, "OGUS\nQUIT\n")),
    (9_000, Deed::Ends(2)),
    (9_500, Deed::Calls(4)),
    (11_001, Deed::Ends(4)),
];

static A_FIRST_BYTE_DUE: [Due; 7] = [
    Due::Closed(1, 2_000),
    Due::Told("1 ", &["connected", "Displaced"]),
    Due::Heard(2, "BAD\n"),
    Due::Closed(2, 9_000),
    Due::Told("2 ", &["connected", "By(Quit)"]),
    Due::Closed(3, 11_000),
    Due::Told("3 ", &["connected", "Displaced"]),
];

/// Of two peers whose places are unused the one that has gone longer without a line is displaced first.
static THE_LONGEST_UNUSED: [Cue; 13] = [
    (0, Deed::Calls(1)),
    (0, Deed::Takes(1, ALL)),
    (0, Deed::Calls(2)),
    (0, Deed::Says(2, "B")),
    (10, Deed::Says(1, "BOGUS\n")),
    (50_000, Deed::Says(1, "B")),
    (50_000, Deed::Says(2, "O")),
    (61_000, Deed::Calls(3)),
    (61_000, Deed::Says(3, "BOGUS\n")),
    (61_000, Deed::Takes(3, ALL)),
    (62_000, Deed::Calls(4)),
    (63_000, Deed::Ends(3)),
    (63_000, Deed::Ends(4)),
];

static THE_LONGEST_UNUSED_DUE: [Due; 6] = [
    Due::Closed(2, 61_000),
    Due::Told("2 ", &["connected", "Displaced"]),
    Due::Heard(1, "BAD\n"),
    Due::Closed(1, 62_000),
    Due::Told("1 ", &["connected", "Displaced"]),
    Due::Told("3 ", &["connected", "By(EndOfInput)"]),
];

/// A peer whose command waits for its turn during a submission of 70 seconds isn't displaced for another one, neither
/// before its command is carried out nor right after it; nor is the one that submitted. Its table is that of the hill
/// before the submission.
static A_TURN_THAT_IS_AWAITED: [Cue; 13] = [
    (0, Deed::Calls(1)),
    (0, Deed::Takes(1, ALL)),
    (0, Deed::Calls(2)),
    (0, Deed::Takes(2, ALL)),
    (1, Deed::Lasts(70_000)),
    (1, Deed::Says(1, "SUBMIT\nMOV 0,1\n.\n")),
    (1, Deed::Says(2, "SHOW\n")),
    (10_000, Deed::Calls(3)),
    (10_000, Deed::Takes(3, ALL)),
    (10_000, Deed::Says(3, "BOGUS\n")),
    (80_000, Deed::Ends(2)),
    (80_001, Deed::Ends(1)),
    (80_001, Deed::Ends(3)),
];

static A_TURN_THAT_IS_AWAITED_DUE: [Due; 5] = [
    Due::Told("1 ", &["connected", "PLACED 1 1 0", "By(EndOfInput)"]),
    Due::Heard(2, ".\n"),
    Due::Closed(2, 80_000),
    Due::Told("2 ", &["connected", "By(EndOfInput)"]),
    Due::Heard(3, "BAD\n"),
];

/// Peers whose sessions have ended, by `QUIT` and by the end of their bytes, have all their answers before they are
/// disconnected.
static ANSWERS_THAT_ARE_OWED: [Cue; 9] = [
    (0, Deed::Calls(1)),
    (0, Deed::Says(1, "BOGUS\nQUIT\n")),
    (0, Deed::Ends(1)),
    (0, Deed::Calls(2)),
    (0, Deed::Says(2, "BOGUS\n")),
    (0, Deed::Ends(2)),
    (1, Deed::Takes(2, 2)),
    (30_000, Deed::Takes(1, ALL)),
    (59_999, Deed::Takes(2, ALL)),
];

static ANSWERS_THAT_ARE_OWED_DUE: [Due; 6] = [
    Due::Heard(1, "BAD\n"),
    Due::Closed(1, 30_000),
    Due::Told("1 ", &["connected", "By(Quit)"]),
    Due::Heard(2, "BAD\n"),
    Due::Closed(2, 59_999),
    Due::Told("2 ", &["connected", "By(EndOfInput)"]),
];

/// A peer whose first bytes come during a submission of 3 seconds isn't displaced for another one, though nothing was
/// read of it until then.
static BYTES_DURING_A_SUBMISSION: [Cue; 11] = [
    (0, Deed::Calls(2)),
    (0, Deed::Takes(2, ALL)),
    (0, Deed::Calls(1)),
    (0, Deed::Takes(1, ALL)),
    (1, Deed::Lasts(3_000)),
    (1, Deed::Says(1, "SUBMIT\nMOV 0,1\n.\n")),
    (2, Deed::Calls(3)),
    (1_000, Deed::Says(2, "BOGUS\n")),
    (4_000, Deed::Ends(2)),
    (4_001, Deed::Ends(1)),
    (4_001, Deed::Ends(3)),
];

static BYTES_DURING_A_SUBMISSION_DUE: [Due; 3] = [
    Due::Heard(2, "BAD\n"),
    Due::Closed(2, 4_000),
    Due::Told("2 ", &["connected", "By(EndOfInput)"]),
];

struct PlaceTrial;

impl<R: Abort + AllocGlobal> Trial<R> for PlaceTrial {
    fn run<M: TestMemory>(rt: &R, memory: M, _: M) {
        act_within(
            rt,
            memory,
            &BYTES_WITHOUT_A_LINE,
            within(1, 2),
            &BYTES_WITHOUT_A_LINE_DUE,
        );
        act_within(rt, memory, &A_FIRST_BYTE, within(1, 4), &A_FIRST_BYTE_DUE);
        act_within(
            rt,
            memory,
            &THE_LONGEST_UNUSED,
            within(2, 4),
            &THE_LONGEST_UNUSED_DUE,
        );
        act_within(
            rt,
            memory,
            &A_TURN_THAT_IS_AWAITED,
            within(2, 3),
            &A_TURN_THAT_IS_AWAITED_DUE,
        );
        act_within(
            rt,
            memory,
            &ANSWERS_THAT_ARE_OWED,
            within(2, 2),
            &ANSWERS_THAT_ARE_OWED_DUE,
        );
        act_within(
            rt,
            memory,
            &BYTES_DURING_A_SUBMISSION,
            within(2, 3),
            &BYTES_DURING_A_SUBMISSION_DUE,
        );
    }
}

#[test]
fn places(rt: HostRuntime) {
    run::<HostRuntime, PlaceTrial>(&rt, rt.alloc());
}
