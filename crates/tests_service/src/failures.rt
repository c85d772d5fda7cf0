//! Services over a device that fails in a submission.

use crate::callers::{Cue, Deed};
use crate::hosts::Shut;
use crate::serving::{ALL, Due, Trouble, act_on_a_fault, within};
use koth_service::ServiceFault;
use std::process::Abort;
use tests_stores::{TestMemory, Trial, run};

/// The device fails in the first submission, which isn't answered. The other peer is served on the hill as it was
/// before, opened again; or on none, if it can't be.
static A_DEVICE_THAT_FAILS: [Cue; 8] = [
    (0, Deed::Calls(1)),
    (0, Deed::Takes(1, ALL)),
    (0, Deed::Calls(2)),
    (0, Deed::Takes(2, ALL)),
    (0, Deed::Says(1, "BOGUS\nSUBMIT\nMOV 0,1\n.\nSHOW\n")),
    (0, Deed::Ends(1)),
    (1, Deed::Says(2, "SUBMIT\nMOV 0,1\n.\n")),
    (2, Deed::Ends(2)),
];

static A_DEVICE_THAT_FAILS_DUE: [Due; 3] = [
    Due::Heard(1, "BAD\n"),
    Due::Heard(2, "PLACED 1 1 0\n"),
    Due::Told("1 ", &["connected", "By(StoreFailed)"]),
];

/// What comes of it if the hill can't be opened again.
static A_HILL_THAT_IS_GONE_DUE: [Due; 1] = [Due::Heard(2, "")];

/// The device fails in a submission, and a hundred were answered before. The hill that is opened again has them all,
/// without the one that was cut off and with it. Of the 220 calls, 5 make the hill, 14 place two warriors, 196 count 98
/// that fall, and 5 write a slot and sync.
static A_HUNDRED_BEFORE: [Cue; 16] = [
    (0, Deed::Calls(1)),
    (0, Deed::Takes(1, ALL)),
    (0, Deed::Repeats(1, "SUBMIT\nDAT 0,0\n.\n", 100)),
    (0, Deed::Ends(1)),
    (1, Deed::Calls(2)),
    (1, Deed::Takes(2, ALL)),
    (1, Deed::Says(2, "SUBMIT\nMOV 0,1\n.\n")),
    (1, Deed::Ends(2)),
    (2, Deed::Calls(3)),
    (2, Deed::Takes(3, ALL)),
    (2, Deed::Says(3, "SHOW\n")),
    (2, Deed::Ends(3)),
    (3, Deed::Calls(4)),
    (3, Deed::Takes(4, ALL)),
    (3, Deed::Says(4, "SUBMIT\nMOV 0,1\n.\n")),
    (3, Deed::Ends(4)),
];

/// What comes of it if 220 calls pass: the first that fails is the write of the header, which isn't made.
static WITHOUT_A_HEADER_DUE: [Due; 5] = [
    Due::Line(100, "1 FELL 100 6"),
    Due::Heard(2, ""),
    Due::Told("2 ", &["connected", "By(StoreFailed)"]),
    Due::Heard(
        3,
        "1 1 3 1 Unnamed by Anonymous\n2 2 3 0 Unnamed by Anonymous\n.\n",
    ),
    Due::Heard(4, "PLACED 101 1 6\n"),
];

/// What comes of it if 221 calls pass: the first that fails is the sync after it.
static WITHOUT_A_SYNC_DUE: [Due; 5] = [
    Due::Line(100, "1 FELL 100 6"),
    Due::Heard(2, ""),
    Due::Told("2 ", &["connected", "By(StoreFailed)"]),
    Due::Heard(
        3,
        "1 101 6 0 Unnamed by Anonymous\n2 1 0 2 Unnamed by Anonymous\n.\n",
    ),
    Due::Heard(4, "PLACED 102 2 2\n"),
];

/// The device fails after these calls, the hill may be opened again that often, and so the service ends.
fn after(calls: u64, openings: u32, fault: Option<ServiceFault<Shut>>) -> Trouble {
    Trouble {
        calls,
        openings,
        fault,
    }
}

struct FailureTrial;

impl<R: Abort + AllocGlobal> Trial<R> for FailureTrial {
    fn run<M: TestMemory>(rt: &R, memory: M, _: M) {
        let dues = &A_DEVICE_THAT_FAILS_DUE;
        let first = after(8, 1, None);
        act_on_a_fault(rt, memory, &A_DEVICE_THAT_FAILS, within(2, 2), first, dues);
        let dues = &A_HILL_THAT_IS_GONE_DUE;
        let gone = after(8, 0, Some(ServiceFault::Reopening(Shut)));
        act_on_a_fault(rt, memory, &A_DEVICE_THAT_FAILS, within(2, 2), gone, dues);
        let dues = &WITHOUT_A_HEADER_DUE;
        let header = after(220, 1, None);
        act_on_a_fault(rt, memory, &A_HUNDRED_BEFORE, within(2, 4), header, dues);
        let dues = &WITHOUT_A_SYNC_DUE;
        let sync = after(221, 1, None);
        act_on_a_fault(rt, memory, &A_HUNDRED_BEFORE, within(2, 4), sync, dues);
    }
}

#[test]
fn failures(rt: HostRuntime) {
    run::<HostRuntime, FailureTrial>(&rt, rt.alloc());
}
