//! Browsers that wait for a slot, and those whose slots they are given.

use crate::callers::{Cue, Deed};
use crate::serving::{ALL, Due, act_within, within};
use koth_service::Limits;
use std::process::Abort;
use tests_stores::{TestMemory, Trial, run};

const HILL: &str = "GET / HTTP/1.1\r\nHost: 127.0.0.1:80\r\n\r\n";

/// The line of a request for the page of a hill without warriors, and of its answer.
const SHOWN: &str = "GET / HTTP/1.1: 200 473";

/// Two browsers that say nothing have both slots. One that waits is given that of the first one after a quarter of a
/// second, and is answered; the second one keeps its slot.
static SILENT_BROWSERS: [Cue; 9] = [
    (0, Deed::Visits(7)),
    (10, Deed::Visits(8)),
    (100, Deed::Visits(9)),
    (100, Deed::Takes(9, ALL)),
    (100, Deed::Says(9, HILL)),
    (250, Deed::Ends(9)),
    (300, Deed::Ends(8)),
    (400, Deed::Calls(1)),
    (400, Deed::Ends(1)),
];

static SILENT_BROWSERS_DUE: [Due; 6] = [
    Due::Closed(7, 250),
    Due::Told("7 ", &["Displaced"]),
    Due::Told("9 ", &[SHOWN]),
    Due::Closed(9, 250),
    Due::Closed(8, 300),
    Due::Told("8 ", &["Gone"]),
];

/// A browser whose request isn't whole keeps its slot for 2 seconds if another waits, and one that came later longer.
/// One whose request is whole keeps it, though it takes no byte of its answer.
static HALF_REQUESTS: [Cue; 9] = [
    (0, Deed::Visits(7)),
    (0, Deed::Says(7, HILL)),
    (5, Deed::Visits(8)),
    (5, Deed::Says(8, "GET / HT")),
    (10, Deed::Visits(9)),
    (10, Deed::Says(9, "GET ")),
    (1_000, Deed::Says(8, "TP/1.1\r\n")),
    (13_000, Deed::Calls(1)),
    (13_000, Deed::Ends(1)),
];

static HALF_REQUESTS_DUE: [Due; 5] = [
    Due::Closed(8, 2_005),
    Due::Told("8 ", &["Displaced"]),
    Due::Told("7 ", &[SHOWN]),
    Due::Closed(9, 12_005),
    Due::Told("9 ", &["Late"]),
];

/// With one browser for an address the second one is disconnected at once, while a peer of that address is served.
static BROWSERS_OF_AN_ADDRESS: [Cue; 6] = [
    (0, Deed::Visits(7)),
    (10, Deed::Visits(8)),
    (20, Deed::Calls(1)),
    (20, Deed::Takes(1, ALL)),
    (20, Deed::Says(1, "BOGUS\n")),
    (30, Deed::Ends(1)),
];

static BROWSERS_OF_AN_ADDRESS_DUE: [Due; 4] = [
    Due::Closed(8, 10),
    Due::Told("8 ", &["Refused"]),
    Due::Told("7 ", &[]),
    Due::Heard(1, "BAD\n"),
];

/// The limits of that service.
const ONE_OF_AN_ADDRESS: Limits = Limits {
    peers: 2,
    peers_per_address: Some(1),
    browsers: 2,
    connections: Some(1),
};

struct SlotTrial;

impl<R: Abort + AllocGlobal> Trial<R> for SlotTrial {
    fn run<M: TestMemory>(rt: &R, memory: M, _: M) {
        act_within(
            rt,
            memory,
            &SILENT_BROWSERS,
            within(1, 1),
            &SILENT_BROWSERS_DUE,
        );
        act_within(rt, memory, &HALF_REQUESTS, within(1, 1), &HALF_REQUESTS_DUE);
        act_within(
            rt,
            memory,
            &BROWSERS_OF_AN_ADDRESS,
            ONE_OF_AN_ADDRESS,
            &BROWSERS_OF_AN_ADDRESS_DUE,
        );
    }
}

#[test]
fn slots(rt: HostRuntime) {
    run::<HostRuntime, SlotTrial>(&rt, rt.alloc());
}
