//! Services whose peers and browsers act by a script, and whose clock, accepts and sockets are those of the script.

use crate::callers::{Cue, Deed};
use crate::serving::{ALL, Due, act_within, within};
use std::process::Abort;
use tests_stores::{TestMemory, Trial, run};

/// A peer that sent half a command is disconnected 60 seconds after its last byte. Another one is answered at once.
static A_SILENT_PEER: [Cue; 7] = [
    (0, Deed::Calls(1)),
    (0, Deed::Takes(1, ALL)),
    (7, Deed::Says(1, "SUB")),
    (9, Deed::Calls(2)),
    (9, Deed::Takes(2, ALL)),
    (60_006, Deed::Says(2, "BOGUS\nQUIT\n")),
    (60_006, Deed::Ends(2)),
];

static A_SILENT_PEER_DUE: [Due; 6] = [
    Due::Heard(1, ""),
    Due::Heard(2, "BAD\n"),
    Due::Closed(1, 60_007),
    Due::Closed(2, 60_006),
    Due::Told("1 ", &["connected", "Silent"]),
    Due::Told("2 ", &["connected", "By(Quit)"]),
];

/// A peer that speaks during a submission of 70 seconds is not silent, and is answered by the hill before it.
static A_LONG_SUBMISSION: [Cue; 10] = [
    (0, Deed::Calls(2)),
    (0, Deed::Takes(2, ALL)),
    (0, Deed::Calls(1)),
    (0, Deed::Takes(1, ALL)),
    (1, Deed::Lasts(70_000)),
    (1, Deed::Says(1, "SUBMIT\nMOV 0,1\n.\n")),
    (10_000, Deed::Says(2, "SHOW\n")),
    (80_000, Deed::Says(1, "SHOW\n")),
    (90_000, Deed::Ends(1)),
    (90_000, Deed::Ends(2)),
];

static A_LONG_SUBMISSION_DUE: [Due; 4] = [
    Due::Heard(1, "PLACED 1 1 0\n1 1 0 0 Unnamed by Anonymous\n.\n"),
    Due::Heard(2, ".\n"),
    Due::Closed(2, 90_000),
    Due::Told("2 ", &["connected", "By(EndOfInput)"]),
];

/// An accept that fails is tried again after 100 milliseconds. A third peer, where two may be at once, waits until one
/// of them was let go.
static ARRIVALS: [Cue; 13] = [
    (0, Deed::Fails),
    (0, Deed::Calls(1)),
    (0, Deed::Takes(1, ALL)),
    (200, Deed::Calls(2)),
    (200, Deed::Takes(2, ALL)),
    (300, Deed::Calls(3)),
    (300, Deed::Takes(3, ALL)),
    (300, Deed::Says(3, "BOGUS\nQUIT\n")),
    (400, Deed::Says(1, "QUIT\nSHOW\n")),
    (1_000, Deed::Says(1, "SHOW\n")),
    (1_500, Deed::Ends(3)),
    (2_000, Deed::Says(2, "BOGUS\nQUIT\n")),
    (2_100, Deed::Ends(2)),
];

static ARRIVALS_DUE: [Due; 7] = [
    Due::Heard(1, ""),
    Due::Heard(2, "BAD\n"),
    Due::Heard(3, "BAD\n"),
    Due::Closed(1, 1_400),
    Due::Closed(3, 1_500),
    Due::Closed(2, 2_100),
    Due::Told("3 ", &["connected", "By(Quit)"]),
];

const HILL: &str = "GET / HTTP/1.1\r\nHost: 127.0.0.1:80\r\n\r\n";

/// The page of a hill without warriors, as the host writes it.
const NOBODY: &str =
    "HTTP/1.1 200 OK\r\nContent-Type: text/html; charset=us-ascii\r\nContent-Length: 7\r\nConnection: close\r\nCache-Control: no-cache\r\nETag: \"b1605797adaa1f681a832e62ce5c864170e6cdd06a1ccd28305ced1112240b38\"\r\nX-Content-Type-Options: nosniff\r\nContent-Security-Policy: default-src 'none'; style-src 'unsafe-inline'; script-src 'unsafe-inline'; frame-ancestors 'none'; base-uri 'none'; form-action 'none'\r\nReferrer-Policy: no-referrer\r\nCross-Origin-Resource-Policy: same-origin\r\n\r\n0 here\n";

/// An accept of a browser that fails is tried again after 100 milliseconds, though nothing else happens until then.
static AN_ACCEPT_THAT_FAILS: [Cue; 7] = [
    (0, Deed::FailsBrowser),
    (0, Deed::Visits(7)),
    (0, Deed::Takes(7, ALL)),
    (0, Deed::Says(7, HILL)),
    (0, Deed::Ends(7)),
    (9_000, Deed::Calls(1)),
    (9_000, Deed::Ends(1)),
];

static AN_ACCEPT_THAT_FAILS_DUE: [Due; 2] = [Due::Heard(7, NOBODY), Due::Closed(7, 100)];

/// A browser whose request isn't there in 2 seconds is disconnected if another waits, and so is one that hasn't taken
/// its answer in 60, and one that never closes its connection. A third one waits for a slot, and a peer for none of
/// them. The answer has a head of 466 bytes.
static SLOW_BROWSERS: [Cue; 14] = [
    (0, Deed::Visits(7)),
    (0, Deed::Says(7, "GET / HT")),
    (0, Deed::Visits(8)),
    (0, Deed::Takes(8, 5)),
    (0, Deed::Says(8, HILL)),
    (1, Deed::Visits(9)),
    (1, Deed::Takes(9, ALL)),
    (1, Deed::Says(9, HILL)),
    (1_000, Deed::Says(7, "TP/1.1\r\n")),
    (9_500, Deed::Calls(1)),
    (9_500, Deed::Takes(1, ALL)),
    (9_500, Deed::Says(1, "BOGUS\n")),
    (70_000, Deed::Calls(2)),
    (70_000, Deed::Ends(2)),
];

static SLOW_BROWSERS_DUE: [Due; 9] = [
    Due::Closed(7, 2_000),
    Due::Heard(9, NOBODY),
    Due::Closed(9, 3_000),
    Due::Heard(8, "HTTP/"),
    Due::Closed(8, 60_000),
    Due::Heard(1, "BAD\n"),
    Due::Closed(1, 69_500),
    Due::Told("7 ", &["Displaced"]),
    Due::Told("8 ", &["GET / HTTP/1.1: 200 473"]),
];

struct ServiceTrial;

impl<R: Abort + AllocGlobal> Trial<R> for ServiceTrial {
    fn run<M: TestMemory>(rt: &R, memory: M, _: M) {
        act_within(rt, memory, &A_SILENT_PEER, within(2, 2), &A_SILENT_PEER_DUE);
        act_within(
            rt,
            memory,
            &A_LONG_SUBMISSION,
            within(2, 2),
            &A_LONG_SUBMISSION_DUE,
        );
        act_within(rt, memory, &ARRIVALS, within(2, 3), &ARRIVALS_DUE);
        act_within(
            rt,
            memory,
            &AN_ACCEPT_THAT_FAILS,
            within(2, 1),
            &AN_ACCEPT_THAT_FAILS_DUE,
        );
        act_within(rt, memory, &SLOW_BROWSERS, within(2, 2), &SLOW_BROWSERS_DUE);
    }
}

#[test]
fn services(rt: HostRuntime) {
    run::<HostRuntime, ServiceTrial>(&rt, rt.alloc());
}
