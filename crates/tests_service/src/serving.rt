//! Services over sockets of no system, and what has to come of them.

use crate::callers::Cue;
use crate::compare::expect_same;
use crate::fakes::{Called, Fakes};
use crate::hills::{NEVER, failing, hill_on};
use crate::hosts::{Clerk, Shut};
use koth_service::{Limits, LogWrite, ServiceFault, Sockets, serve_peers};
use sector_disk::FuseKind;
use std::cell::Cell;
use std::process::Abort;
use tests_stores::TestMemory;

/// All bytes of answers that a peer may be sent.
pub(crate) const ALL: usize = 16_777_216;

/// `peers` peers and two browsers at once, until this number of sessions has ended.
pub(crate) fn within(peers: usize, connections: u32) -> Limits {
    Limits {
        peers,
        peers_per_address: None,
        browsers: 2,
        connections: Some(connections),
    }
}

/// The device fails once, after `calls` calls, and the hill may be opened again `openings` times. This ends the service
/// early, if something does.
#[derive(Clone, Copy)]
pub(crate) struct Trouble {
    pub(crate) calls: u64,
    pub(crate) openings: u32,
    pub(crate) fault: Option<ServiceFault<Shut>>,
}

/// No call fails.
const NONE: Trouble = Trouble {
    calls: NEVER,
    openings: 0,
    fault: None,
};

/// Serves those that call at these sockets, on this hill, and ends as it has to.
fn serve<M: TestMemory, S: Sockets, E: LogWrite>(
    rt: &impl Abort,
    memory: M,
    sockets: &mut S,
    limits: Limits,
    trouble: Trouble,
    told: &mut E,
) {
    let hill = hill_on(failing(memory, trouble.calls, FuseKind::FailLost));
    let store = hill.expect(rt, "a hill is created");
    let host = Clerk {
        memory,
        openings: Cell::new(trouble.openings),
    };
    let served = serve_peers(memory, sockets, limits, store, &host, told);
    drop(host);
    expect_same(rt, &served.err(), &trouble.fault, "what ended it");
}

/// What has to come of a service. Peers and browsers are named by their ports.
#[derive(Clone, Copy)]
pub(crate) enum Due {
    /// It heard these answers.
    Heard(u16, &'static str),
    /// Its connection was closed at this time.
    Closed(u16, u64),
    /// This was told of the peer that is named so, line by line.
    Told(&'static str, &'static [&'static str]),
    /// This is the line at this place of what was told.
    Line(usize, &'static str),
}

fn check_told(rt: &impl Abort, text: &str, peer: &str, events: &[&str]) {
    let mut rest = events.iter();
    for line in text.lines() {
        if let Some(event) = line.strip_prefix(peer) {
            expect_same(rt, &Some(event), &rest.next().copied(), peer);
        }
    }
    expect_same(rt, &rest.next().copied(), &None, peer);
}

/// This came of a service.
fn check_due<C: Called>(rt: &impl Abort, sockets: &C, text: &str, due: Due) {
    match due {
        Due::Heard(port, answers) => {
            let heard = sockets.heard(port).expect(rt, "it called");
            expect_same(rt, &heard, &answers.as_bytes(), "answers");
        }
        Due::Closed(port, time) => {
            let closed = sockets.closed(port);
            expect_same(rt, &closed, &Some(time), "a connection is closed");
        }
        Due::Told(peer, events) => check_told(rt, text, peer, events),
        Due::Line(place, line) => expect_same(rt, &text.lines().nth(place), &Some(line), "a line"),
    }
}

/// All this came of a service.
fn check_dues<C: Called>(rt: &impl Abort, sockets: &C, told: &[u8], dues: &[Due]) {
    let text = str::from_utf8(told).expect(rt, "it is text");
    for due in dues {
        check_due(rt, sockets, text, *due);
    }
}

/// Of a service of these peers and browsers within these limits all this comes.
pub(crate) fn act_within<M: TestMemory>(
    rt: &(impl Abort + AllocGlobal),
    memory: M,
    cues: &[Cue],
    limits: Limits,
    dues: &[Due],
) {
    act_on_a_fault(rt, memory, cues, limits, NONE, dues);
}

/// The same over a device that fails.
pub(crate) fn act_on_a_fault<M: TestMemory>(
    rt: &(impl Abort + AllocGlobal),
    memory: M,
    cues: &[Cue],
    limits: Limits,
    trouble: Trouble,
    dues: &[Due],
) {
    let mut sockets = Fakes::new(rt.alloc(), cues);
    let mut told = Vec::new(rt.alloc());
    serve(rt, memory, &mut sockets, limits, trouble, &mut told);
    check_dues(rt, &sockets, told.as_slice(), dues);
    drop(told);
    drop(sockets);
}
