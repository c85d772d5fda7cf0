//! What peers do on a hill of two whose memory is refused, or whose device fails, and what comes of it.

use crate::peers::{NOBODY, THREE};
use crate::scripts::{Act, acting, follow, follow_over_a_fault, repeating};
use koth_session::{NotConnected, PeerEnd, Step};
use std::process::Abort;
use tests_stores::{TestMemory, Trial, run};

/// A peer takes four growths: for a line, a source, the bytes that wait and 96 bytes of answers.
static NOT_CONNECTED: [Act; 3] = [
    Act::Refuse(0),
    Act::NotConnected(NotConnected::Memory),
    Act::Refused(1),
];

/// Then one is taken for the answer after 24 of four bytes each.
static WITHOUT_AN_ANSWER: [Act; 10] = [
    Act::Refuse(4),
    Act::Connect(&[0]),
    Act::Lines(24),
    Act::Refused(0),
    Act::Ended(0, None),
    Act::Come(0, "\n"),
    Act::Serve(&[Step::Served(0)]),
    Act::Refused(1),
    Act::Ended(0, Some(PeerEnd::Memory)),
    Act::Waits(0, 96),
];

/// The ten growths of an assembly are refused in turn: each time the source is answered `MEMORY`, and nothing is in
/// progress.
static WITHOUT_AN_ASSEMBLY: [Act; 5] = [
    Act::Come(0, "SUBMIT\nMOV 0,1\n.\n"),
    Act::Refuse(0),
    Act::Steps(&[Step::Served(0)]),
    Act::Refused(1),
    Act::Send(0, "MEMORY\n"),
];

/// Then a submission is begun, and the growth for a table next to it is refused: that peer's session ends, and the
/// submission goes on.
static WITHOUT_A_TABLE: [Act; 11] = [
    Act::Come(0, "SUBMIT\nMOV 0,1\n.\n"),
    Act::Refuse(10),
    Act::Steps(&[Step::Stepped(0)]),
    Act::Refused(0),
    Act::Come(1, "SHOW\n"),
    Act::Refuse(0),
    Act::Steps(&[Step::Served(1)]),
    Act::Refused(1),
    Act::Ended(1, Some(PeerEnd::Memory)),
    Act::Serve(&[Step::Served(0)]),
    Act::Send(0, "PLACED 1 1 0\n"),
];

/// The ten growths of an assembly are refused in turn while the submission of another peer is in progress: each time
/// the source is answered `MEMORY`.
static WITHOUT_ANOTHER: [Act; 9] = [
    Act::Come(0, "SUBMIT\nMOV 0,1\n.\n"),
    Act::Steps(&[Step::Stepped(0)]),
    Act::Come(1, "SUBMIT\nMOV 0,1\n.\n"),
    Act::Refuse(0),
    Act::Steps(&[Step::Served(1)]),
    Act::Refused(1),
    Act::Send(1, "MEMORY\n"),
    Act::Leave(0),
    Act::Connect(&[0]),
];

/// With all ten it is put off, and judged after that submission.
static WITH_ANOTHER: [Act; 10] = [
    Act::Come(0, "SUBMIT\nMOV 0,1\n.\n"),
    Act::Steps(&[Step::Stepped(0)]),
    Act::Come(1, "SUBMIT\nDAT 0,0\n.\n"),
    Act::Refuse(10),
    Act::Steps(&[Step::PutOff(1)]),
    Act::Refused(0),
    Act::Refuse(u64::MAX),
    Act::Serve(&[Step::Served(0), Step::Served(1)]),
    Act::Send(0, "PLACED 1 1 0\n"),
    Act::Send(1, "PLACED 2 2 0\n"),
];

/// The device fails at the header of a submission, after ten calls: five make the hill, and five write a slot and sync.
/// Nothing is answered to its peer.
static BEFORE_A_FAULT: [Act; 7] = [
    Act::Connect(&[0, 1]),
    Act::Come(0, "SUBMIT\nMOV 0,1\n.\nSHOW\n"),
    Act::Serve(&[Step::StoreFailed(0)]),
    Act::Come(1, "SHOW\n"),
    Act::Waits(0, 0),
    Act::Ended(0, Some(PeerEnd::StoreFailed)),
    Act::Finished(0, true),
];

/// Another one is served on the hill that is opened again.
static AFTER_A_FAULT: [Act; 3] = [
    Act::Serve(&[Step::Served(1)]),
    Act::Send(1, "1 1 0 0 Unnamed by Anonymous\n.\n"),
    Act::Serve(&[Step::Nobody]),
];

struct GrowthTrial;

impl<R: Abort> Trial<R> for GrowthTrial {
    fn run<M: TestMemory>(rt: &R, memory: M, disks: M) {
        let acts = acting(1, &NOBODY, &WITHOUT_AN_ANSWER);
        follow(rt, memory, disks, repeating(acts, 4, &NOT_CONNECTED));
        let acts = acting(3, &THREE, &WITHOUT_A_TABLE);
        follow(rt, memory, disks, repeating(acts, 10, &WITHOUT_AN_ASSEMBLY));
        let acts = acting(3, &THREE, &WITH_ANOTHER);
        follow(rt, memory, disks, repeating(acts, 10, &WITHOUT_ANOTHER));
    }
}

#[test]
fn growths(rt: HostRuntime) {
    run::<HostRuntime, GrowthTrial>(&rt, rt.alloc());
}

struct Fault;

impl<R: Abort> Trial<R> for Fault {
    fn run<M: TestMemory>(rt: &R, memory: M, _: M) {
        follow_over_a_fault(rt, memory, &BEFORE_A_FAULT, &AFTER_A_FAULT);
    }
}

#[test]
fn a_device_that_fails(rt: HostRuntime) {
    run::<HostRuntime, Fault>(&rt, rt.alloc());
}
