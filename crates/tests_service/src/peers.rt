//! What peers do on a hill of two, and whose turn it is.

use crate::scripts::{Act, acting, follow};
use koth_session::{NotConnected, PeerEnd, Step};
use std::process::Abort;
use tests_stores::{TestMemory, Trial, run};

/// Of a peer with many commands one is served, and then the others' come.
static IN_TURN: [Act; 11] = [
    Act::NotConnected(NotConnected::Full),
    Act::Serve(&[Step::Nobody]),
    Act::Come(0, "a\nb\nc\nd"),
    Act::Come(2, "SHOW\nSH"),
    Act::Serve(&[Step::Served(0), Step::Served(2), Step::Served(0)]),
    Act::Come(1, "\n"),
    Act::Come(2, "OW\n"),
    Act::Serve(&[
        Step::Served(1),
        Step::Served(2),
        Step::Served(0),
        Step::Nobody,
    ]),
    Act::Send(0, "BAD\nBAD\nBAD\n"),
    Act::Send(1, "BAD\n"),
    Act::Send(2, ".\n.\n"),
];

/// A peer that reads none of its answers is disconnected at 1,048,576 bytes of them: 262,144 lines of four bytes. The
/// other one is served still.
static UNREAD: [Act; 11] = [
    Act::Connect(&[0, 1]),
    Act::Lines(262_144),
    Act::Waits(0, 1_048_576),
    Act::Ended(0, None),
    Act::Come(0, "\n"),
    Act::Come(1, "\n"),
    Act::Serve(&[Step::Served(1), Step::Served(0)]),
    Act::Ended(0, Some(PeerEnd::Unread)),
    Act::Waits(0, 1_048_576),
    Act::Finished(0, false),
    Act::Send(1, "BAD\n"),
];

/// While a submission is in progress a table is that of the hill before it, `BAD` and `QUIT` are carried out, and the
/// next submission waits for its turn. So does the table of the peer that submits.
static BESIDE_A_SUBMISSION: [Act; 15] = [
    Act::Come(0, "SUBMIT\nMOV 0,1\n.\nSHOW\n"),
    Act::Come(1, "SHOW\nSUBMIT\nJMP 0\n.\n"),
    Act::Come(2, "hello\nSHOW\nQUIT\n"),
    Act::Steps(&[Step::Stepped(0), Step::Served(1), Step::Served(2)]),
    Act::Steps(&[Step::Served(0)]),
    Act::Send(0, "PLACED 1 1 0\n"),
    Act::Send(1, ".\n"),
    Act::Send(2, "BAD\n"),
    Act::Steps(&[Step::Stepped(1), Step::Served(2), Step::Served(0)]),
    Act::Steps(&[Step::Stepped(1), Step::Served(2), Step::Served(1)]),
    Act::Steps(&[Step::Nobody]),
    Act::Send(0, "1 1 0 0 Unnamed by Anonymous\n.\n"),
    Act::Send(1, "PLACED 2 2 2\n"),
    Act::Send(2, "1 1 0 0 Unnamed by Anonymous\n.\n"),
    Act::Ended(2, Some(PeerEnd::Quit)),
];

/// A peer that leaves while its submission is in progress leaves no trace of it, and the next submission is begun.
static GIVEN_UP: [Act; 7] = [
    Act::Come(0, "SUBMIT\nMOV 0,1\n.\n"),
    Act::Come(1, "SUBMIT\nJMP 0\n.\nSHOW\n"),
    Act::Steps(&[Step::Stepped(0)]),
    Act::Leave(0),
    Act::Steps(&[Step::Stepped(1), Step::Served(1), Step::Served(1)]),
    Act::Steps(&[Step::Nobody]),
    Act::Send(1, "PLACED 1 1 0\n1 1 0 0 Unnamed by Anonymous\n.\n"),
];

/// Sources of other peers that give no warrior are refused while a submission is in progress: each peer's next one in
/// its next turn.
static REFUSED_BESIDE: [Act; 13] = [
    Act::Come(0, "SUBMIT\nMOV 0,1\n.\n"),
    Act::Serve(&[Step::Served(0)]),
    Act::Come(0, "SUBMIT\nJMP 0\n.\n"),
    Act::Steps(&[Step::Stepped(0)]),
    Act::Come(1, "SUBMIT\nJMP\n.\nSUBMIT\n.\n"),
    Act::Come(2, "SUBMIT\nJMP\n.\n"),
    Act::Steps(&[Step::Served(1), Step::Served(2), Step::Stepped(0)]),
    Act::Steps(&[Step::Served(1)]),
    Act::Send(0, "PLACED 1 1 0\n"),
    Act::Send(1, "REFUSED 1 MissingOperand\nREFUSED 0 Empty\n"),
    Act::Send(2, "REFUSED 1 MissingOperand\n"),
    Act::Steps(&[Step::Served(0), Step::Nobody]),
    Act::Send(0, "PLACED 2 2 2\n"),
];

/// A source that gives a warrior is put off while the submission of another peer is in progress, once, and judged at
/// the hill after it. The next command of its peer is carried out in its turn.
static PUT_OFF_BESIDE: [Act; 15] = [
    Act::Come(0, "SUBMIT\nMOV 0,1\n.\nSUBMIT\nJMP 0\n.\n"),
    Act::Serve(&[Step::Served(0)]),
    Act::Steps(&[Step::Stepped(0)]),
    Act::Come(1, "SUBMIT\nDAT 0,0\n.\nSUBMIT\nJMP\n.\n"),
    Act::Come(2, "\n\n"),
    Act::Steps(&[Step::PutOff(1), Step::Served(2), Step::Stepped(0)]),
    Act::Steps(&[Step::Served(2), Step::Served(0)]),
    Act::Send(0, "PLACED 1 1 0\nPLACED 2 2 2\n"),
    Act::Send(1, ""),
    Act::Come(0, "SUBMIT\nJMP\n.\n"),
    Act::Steps(&[Step::Stepped(1), Step::Stepped(1), Step::Served(0)]),
    Act::Send(0, "REFUSED 1 MissingOperand\n"),
    Act::Serve(&[Step::Served(1)]),
    Act::Steps(&[Step::Served(1), Step::Nobody]),
    Act::Send(1, "FELL 3 0\nREFUSED 1 MissingOperand\n"),
];

/// A source that was put off isn't assembled again until no submission is in progress, over two submissions of other
/// peers. Of two that were put off the first after the peer of the last submission is next.
static PUT_OFF_BESIDE_TWO: [Act; 12] = [
    Act::Come(2, "SUBMIT\nMOV 0,1\n.\n"),
    Act::Steps(&[Step::Stepped(2)]),
    Act::Come(0, "SUBMIT\nJMP 0\n.\n"),
    Act::Come(1, "SUBMIT\nDAT 0,0\n.\n"),
    Act::Steps(&[Step::PutOff(0), Step::PutOff(1)]),
    Act::Steps(&[Step::Served(2), Step::Stepped(0), Step::Stepped(0)]),
    Act::Steps(&[Step::Served(0), Step::Stepped(1)]),
    Act::Serve(&[Step::Served(1)]),
    Act::Steps(&[Step::Nobody]),
    Act::Send(0, "PLACED 2 2 2\n"),
    Act::Send(1, "FELL 3 0\n"),
    Act::Send(2, "PLACED 1 1 0\n"),
];

/// A submission that has its share is fought on, no matter who has the turn, and the turn stays where it is: also at
/// its last step.
static BY_ITS_SHARE: [Act; 13] = [
    Act::Come(0, "SUBMIT\nMOV 0,1\n.\n"),
    Act::Serve(&[Step::Served(0)]),
    Act::Come(0, "SUBMIT\nJMP 0\n.\n"),
    Act::Steps(&[Step::Stepped(0)]),
    Act::Come(1, "\n\n"),
    Act::Come(2, "\n\n"),
    Act::Steps(&[Step::Served(1)]),
    Act::Share(Step::Stepped(0)),
    Act::Share(Step::Served(0)),
    Act::Share(Step::Served(2)),
    Act::Steps(&[Step::Served(1), Step::Served(2), Step::Nobody]),
    Act::Share(Step::Nobody),
    Act::Send(0, "PLACED 1 1 0\nPLACED 2 2 2\n"),
];

/// Once a submission is given up, the source that was put off is next, no matter who has the turn: not that of a peer
/// that came while a table moved the turn on. So two peers that submit and leave in turn keep none from being judged.
static NOBODY_STARVES: [Act; 14] = [
    Act::Come(0, "SUBMIT\nMOV 0,1\n.\n"),
    Act::Steps(&[Step::Stepped(0)]),
    Act::Come(1, "SUBMIT\nJMP 0\n.\n"),
    Act::Come(2, "SHOW\nSHOW\n"),
    Act::Steps(&[Step::PutOff(1), Step::Served(2)]),
    Act::Come(3, "SUBMIT\nMOV 0,1\n.\n"),
    Act::Leave(0),
    Act::Connect(&[0]),
    Act::Come(0, "SUBMIT\nMOV 0,1\n.\n"),
    Act::Steps(&[Step::Stepped(1), Step::PutOff(3), Step::PutOff(0)]),
    Act::Steps(&[Step::Served(1), Step::Stepped(3)]),
    Act::Send(1, "PLACED 1 1 0\n"),
    Act::Leave(3),
    Act::Steps(&[Step::Stepped(0), Step::Served(2)]),
];

/// A source whose assembly spends its steps while the submission of another peer is in progress ends its session, and
/// that submission goes on.
static SPENT_BESIDE: [Act; 8] = [
    Act::Come(0, "SUBMIT\nMOV 0,1\n.\n"),
    Act::Steps(&[Step::Stepped(0)]),
    Act::Come(1, "SUBMIT\nMOV 0,1\n.\n"),
    Act::StepWithin(0, Step::Served(1)),
    Act::Ended(1, Some(PeerEnd::StepsSpent)),
    Act::Steps(&[Step::Served(0), Step::Nobody]),
    Act::Send(0, "PLACED 1 1 0\n"),
    Act::Send(1, ""),
];

/// Three peers.
pub(crate) static THREE: [Act; 1] = [Act::Connect(&[0, 1, 2])];

/// Four.
static FOUR: [Act; 1] = [Act::Connect(&[0, 1, 2, 3])];

/// None.
pub(crate) static NOBODY: [Act; 0] = [];

struct TurnTrial;

impl<R: Abort> Trial<R> for TurnTrial {
    fn run<M: TestMemory>(rt: &R, memory: M, disks: M) {
        follow(rt, memory, disks, acting(3, &THREE, &IN_TURN));
        follow(rt, memory, disks, acting(2, &UNREAD, &NOBODY));
        follow(rt, memory, disks, acting(3, &THREE, &BESIDE_A_SUBMISSION));
        follow(rt, memory, disks, acting(3, &THREE, &GIVEN_UP));
        follow(rt, memory, disks, acting(3, &THREE, &REFUSED_BESIDE));
        follow(rt, memory, disks, acting(3, &THREE, &PUT_OFF_BESIDE));
        follow(rt, memory, disks, acting(3, &THREE, &PUT_OFF_BESIDE_TWO));
        follow(rt, memory, disks, acting(3, &THREE, &BY_ITS_SHARE));
        follow(rt, memory, disks, acting(4, &FOUR, &NOBODY_STARVES));
        follow(rt, memory, disks, acting(3, &THREE, &SPENT_BESIDE));
    }
}

#[test]
fn turns(rt: HostRuntime) {
    run::<HostRuntime, TurnTrial>(&rt, rt.alloc());
}
