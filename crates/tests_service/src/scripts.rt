//! Peers on a hill of two, by scripts.

use crate::compare::expect_same;
use crate::hills::{Ground, NEVER, empty_hill, failing};
use koth_session::{Judge, NotConnected, PeerEnd, Peers, Step};
use sector_disk::FuseKind;
use std::process::Abort;
use tests_stores::{TestMemory, opened};

/// The most turns of a step in these tests.
const TURNS: u32 = 2_000_000;

/// What is done in a script, or has to have come of it.
#[derive(Clone, Copy)]
pub(crate) enum Act {
    /// Sessions begin with these numbers, one after another.
    Connect(&'static [usize]),
    /// No session begins, for this reason.
    NotConnected(NotConnected),
    /// These bytes of a peer come.
    Come(usize, &'static str),
    /// This number of lines of peer 0 that are no commands come, and each is served.
    Lines(u32),
    /// Steps serve these, one after another.
    Steps(&'static [Step]),
    /// A step serves this within this number of steps of an assembly.
    StepWithin(u64, Step),
    /// A step serves this, if the current submission has its share.
    Share(Step),
    /// Steps serve these, each after the steps of a submission in progress, and after sources that are put off
    /// meanwhile.
    Serve(&'static [Step]),
    /// A peer was given these answers, and they are sent.
    Send(usize, &'static str),
    /// This number of bytes of answers waits for a peer.
    Waits(usize, usize),
    /// A peer's session has ended so, or goes on.
    Ended(usize, Option<PeerEnd>),
    /// Whether nothing more is to be done for a peer.
    Finished(usize, bool),
    /// A peer leaves.
    Leave(usize),
    /// The growth after this number of growths is refused. In a run of a part it is one more than in the run before.
    Refuse(u64),
    /// This number of growths was refused since then.
    Refused(u64),
}

/// Acts of peers, for `most` of whom there is room: first `begin`, then `repeated` for `runs` times, and then `end`.
#[derive(Clone, Copy)]
pub(crate) struct Script {
    pub(crate) most: usize,
    pub(crate) begin: &'static [Act],
    pub(crate) runs: u64,
    pub(crate) repeated: &'static [Act],
    pub(crate) end: &'static [Act],
}

/// Peers that begin and end so, and repeat nothing.
pub(crate) fn acting(most: usize, begin: &'static [Act], end: &'static [Act]) -> Script {
    Script {
        most,
        begin,
        runs: 0,
        repeated: &[],
        end,
    }
}

/// The same for one that repeats this for `runs` times in between.
pub(crate) fn repeating(script: Script, runs: u64, repeated: &'static [Act]) -> Script {
    Script {
        runs,
        repeated,
        ..script
    }
}

/// Peers act by a script on an empty hill. Where growths are refused, those of the device aren't.
pub(crate) fn follow<M: TestMemory>(rt: &impl Abort, memory: M, disks: M, script: Script) {
    let ground = Ground {
        of_device: disks,
        ..failing(memory, NEVER, FuseKind::FailLost)
    };
    memory.refuse(0, 0);
    let mut judge = Judge::new(empty_hill(rt, ground));
    let mut peers = Peers::new(memory, script.most).expect(rt, "there is memory");
    act_out(rt, memory, 0, &mut peers, &mut judge, script.begin);
    for run in 0..script.runs {
        act_out(rt, memory, run, &mut peers, &mut judge, script.repeated);
    }
    act_out(rt, memory, 0, &mut peers, &mut judge, script.end);
    drop(peers);
    drop(judge);
}

/// Two peers act so on an empty hill whose device fails once, after ten calls, and then on the one that is opened
/// again.
pub(crate) fn follow_over_a_fault<M: TestMemory>(
    rt: &impl Abort,
    memory: M,
    before: &[Act],
    after: &[Act],
) {
    let mut judge = Judge::new(empty_hill(rt, failing(memory, 10, FuseKind::FailKept)));
    let mut peers = Peers::new(memory, 2).expect(rt, "there is memory");
    act_out(rt, memory, 0, &mut peers, &mut judge, before);
    let mut judge = Judge::new(opened(memory, judge.close()).expect(rt, "it opens"));
    act_out(rt, memory, 0, &mut peers, &mut judge, after);
    drop(peers);
    drop(judge);
}

/// These acts are done, in this run of them.
fn act_out<M: TestMemory>(
    rt: &impl Abort,
    memory: M,
    run: u64,
    peers: &mut Peers<M>,
    judge: &mut Judge<M::Device, M>,
    acts: &[Act],
) {
    for act in acts {
        match *act {
            Act::Refuse(passed) => memory.refuse(passed.saturating_add(run), 1),
            Act::Refused(count) => expect_same(rt, &memory.refused(), &count, "refused"),
            act => carry_out(rt, peers, judge, act),
        }
    }
}

fn carry_out<M: TestMemory>(
    rt: &impl Abort,
    peers: &mut Peers<M>,
    judge: &mut Judge<M::Device, M>,
    act: Act,
) {
    match act {
        Act::Connect(numbers) => connect(rt, peers, numbers),
        Act::NotConnected(reason) => {
            expect_same(rt, &peers.connect(), &Err(reason), "a peer");
        }
        Act::Come(number, text) => come(rt, peers, number, text),
        Act::Lines(count) => serve_lines(rt, peers, judge, count),
        Act::Steps(steps) => step_on(rt, peers, judge, steps, false),
        Act::StepWithin(most, step) => {
            expect_same(
                rt,
                &peers.serve_next(false, most, TURNS, judge),
                &step,
                "a step",
            );
        }
        Act::Share(step) => {
            expect_same(
                rt,
                &peers.serve_next(true, 1_000_000, TURNS, judge),
                &step,
                "a step",
            );
        }
        Act::Serve(steps) => step_on(rt, peers, judge, steps, true),
        Act::Leave(number) => peers.leave(number, judge),
        Act::Send(_, _)
        | Act::Waits(_, _)
        | Act::Ended(_, _)
        | Act::Finished(_, _)
        | Act::Refuse(_)
        | Act::Refused(_) => look(rt, peers, act),
    }
}

/// What has to have come of a script.
fn look<M: TestMemory>(rt: &impl Abort, peers: &mut Peers<M>, act: Act) {
    match act {
        Act::Send(number, answers) => send(rt, peers, number, answers),
        Act::Waits(number, count) => {
            expect_same(rt, &peers.unsent(number).len(), &count, "bytes that wait");
        }
        Act::Ended(number, end) => expect_same(rt, &peers.end(number), &end, "an end"),
        Act::Finished(number, is_so) => {
            expect_same(rt, &peers.is_finished(number), &is_so, "all is done");
        }
        _ => {}
    }
}

fn connect<M: TestMemory>(rt: &impl Abort, peers: &mut Peers<M>, numbers: &[usize]) {
    for number in numbers {
        expect_same(rt, &peers.connect(), &Ok(*number), "a peer");
    }
}

fn come<M: TestMemory>(rt: &impl Abort, peers: &mut Peers<M>, number: usize, text: &str) {
    let room = peers.room(number);
    assert!(rt; text.len() <= room);
    peers.take(number, text.as_bytes());
}

fn send<M: TestMemory>(rt: &impl Abort, peers: &mut Peers<M>, number: usize, answers: &str) {
    expect_same(rt, &peers.unsent(number), &answers.as_bytes(), "answers");
    let count = peers.unsent(number).len();
    peers.sent(number, count);
    expect_same(rt, &peers.unsent(number).len(), &0, "bytes that wait");
}

/// Steps serve these. With `skips` each comes after the steps of a submission in progress, and after sources that are
/// put off meanwhile.
fn step_on<M: TestMemory>(
    rt: &impl Abort,
    peers: &mut Peers<M>,
    judge: &mut Judge<M::Device, M>,
    steps: &[Step],
    skips: bool,
) {
    for step in steps {
        let most = if skips { 100 } else { 0 };
        expect_same(rt, &served(peers, judge, most), step, "a step");
    }
}

/// What is served after `most` steps at most of a submission in progress, and of sources that are put off meanwhile.
fn served<M: TestMemory>(peers: &mut Peers<M>, judge: &mut Judge<M::Device, M>, most: u32) -> Step {
    for _step in 0..most {
        let found = peers.serve_next(false, 1_000_000, TURNS, judge);
        if !matches!(found, Step::Stepped(_) | Step::PutOff(_)) {
            return found;
        }
    }
    peers.serve_next(false, 1_000_000, TURNS, judge)
}

fn serve_lines<M: TestMemory>(
    rt: &impl Abort,
    peers: &mut Peers<M>,
    judge: &mut Judge<M::Device, M>,
    count: u32,
) {
    for _ in 0..count {
        come(rt, peers, 0, "\n");
        step_on(rt, peers, judge, &[Step::Served(0)], true);
    }
}
