//! Submissions in parts: tables between two steps, one that is given up, and one whose steps and end need no memory.

ghost use Rattle.std.specs.Prelude.{◌≡◌};
ghost use Rattle.{koth_hill.specs.Kept.{verdict_kept}, hill_store.specs.Submission.{IsSubmitting}};

use crate::expecting::{expect_calls, expect_reply, expect_same, expect_table};
use crate::hills::{created_on, new_in};
use hill_store::{Reply, Store, Submission};
use koth_hill::{MOST_TURNS, Verdict};
use sector_disk::Device;
use std::alloc::Allocator;
use std::process::Abort;
use tests_stores::{FIRST, Numbers, SECOND, TestMemory, Trial, run};

/// The table of a hill of one warrior.
static ONE_ROW: [Numbers; 1] = [(1, 0, 0)];

/// The table with a second one, which has two ties with it.
static TWO_ROWS: [Numbers; 2] = [(1, 2, 1), (2, 2, 0)];

/// The submission of a source that gives a warrior.
fn begun<D: Device, A: Allocator + Copy>(
    rt: &impl Abort,
    store: &Store<D, A>,
    source: &[u8],
) -> Submission<A>
    ensures { IsSubmitting store.now result }
{
    match store.begin(source, None) {
        Some(Ok(submission)) => submission,
        Some(Err(_)) | None => panic!(rt; "it gives a warrior"),
    }
}

/// Its verdict; before each step the table has these rows.
fn judged_beside<D: Device, A: Allocator + Copy>(
    rt: &impl Abort,
    store: &mut Store<D, A>,
    submission: &mut Submission<A>,
    rows: &[Numbers],
) -> Verdict
    requires { IsSubmitting store.old submission.old }
    ensures verdict { result ≡ verdict_kept store.old.hill submission.old.warrior }
    ensures submitting { IsSubmitting store.old submission.new }
    ensures warrior { submission.new.warrior ≡ submission.old.warrior }
    ensures unchanged { store.new ≡ store.old }
{
    for _step in 0..100 {
        expect_table(rt, store, rows);
        if let Some(verdict) = store.step(submission, MOST_TURNS) {
            return verdict;
        }
    }
    panic!(rt; "it takes more steps")
}

/// The submission of this source is given up after a step.
fn given_up<D: Device, A: Allocator + Copy>(
    rt: &impl Abort,
    store: &mut Store<D, A>,
    source: &[u8],
) {
    let mut submission = begun(rt, store, source);
    drop(store.step(&mut submission, MOST_TURNS));
    drop(submission);
}

/// The submission of this source is judged next to these rows, and answered so.
fn expect_judged<D: Device, A: Allocator + Copy>(
    rt: &impl Abort,
    store: &mut Store<D, A>,
    source: &[u8],
    rows: &[Numbers],
    due: Reply,
) {
    let mut submission = begun(rt, store, source);
    let verdict = judged_beside(rt, store, &mut submission, rows);
    let reply = store.finish(submission, &verdict);
    drop(verdict);
    expect_same(rt, &reply, &due, "a reply in parts");
}

/// One that is given up leaves the table and the device as they were, and the next one is judged and placed as if it
/// were the first.
fn expect_parts<M: TestMemory>(rt: &impl Abort, memory: M) {
    let mut store = created_on(rt, memory, new_in(rt, memory));
    expect_reply(rt, &mut store, b"MOV 0,1", FIRST);
    given_up(rt, &mut store, b"DAT 0,0");
    expect_judged(rt, &mut store, b"JMP 0", &ONE_ROW, SECOND);
    expect_table(rt, &store, &TWO_ROWS);
    expect_calls(rt, store, 5 + 7 + 7);
}

/// The steps and the end of a submission that is begun need no memory.
fn expect_first<M: TestMemory>(rt: &impl Abort, memory: M, store: &mut Store<M::Device, M>) {
    let mut submission = begun(rt, store, b"MOV 0,1");
    memory.refuse(0, u64::MAX);
    let reply = match store.step(&mut submission, MOST_TURNS) {
        Some(verdict) => store.finish(submission, &verdict),
        None => panic!(rt; "there is nobody to fight"),
    };
    let found = (reply, memory.refused());
    expect_same(rt, &found, &(FIRST, 0), "without memory");
}

/// A submission in parts, and then one whose steps have no memory, on a device that has its own from elsewhere. What is
/// begun takes memory: `growths` refuses it.
struct Steps;

impl<R: Abort> Trial<R> for Steps {
    fn run<M: TestMemory>(rt: &R, memory: M, disks: M) {
        expect_parts(rt, memory);
        let mut store = created_on(rt, memory, new_in(rt, disks));
        expect_first(rt, memory, &mut store);
        drop(store);
    }
}

#[test]
fn steps_of_submissions(rt: HostRuntime) {
    run::<HostRuntime, Steps>(&rt, rt.alloc());
}
