//! A submission to a store, and the verdict that it had.

ghost use Rattle.std.specs.Prelude.{◌≡◌, List, ℕ, Ok, Some, IfSome};
ghost use Rattle.{redcode_asm.specs.Assembly.assembly, koth_hill.specs.Kept.verdict_kept, koth_json.specs.Reply.judged_line};
ghost use Rattle.{hill_store.specs.{Seen.Submits, Submission.IsSubmitting}, koth_hills.specs.Json.{HasLine, IsDue, IsLineOf}};

use crate::json::line_for;
use hill_store::{Reply, Store, Submission};
use koth_hill::{MOST_TURNS, Verdict};
use koth_words::View;
use sector_disk::Device;
use std::alloc::{AllocError, Allocator};

/// What a submission came to.
#[derive(Drop)]
pub(crate) struct Settled<A: Allocator> {
    pub reply: Reply,
    /// The verdict on its warrior, if it was judged.
    pub judged: Option<Verdict>,
    /// As JSON, the line of a warrior that was placed.
    pub placed: Vec<u8, A>,
}

/// Submits a source to a store. Each of its matches is fought once. Lines of JSON say who is pushed off for a warrior,
/// so its line is made before it is placed, and without memory for that nothing is submitted.
pub(crate) fn settle<D: Device, A: Allocator + Copy>(
    alloc: A,
    store: &mut Store<D, A>,
    source: &[u8],
    view: View,
) -> Settled<A>
    ensures submits { Submits D.facts store.old source.now result.reply store.new }
    ensures due { IfSome result.judged (IsDue store.old.hill source.now) }
    ensures placed { IsLineOf view store.old.hill source.now result.reply result.placed.items }
{
    match store.begin(source, None) {
        Some(Ok(submission)) => finished(alloc, store, submission, view),
        Some(Err(reply)) => Settled {
            reply,
            judged: None,
            placed: Vec::new(alloc),
        },
        None => unreachable!(),
    }
}

/// Fights a submission that was begun, and finishes it.
fn finished<D: Device, A: Allocator + Copy>(
    alloc: A,
    store: &mut Store<D, A>,
    mut submission: Submission<A>,
    view: View,
) -> Settled<A>
    requires { IsSubmitting store.old submission }
    ensures submits { (source : List ℕ) → assembly store.old.hill.settings source ≡ Ok submission.warrior
        → Submits D.facts store.old source result.reply store.new }
    ensures judged { result.judged ≡ Some (verdict_kept store.old.hill submission.warrior) }
    ensures placed { HasLine view (judged_line store.old.hill (verdict_kept store.old.hill submission.warrior))
        result.reply result.placed.items }
{
    let judged = fight_out(store, &mut submission);
    match line_for(alloc, view, store.hill(), &judged) {
        Ok(placed) => {
            let reply = store.finish(submission, &judged);
            Settled {
                reply,
                judged: Some(judged),
                placed,
            }
        }
        Err(AllocError) => {
            drop(submission);
            Settled {
                reply: Reply::Memory,
                judged: Some(judged),
                placed: Vec::new(alloc),
            }
        }
    }
}

/// Makes all steps of a submission.
fn fight_out<D: Device, A: Allocator + Copy>(
    store: &mut Store<D, A>,
    submission: &mut Submission<A>,
) -> Verdict
    requires { IsSubmitting store.old submission.old }
    ensures verdict { result ≡ verdict_kept store.old.hill submission.old.warrior }
    ensures warrior { submission.new.warrior ≡ submission.old.warrior }
    ensures unchanged { store.new ≡ store.old }
{
    let _rounds = store.hill().settings().rounds();
    'steps: loop {
        if let Some(judged) = store.step(submission, MOST_TURNS) {
            return judged;
        }
    }
}
