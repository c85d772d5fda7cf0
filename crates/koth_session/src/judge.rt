//! The store that judges submissions, and the submission to it that is in progress. It is fought in steps, between
//! which others are served.

ghost use Rattle.std.specs.Prelude.{◌≡◌, true, ℕ, Option, None, Some, is_some, IfErr, IfOk};
ghost use Rattle.{hill_store.specs.Submission.IsSubmitting, koth_protocol.specs.Commands.kept_source};
ghost use Rattle.koth_session.specs.{Judge.{fighting, judged, without, AreSubmitting, IsOfSource}, Peer.{is_due_now, submits_now}, Peers.{IsOfIts, IsServed, IsUnanswered}};

use crate::end::PeerEnd;
use crate::peer::{Peer, Unanswered};
use hill_store::{Store, Submission};
use sector_disk::Device;
use std::alloc::Allocator;
use std::marker::Model;

/// A store, and at most one submission to it that is in progress, of the peer of this number. Until it is finished, the
/// store stays as it is.
#[derive(Drop)]
pub struct Judge<D: Device, A: Allocator> {
    store: Store<D, A>,
    under_way: Option<(usize, Submission<A>)>,
}

impl<D: Device, A: Allocator> Model for Judge<D, A> {
    ghost use Rattle.koth_session.specs.Judge.{AreSubmitting, Judged, judged};

    ghost Value = { Judged D };

    ghost view = { λ j. judged j.store j.under_way };

    ghost invariant = { λ j. AreSubmitting j.store j.under_way };
}

impl<D: Device, A: Allocator> Judge<D, A> {
    /// A store to which no submission is in progress.
    pub fn new(store: Store<D, A>) -> Judge<D, A>
        ensures { result ≡ judged store None }
    {
        Judge {
            store,
            under_way: None,
        }
    }

    /// The store, which is as it was before the current submission.
    pub fn store(&self) -> &Store<D, A>
        ensures { result.now ≡ self.now.store }
    {
        &self.store
    }

    /// The device, as it is: a submission in progress leaves nothing there.
    pub fn close(self) -> D
        ensures { result ≡ self.store.device }
    {
        self.store.close()
    }

    /// The number of the peer whose submission is in progress.
    pub(crate) fn busy(&self) -> Option<usize>
        ensures { result ≡ fighting self.now.under_way }
    {
        number_of(&self.under_way)
    }

    /// The submission of this peer is given up, if it is in progress: it leaves no trace.
    pub(crate) fn give_up(&mut self, number: usize)
        ensures store { self.new.store ≡ self.old.store }
        ensures under_way { self.new.under_way ≡ without number self.old.under_way }
    {
        drop_of(number, &mut self.under_way);
    }
}

impl<D: Device, A: Allocator + Copy> Judge<D, A> {
    /// Carries out the pending command of a peer, or a part of its submission: its source is assembled, or as many
    /// rounds are played as a step of the store with `turns` turns has. The last step stores it. While the submission
    /// of another is in progress, a source is assembled, and waits unless it is refused.
    pub(crate) fn serve(
        &mut self,
        alloc: A,
        steps: u64,
        turns: u32,
        number: usize,
        peer: &mut Peer<A>,
    ) -> Result<Option<PeerEnd>, Unanswered>
        requires due { is_due_now peer.old ≡ true }
        ensures served { IsOfIts number peer.old self.old
            → IfOk result (λ outcome. IsServed D.facts
            (Some steps) outcome number peer.old self.old peer.new self.new) }
        ensures unanswered { IsOfIts number peer.old self.old
            → IfErr result (λ why. IsUnanswered turns why number peer.old self.old peer.new self.new) }
    {
        serve_at(
            alloc,
            steps,
            turns,
            number,
            peer,
            &mut self.store,
            &mut self.under_way,
        )
    }
}

/// The number of the peer whose submission is in progress.
fn number_of<A: Allocator>(under_way: &Option<(usize, Submission<A>)>) -> Option<usize>
    ensures { result ≡ fighting under_way.now }
{
    match under_way {
        Some((number, _)) => Some(*number),
        None => None,
    }
}

/// Whether the submission of another peer than this is in progress.
fn is_anothers<A: Allocator>(number: usize, under_way: &Option<(usize, Submission<A>)>) -> bool
    ensures { result ≡ is_some (without number under_way.now) }
{
    match under_way {
        Some((other, _)) => number != *other,
        None => false,
    }
}

/// Drops the current submission, if it is that of this peer.
fn drop_of<A: Allocator>(number: usize, under_way: &mut Option<(usize, Submission<A>)>)
    ensures { under_way.new ≡ without number under_way.old }
{
    let is_own = match under_way {
        Some((other, _)) => number == *other,
        None => false,
    };
    if is_own {
        *under_way = None;
    }
}

/// Carries out the pending command of a peer, or a part of its submission.
fn serve_at<D: Device, A: Allocator + Copy>(
    alloc: A,
    steps: u64,
    turns: u32,
    number: usize,
    peer: &mut Peer<A>,
    store: &mut Store<D, A>,
    under_way: &mut Option<(usize, Submission<A>)>,
) -> Result<Option<PeerEnd>, Unanswered>
    requires due { is_due_now peer.old ≡ true }
    requires submitting { AreSubmitting store.old under_way.old }
    ensures submitting { AreSubmitting store.new under_way.new }
    ensures served { IsOfIts number peer.old (judged store.old under_way.old)
        → IfOk result (λ outcome. IsServed D.facts (Some steps) outcome number peer.old
        (judged store.old under_way.old) peer.new (judged store.new under_way.new)) }
    ensures unanswered { IsOfIts number peer.old (judged store.old under_way.old)
        → IfErr result (λ why. IsUnanswered turns why number peer.old (judged store.old under_way.old) peer.new
        (judged store.new under_way.new)) }
{
    if !peer.submits() {
        return Ok(peer.tell(alloc, store));
    }
    if is_anothers(number, under_way) {
        return peer.put_off(steps, store);
    }
    match under_way.take() {
        Some((_, submission)) => fight_on(turns, number, peer, store, under_way, submission),
        None => begin(steps, number, peer, store, under_way),
    }
}

/// Begins the submission of a peer.
fn begin<D: Device, A: Allocator + Copy>(
    steps: u64,
    number: usize,
    peer: &mut Peer<A>,
    store: &Store<D, A>,
    under_way: &mut Option<(usize, Submission<A>)>,
) -> Result<Option<PeerEnd>, Unanswered>
    requires due { is_due_now peer.old ≡ true }
    requires submits { submits_now peer.old ≡ true }
    requires free { under_way.old ≡ None }
    ensures submitting { AreSubmitting store.now under_way.new }
    ensures served { IfOk result (λ outcome. IsServed D.facts (Some steps) outcome number peer.old
        (judged store.now None) peer.new (judged store.now under_way.new)) }
    ensures unanswered { (turns : ℕ)
        → IfErr result (λ why. IsUnanswered turns why number peer.old (judged store.now None) peer.new
        (judged store.now under_way.new)) }
{
    match peer.begin(steps, store) {
        Ok(submission) => {
            *under_way = Some((number, submission));
            Err(Unanswered::UnderWay)
        }
        Err(outcome) => Ok(outcome),
    }
}

/// Plays on in the submission of a peer, and finishes it once it is judged.
fn fight_on<D: Device, A: Allocator + Copy>(
    turns: u32,
    number: usize,
    peer: &mut Peer<A>,
    store: &mut Store<D, A>,
    under_way: &mut Option<(usize, Submission<A>)>,
    submission: Submission<A>,
) -> Result<Option<PeerEnd>, Unanswered>
    requires due { is_due_now peer.old ≡ true }
    requires submits { submits_now peer.old ≡ true }
    requires free { under_way.old ≡ None }
    requires submitting { IsSubmitting store.old submission }
    ensures submitting { AreSubmitting store.new under_way.new }
    ensures served { (steps : Option ℕ) → IsOfSource store.old.hill.settings
        (kept_source peer.old.inbox.script.source) submission
        → IfOk result (λ outcome. IsServed D.facts steps outcome number peer.old
        (judged store.old (Some (number, submission))) peer.new (judged store.new under_way.new)) }
    ensures unanswered { IsOfSource store.old.hill.settings (kept_source peer.old.inbox.script.source) submission
        → IfErr result (λ why. IsUnanswered turns why number peer.old (judged store.old (Some (number, submission)))
        peer.new (judged store.new under_way.new)) }
{
    let mut submission = submission;
    match store.step(&mut submission, turns) {
        Some(verdict) => Ok(peer.finish(store, submission, &verdict)),
        None => {
            *under_way = Some((number, submission));
            Err(Unanswered::UnderWay)
        }
    }
}
