//! Many sessions on one store, each served in turn.

ghost use Rattle.std.specs.Prelude.{◌≡◌, ℕ, ◌≤◌, true, false, length, None, Some, IfErr, IfOk};
ghost use Rattle.koth_session.specs.{Judge.{fighting, without}, Peer.{Closes, Sends, Takes}, Peers.{end_in, is_due_at, is_finished_in, may_come_at, may_serve_in}};
ghost use Rattle.koth_session.specs.Peers.{first_turn, may_serve_at, peer_at, step_after, unsent_at, Connects, IsOfIn, IsOfOne, IsServed, IsUnanswered, Moves, MovesAt, OnlyAt, ServesNext};

use crate::end::PeerEnd;
use crate::judge::Judge;
use crate::numbers::{close_at, pass_at, peer_of, take_at};
use crate::peer::{Peer, Unanswered};
use crate::turns::{Turn, asks, first_free, may_serve, next_due, next_served};
use hill_store::Reply;
use sector_disk::Device;
use std::alloc::{AllocError, Allocator};

/// Why no peer was connected.
#[derive(Clone, Copy, Debug, PartialEq, Eq)]
pub enum NotConnected {
    /// There are as many peers as may be.
    Full,
    /// A growth of memory was refused.
    Memory,
}

/// What a step served.
#[derive(Clone, Copy, Debug, PartialEq, Eq)]
pub enum Step {
    /// No peer has a pending command.
    Nobody,
    /// A command of this peer was carried out, or ended its session.
    Served(usize),
    /// A submission of this peer was begun, or some rounds of it were played: it is in progress, and its command is
    /// still pending.
    Stepped(usize),
    /// A source of this peer was assembled while the submission of another is in progress. It gives a warrior, so it
    /// waits until that is over: its command is still pending.
    PutOff(usize),
    /// The turn is this peer's, and a browser's request is due of it, which was not carried out: have it leave.
    Asked(usize),
    /// The device failed in a submission of this peer, whose session has ended: close the store, and open it again.
    StoreFailed(usize),
}

/// Peers by their numbers, and where the turns go on.
#[derive(Drop)]
pub struct Peers<A: Allocator> {
    alloc: A,
    slots: Vec<Option<Peer<A>>, A>,
    next: Turn,
}

impl<A: Allocator + Copy> Peers<A> {
    /// No peers yet, and room for `most` at once. `AllocError` comes if a growth of memory is refused.
    pub fn new(alloc: A, most: usize) -> Result<Peers<A>, AllocError>
        ensures most { IfOk result (λ peers. length peers.slots.items ≡ most) }
        ensures nobody { IfOk result (λ peers. (p : ℕ) → peer_at peers.slots.items p ≡ None) }
        ensures next { IfOk result (λ peers. peers.next ≡ first_turn) }
    {
        let mut slots = Vec::with_capacity(alloc, most)?;
        'slots: for _slot in 0..most {
            slots.push(None)?;
        }
        Ok(Peers {
            alloc,
            slots,
            next: Turn {
                command: 0,
                submission: 0,
            },
        })
    }

    /// Begins a session, and returns its number, which is the least that is free. `Full` comes if none is, and `Memory`
    /// if a growth of memory is refused.
    pub fn connect(&mut self) -> Result<usize, NotConnected>
        ensures connects { Connects result self.old.slots.items self.new.slots.items }
        ensures next { self.new.next ≡ self.old.next }
    {
        let Some(number) = first_free(self.slots.as_slice()) else {
            return Err(NotConnected::Full);
        };
        match Peer::new(self.alloc) {
            Ok(peer) => {
                self.slots[number] = Some(peer);
                Ok(number)
            }
            Err(AllocError) => Err(NotConnected::Memory),
        }
    }

    /// Carries out one command at most: that of the first peer to which the turn may come, beginning after the peer
    /// served last and going round. Of a submission that is to be fought one step is made: it has as many rounds as
    /// have `turns` turns at most, or one. While it is in progress the turn comes to the others too: a source of theirs
    /// is refused, or put off. Once it has its share, the step is its own, no matter who has the turn. If no submission
    /// is in progress, that of the first source that was put off is begun, from the peer whose submission was the last
    /// one and going round. Both leave the turn where it is. A browser's request is not carried out, and the turn stays
    /// where it is until that peer has left. Nor is a source whose assembly spends these steps.
    pub fn serve_next<D: Device>(
        &mut self,
        has_share: bool,
        steps: u64,
        turns: u32,
        judge: &mut Judge<D, A>,
    ) -> Step
        ensures serves { IsOfOne judge.old.store.hill.settings self.old.slots.items judge.old.under_way
            → ServesNext D.facts (Some steps) turns has_share result self.old.slots.items self.old.next judge.old
            self.new.slots.items self.new.next judge.new }
        ensures of_one { IsOfOne judge.old.store.hill.settings self.old.slots.items judge.old.under_way
            → IsOfOne judge.new.store.hill.settings self.new.slots.items judge.new.under_way }
    {
        let busy = judge.busy();
        let Some(number) = next_served(self.slots.as_slice(), self.next, busy, has_share) else {
            return Step::Nobody;
        };
        let slot = &self.slots[number];
        if asks(slot) {
            return Step::Asked(number);
        }
        let is_first = may_serve(busy, Some(has_share), number, slot);
        self.next = self.next.after(is_first, number + 1);
        match serve_at(
            self.alloc,
            steps,
            turns,
            number,
            &mut self.slots[number],
            judge,
        ) {
            Ok(outcome) => step_after(outcome, number),
            Err(Unanswered::UnderWay) => {
                self.next.submission = number + 1;
                Step::Stepped(number)
            }
            Err(Unanswered::PutOff) => Step::PutOff(number),
        }
    }
}

impl<A: Allocator> Peers<A> {
    /// How many bytes of this peer may come now.
    pub fn room(&self, number: usize) -> usize
        ensures room { result ≡ may_come_at self.now.slots.items number }
        ensures most { result ≤ 4096 }
    {
        match peer_of(self.slots.as_slice(), number) {
            Some(peer) => peer.room(),
            None => 0,
        }
    }

    /// Bytes of this peer came: they are kept, and nothing is carried out.
    pub fn take(&mut self, number: usize, bytes: &[u8])
        requires { length bytes.now ≤ may_come_at self.old.slots.items number }
        ensures takes { MovesAt (λ old new. Takes old bytes.now new) number self.old.slots.items self.new.slots.items }
        ensures next { self.new.next ≡ self.old.next }
    {
        if number < self.slots.len() {
            take_at(&mut self.slots[number], bytes);
        }
    }

    /// The bytes of this peer are at their end: its session ends once all its commands were carried out.
    pub fn close(&mut self, number: usize)
        ensures closes { MovesAt Closes number self.old.slots.items self.new.slots.items }
        ensures next { self.new.next ≡ self.old.next }
    {
        if number < self.slots.len() {
            close_at(&mut self.slots[number]);
        }
    }

    /// The answers to this peer that are to be sent, 1,048,576 bytes at most.
    pub fn unsent(&self, number: usize) -> &[u8]
        ensures value { result.now ≡ unsent_at self.now.slots.items number }
        ensures most { length result.now ≤ 1048576 }
    {
        match peer_of(self.slots.as_slice(), number) {
            Some(peer) => peer.unsent(),
            None => &[],
        }
    }

    /// `count` bytes of the answers to this peer were sent.
    pub fn sent(&mut self, number: usize, count: usize)
        requires { count ≤ length (unsent_at self.old.slots.items number) }
        ensures sends { MovesAt (λ old new. Sends old count new) number self.old.slots.items self.new.slots.items }
        ensures next { self.new.next ≡ self.old.next }
    {
        if number < self.slots.len() {
            pass_at(&mut self.slots[number], count);
        }
    }

    /// Whether a whole command of this peer came that is to be carried out.
    pub fn is_due(&self, number: usize) -> bool
        ensures { result ≡ is_due_at self.now.slots.items number }
    {
        match peer_of(self.slots.as_slice(), number) {
            Some(peer) => peer.is_due(),
            None => false,
        }
    }

    /// Whether no command may be carried out: none is due, and no submission is in progress.
    pub fn is_idle<D: Device>(&self, judge: &Judge<D, A>) -> bool
        ensures idle { result ≡ true → (p : ℕ)
            → may_serve_at (fighting judge.now.under_way) self.now.slots.items p ≡ false }
        ensures busy { result ≡ false → (p : ℕ)
            × (may_serve_at (fighting judge.now.under_way) self.now.slots.items p ≡ true) }
    {
        match next_due(self.slots.as_slice(), 0, judge.busy(), None) {
            Some(_) => false,
            None => true,
        }
    }

    /// The reply to the command of this peer that was carried out last, if that was a submission.
    pub fn reply(&self, number: usize) -> Option<Reply> {
        peer_of(self.slots.as_slice(), number)?.reply()
    }

    /// How the session of this peer ended.
    pub fn end(&self, number: usize) -> Option<PeerEnd>
        ensures { result ≡ end_in (peer_at self.now.slots.items number) }
    {
        match peer_of(self.slots.as_slice(), number) {
            Some(peer) => peer.end(),
            None => None,
        }
    }

    /// Whether nothing is left to be done for this peer: its session has ended, and all answers were sent. So it is for
    /// a number that is free.
    pub fn is_finished(&self, number: usize) -> bool
        ensures { result ≡ is_finished_in (peer_at self.now.slots.items number) }
    {
        match peer_of(self.slots.as_slice(), number) {
            Some(peer) => peer.end().is_some() && peer.unsent().is_empty(),
            None => true,
        }
    }

    /// Drops a peer, however its session is: its number is free. A submission of it that is in progress is given up,
    /// and leaves no trace.
    pub fn leave<D: Device>(&mut self, number: usize, judge: &mut Judge<D, A>)
        ensures only { OnlyAt number self.old.slots.items self.new.slots.items }
        ensures at { peer_at self.new.slots.items number ≡ None }
        ensures next { self.new.next ≡ self.old.next }
        ensures store { judge.new.store ≡ judge.old.store }
        ensures under_way { judge.new.under_way ≡ without number judge.old.under_way }
    {
        judge.give_up(number);
        if number < self.slots.len() {
            self.slots[number] = None;
        }
    }
}

/// Carries out the pending command of the peer of this number, or a part of its submission.
fn serve_at<D: Device, A: Allocator + Copy>(
    alloc: A,
    steps: u64,
    turns: u32,
    number: usize,
    slot: &mut Option<Peer<A>>,
    judge: &mut Judge<D, A>,
) -> Result<Option<PeerEnd>, Unanswered>
    requires { may_serve_in (fighting judge.old.under_way) number slot.old ≡ true }
    ensures served { IsOfIn number slot.old judge.old
        → IfOk result (λ outcome. Moves (λ p q. IsServed D.facts
        (Some steps) outcome number p judge.old q judge.new) slot.old slot.new) }
    ensures unanswered { IsOfIn number slot.old judge.old
        → IfErr result (λ why. Moves (λ p q. IsUnanswered turns why number p judge.old q judge.new) slot.old slot.new) }
{
    match slot {
        Some(peer) => judge.serve(alloc, steps, turns, number, peer),
        None => unreachable!(),
    }
}

/// What a step reports.
fn step_after(outcome: Option<PeerEnd>, number: usize) -> Step
    ensures { result ≡ step_after outcome number }
{
    match outcome {
        Some(PeerEnd::StoreFailed) => Step::StoreFailed(number),
        None
        | Some(
            PeerEnd::Quit
            | PeerEnd::EndOfInput
            | PeerEnd::Limit
            | PeerEnd::Unread
            | PeerEnd::StepsSpent
            | PeerEnd::Memory,
        ) => Step::Served(number),
    }
}
