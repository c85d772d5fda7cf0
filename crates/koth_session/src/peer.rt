//! One session as a value: bytes come in, commands are carried out one at a time, and answers wait until they are sent.

ghost use Rattle.std.specs.Prelude.{◌≡◌, ◌+◌, ◌≤◌, true, false, ℕ, Option, length, None, Some, IfErr, IfOk};
ghost use Rattle.{koth_hill.specs.Kept.verdict_kept, hill_store.specs.{Seen.Assembled, Submission.{IsSubmitting, MayChallenge}}, koth_protocol.specs.Commands.kept_source, koth_session.specs.Judge.IsOfSource};
ghost use Rattle.koth_session.specs.Peer.{asks_now, is_due_now, may_come_now, settled_now, submits_now, Closes, IsNew, IsReplied, PutsOff, Sends, Serves, Settles, Stays, Takes};
ghost use Rattle.koth_session.specs.declared.peer.Unanswered.TheVariants as unanswered;

use crate::answers::{answer, begin, finish, tell};
use crate::end::PeerEnd;
use crate::inbox::{Inbox, LIMIT, is_met, is_submission};
use crate::outbox::Outbox;
use hill_store::{Reply, Store, Submission};
use koth_hill::Verdict;
use koth_protocol::Met;
use sector_disk::Device;
use std::alloc::{AllocError, Allocator};

/// A session with one peer. It knows no stream: what came is put in, and what is to be sent is read.
#[derive(Drop)]
pub struct Peer<A: Allocator> {
    inbox: Inbox<A>,
    outbox: Outbox<A>,
    closed: bool,
    end: Option<PeerEnd>,
    /// Whether the pending command is a source that gives a warrior, and was put off for the submission of another
    /// peer.
    pub(crate) waits: bool,
    /// The reply to the command that was carried out last, if that was a submission.
    reply: Option<Reply>,
}

/// Why the command of a peer is still due after its turn.
#[derive(Clone, Copy)]
pub(crate) enum Unanswered {
    /// Its submission is in progress.
    UnderWay,
    /// Its source gives a warrior, and waits until the submission of another peer is over.
    PutOff,
}

impl<A: Allocator + Copy> Peer<A> {
    /// A session in which nothing came yet. All its memory is taken here, except for answers that don't fit into 96
    /// bytes.
    pub fn new(alloc: A) -> Result<Peer<A>, AllocError>
        ensures { IfOk result IsNew }
    {
        Ok(Peer {
            inbox: Inbox::new(alloc)?,
            outbox: Outbox::new(alloc)?,
            closed: false,
            end: None,
            waits: false,
            reply: None,
        })
    }

    /// Carries out the pending command, on the store, and puts its answer after those that are unsent. It returns how
    /// the command ended the session, if it did: with `Quit`, or with `StoreFailed` if the device failed in it. With
    /// `Unread`, if its answer may have no room, with `Memory`, if a growth was refused, and with `StepsSpent`, if it
    /// is a source whose assembly spends these steps, the command was not carried out.
    pub fn serve<D: Device>(
        &mut self,
        alloc: A,
        steps: Option<u64>,
        store: &mut Store<D, A>,
    ) -> Option<PeerEnd>
        requires { is_due_now self.old ≡ true }
        ensures serves { Serves D.facts steps result self.old store.old self.new store.new }
        ensures replied { IsReplied result self.old.outbox.unsent self.new.outbox.unsent self.new.reply }
    {
        self.reply = None;
        let outcome = answer(
            alloc,
            self.inbox.due(),
            self.inbox.source(),
            steps,
            &mut self.outbox,
            &mut self.reply,
            store,
        );
        self.settle(outcome);
        outcome
    }

    /// Carries out the pending command, as `serve` does. It is no submission, so the store stays as it is.
    pub(crate) fn tell<D: Device>(&mut self, alloc: A, store: &Store<D, A>) -> Option<PeerEnd>
        requires due { is_due_now self.old ≡ true }
        requires other { submits_now self.old ≡ false }
        ensures { (steps : Option ℕ) → Serves D.facts steps result self.old store.now self.new store.now }
    {
        self.reply = None;
        let outcome = tell(alloc, self.inbox.due(), &mut self.outbox, store);
        self.settle(outcome);
        outcome
    }

    /// Begins the pending submission: its source is assembled, in these steps. If nothing is begun, its command was
    /// carried out, or it ended the session, as `serve` has it.
    pub(crate) fn begin<D: Device>(
        &mut self,
        steps: u64,
        store: &Store<D, A>,
    ) -> Result<Submission<A>, Option<PeerEnd>>
        requires due { is_due_now self.old ≡ true }
        requires submits { submits_now self.old ≡ true }
        ensures begun { IfOk result (IsSubmitting store.now) }
        ensures of_source { IfOk result (IsOfSource store.now.hill.settings
            (kept_source self.old.inbox.script.source)) }
        ensures stays { IfOk result (λ submission. Stays self.old self.new) }
        ensures serves { IfErr result (λ outcome. Serves D.facts
            (Some steps) outcome self.old store.now self.new store.now) }
    {
        self.reply = None;
        match begin(
            self.inbox.source(),
            Some(steps),
            &mut self.outbox,
            &mut self.reply,
            store,
        ) {
            Ok(submission) => Ok(submission),
            Err(outcome) => {
                self.settle(outcome);
                Err(outcome)
            }
        }
    }

    /// Assembles the pending source, in these steps, while the submission of another peer is in progress. If it gives a
    /// warrior, it is put off, and `Err` says so. Else its command was carried out, or it ended the session, as `serve`
    /// has it.
    pub(crate) fn put_off<D: Device>(
        &mut self,
        steps: u64,
        store: &Store<D, A>,
    ) -> Result<Option<PeerEnd>, Unanswered>
        requires due { is_due_now self.old ≡ true }
        requires submits { submits_now self.old ≡ true }
        ensures serves { IfOk result (λ outcome. Serves D.facts
            (Some steps) outcome self.old store.now self.new store.now) }
        ensures put_off { IfErr result (λ why. why ≡ unanswered.PutOff) }
        ensures assembled { IfErr result (λ why. Assembled store.now (kept_source self.old.inbox.script.source)) }
        ensures puts_off { IfErr result (λ why. PutsOff self.old self.new) }
    {
        match self.begin(steps, store) {
            Ok(_submission) => {
                self.waits = true;
                Err(Unanswered::PutOff)
            }
            Err(outcome) => Ok(outcome),
        }
    }

    /// Finishes the submission of the pending source, which was judged so, as `serve` does.
    pub(crate) fn finish<D: Device>(
        &mut self,
        store: &mut Store<D, A>,
        submission: Submission<A>,
        judged: &Verdict,
    ) -> Option<PeerEnd>
        requires due { is_due_now self.old ≡ true }
        requires submits { submits_now self.old ≡ true }
        requires may { MayChallenge store.old submission.warrior }
        requires verdict { judged.now ≡ verdict_kept store.old.hill submission.warrior }
        ensures { (steps : Option ℕ) → IsOfSource store.old.hill.settings
            (kept_source self.old.inbox.script.source) submission
            → Serves D.facts steps result self.old store.old self.new store.new }
    {
        self.reply = None;
        let outcome = finish(&mut self.outbox, &mut self.reply, store, submission, judged);
        self.settle(outcome);
        outcome
    }
}

impl<A: Allocator> Peer<A> {
    /// How many bytes may come now: at most 4096 wait after a pending command, and 16,777,216 come in all. None
    /// may come once the session has ended, or its bytes are at their end.
    pub fn room(&self) -> usize
        ensures room { result ≡ may_come_now self.now }
        ensures most { length self.now.inbox.waiting + result ≤ 4096 }
    {
        let room = self.inbox.room();
        if self.closed || self.end.is_some() {
            return 0;
        }
        room
    }

    /// Bytes came. They are read up to the next command, which is pending then, and nothing is carried out. It needs no
    /// memory.
    pub fn take(&mut self, bytes: &[u8])
        requires { length bytes.now ≤ may_come_now self.old }
        ensures { Takes self.old bytes.now self.new }
    {
        if self.end.is_some() {
            return;
        }
        self.inbox.take(bytes);
        self.end = self.settled();
    }

    /// The bytes of this peer are at their end: the session ends once all its commands were carried out.
    pub fn close(&mut self)
        ensures { Closes self.old self.new }
    {
        self.closed = true;
        if self.end.is_some() {
            return;
        }
        self.end = self.settled();
    }

    /// Whether a whole command came that is to be carried out.
    pub fn is_due(&self) -> bool
        ensures { result ≡ is_due_now self.now }
    {
        self.end.is_none() && is_met(self.inbox.due())
    }

    /// Whether the pending command is a line that a browser sends: a request of HTTP.
    pub fn asks(&self) -> bool
        ensures { result ≡ asks_now self.now }
    {
        matches!(self.inbox.due(), Met::Request)
    }

    /// Whether the pending command is a submission.
    pub(crate) fn submits(&self) -> bool
        ensures { result ≡ submits_now self.now }
    {
        is_submission(self.inbox.due())
    }

    /// The answers that are to be sent, 1,048,576 bytes at most.
    pub fn unsent(&self) -> &[u8]
        ensures value { result.now ≡ self.now.outbox.unsent }
        ensures most { length result.now ≤ 1048576 }
    {
        self.outbox.as_slice()
    }

    /// `count` bytes of the answers were sent.
    pub fn pass(&mut self, count: usize)
        requires { count ≤ length self.old.outbox.unsent }
        ensures { Sends self.old count self.new }
    {
        self.outbox.pass(count);
    }

    /// The reply to the command that was carried out last, if that was a submission.
    pub fn reply(&self) -> Option<Reply>
        ensures { result ≡ self.now.reply }
    {
        self.reply
    }

    /// How the session ended. What is unsent then is still to be sent.
    pub fn end(&self) -> Option<PeerEnd>
        ensures { result ≡ self.now.end }
    {
        self.end
    }

    /// The command that was due was carried out, or it ended the session so.
    fn settle(&mut self, outcome: Option<PeerEnd>)
        ensures { Settles outcome self.old self.new }
    {
        self.waits = false;
        match outcome {
            None => {
                self.inbox.pass();
                self.end = self.settled();
            }
            Some(end) => {
                self.end = Some(end);
            }
        }
    }

    /// How the session is after what came.
    fn settled(&self) -> Option<PeerEnd>
        ensures { result ≡ settled_now None self.now }
    {
        if is_met(self.inbox.due()) {
            return None;
        }
        if self.inbox.taken() >= LIMIT {
            return Some(PeerEnd::Limit);
        }
        if self.closed {
            return Some(PeerEnd::EndOfInput);
        }
        None
    }
}
