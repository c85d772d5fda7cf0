//! What a command is answered, after the answers that are unsent.

ghost use Rattle.std.specs.Prelude.{◌≡◌, ℕ, ◌+◌, ◌<◌, ◌≤◌, ◌++◌, true, false, List, Option, None, length, IfErr, IfOk, IfSome};
ghost use Rattle.{koth_hill.specs.Kept.verdict_kept, hill_store.specs.Submission.{IsSubmitting, MayChallenge}, koth_protocol.specs.Commands.Command};
ghost use Rattle.koth_session.specs.{Inbox.{is_met, is_submission}, Judge.IsOfSource, Reply.reply_line, Sessions.has_failed};
ghost use Rattle.koth_session.specs.Peer.{command_due, AnswersPeer, IsReplied, LacksPlace, Says, SaysReply};

use crate::end::PeerEnd;
use crate::inbox::is_submission;
use crate::outbox::{Outbox, REPLY_MOST};
use crate::reply::{line_of, table_of};
use hill_store::{Reply, Store, Submission};
use koth_hill::Verdict;
use koth_protocol::Met;
use sector_disk::Device;
use std::alloc::{AllocError, Allocator};
use war_types::AsmKind;

/// Carries a command out, a source within these steps if there are any, and answers it. The reply to a submission is
/// kept.
pub(crate) fn answer<D: Device, A: Allocator + Copy>(
    alloc: A,
    due: Met,
    source: &[u8],
    steps: Option<u64>,
    outbox: &mut Outbox<A>,
    reply: &mut Option<Reply>,
    store: &mut Store<D, A>,
) -> Option<PeerEnd>
    requires met { is_met due ≡ true }
    requires none { reply.old ≡ None }
    ensures replied { IsReplied result outbox.old.unsent outbox.new.unsent reply.new }
    ensures answers { AnswersPeer D.facts steps
        (command_due due source.now) result outbox.old.unsent store.old outbox.new.unsent store.new }
{
    if is_submission(due) {
        submit(source, steps, outbox, reply, store)
    } else {
        tell(alloc, due, outbox, store)
    }
}

/// Answers a command that is no submission.
pub(crate) fn tell<D: Device, A: Allocator + Copy>(
    alloc: A,
    due: Met,
    outbox: &mut Outbox<A>,
    store: &Store<D, A>,
) -> Option<PeerEnd>
    requires met { is_met due ≡ true }
    requires other { is_submission due ≡ false }
    ensures { (steps : Option ℕ) (bytes : List ℕ)
        → AnswersPeer D.facts steps (command_due due bytes) result outbox.old.unsent store.now outbox.new.unsent
        store.now }
{
    match due {
        Met::Show => show(alloc, outbox, store),
        Met::Quit => Some(PeerEnd::Quit),
        Met::Request | Met::Bad => say(outbox, b"BAD\n"),
        Met::Nothing | Met::Submit => unreachable!(),
    }
}

/// Submits a source, once there is room and memory for the reply.
fn submit<D: Device, A: Allocator + Copy>(
    source: &[u8],
    steps: Option<u64>,
    outbox: &mut Outbox<A>,
    kept: &mut Option<Reply>,
    store: &mut Store<D, A>,
) -> Option<PeerEnd>
    requires { kept.old ≡ None }
    ensures replied { IsReplied result outbox.old.unsent outbox.new.unsent kept.new }
    ensures answers { AnswersPeer D.facts steps
        (Command.Submit source.now) result outbox.old.unsent store.old outbox.new.unsent store.new }
{
    if let Some(end) = make_room(outbox) {
        return Some(end);
    }
    match store.submit_within(source, steps) {
        Some(reply) => put_reply(outbox, kept, reply),
        None => Some(PeerEnd::StepsSpent),
    }
}

/// Begins the submission of a source, once there is room and memory for the reply. If nothing is begun, `Err` says how
/// the source ended the session, or that it was answered.
pub(crate) fn begin<D: Device, A: Allocator + Copy>(
    source: &[u8],
    steps: Option<u64>,
    outbox: &mut Outbox<A>,
    kept: &mut Option<Reply>,
    store: &Store<D, A>,
) -> Result<Submission<A>, Option<PeerEnd>>
    ensures begun { IfOk result (IsSubmitting store.now) }
    ensures of_source { IfOk result (IsOfSource store.now.hill.settings source.now) }
    ensures same { IfOk result (λ submission. outbox.new.unsent ≡ outbox.old.unsent) }
    ensures answers { IfErr result (λ outcome. AnswersPeer D.facts steps
        (Command.Submit source.now) outcome outbox.old.unsent store.now outbox.new.unsent store.now) }
{
    if let Some(end) = make_room(outbox) {
        return Err(Some(end));
    }
    match store.begin(source, steps) {
        Some(Ok(submission)) => Ok(submission),
        Some(Err(reply)) => Err(put_reply(outbox, kept, reply)),
        None => Err(Some(PeerEnd::StepsSpent)),
    }
}

/// Finishes a submission that was judged so, once there is room and memory for the reply.
pub(crate) fn finish<D: Device, A: Allocator + Copy>(
    outbox: &mut Outbox<A>,
    kept: &mut Option<Reply>,
    store: &mut Store<D, A>,
    submission: Submission<A>,
    judged: &Verdict,
) -> Option<PeerEnd>
    requires may { MayChallenge store.old submission.warrior }
    requires verdict { judged.now ≡ verdict_kept store.old.hill submission.warrior }
    ensures { (source : List ℕ) (steps : Option ℕ) → IsOfSource store.old.hill.settings source submission
        → AnswersPeer D.facts steps (Command.Submit source) result outbox.old.unsent store.old outbox.new.unsent
        store.new }
{
    if let Some(end) = make_room(outbox) {
        return Some(end);
    }
    let reply = store.finish(submission, judged);
    put_reply(outbox, kept, reply)
}

/// Makes room for the line of a reply, or returns how the session ends for want of it.
fn make_room<A: Allocator>(outbox: &mut Outbox<A>) -> Option<PeerEnd>
    ensures same { outbox.new.unsent ≡ outbox.old.unsent }
    ensures spare { result ≡ None → 96 ≤ outbox.new.spare }
    ensures room { result ≡ None → length outbox.new.unsent + 96 ≤ 1048576 }
    ensures lacks { IfSome result (λ end. LacksPlace end outbox.old.unsent) }
{
    if outbox.room() < REPLY_MOST {
        return Some(PeerEnd::Unread);
    }
    match outbox.reserve(REPLY_MOST) {
        Ok(()) => None,
        Err(AllocError) => Some(PeerEnd::Memory),
    }
}

/// Puts the line of a reply in, and keeps the reply, unless the device failed. It needs no memory.
fn put_reply<A: Allocator>(
    outbox: &mut Outbox<A>,
    kept: &mut Option<Reply>,
    reply: Reply,
) -> Option<PeerEnd>
    requires spare { 96 ≤ outbox.old.spare }
    requires room { length outbox.old.unsent + 96 ≤ 1048576 }
    ensures replied { kept.old ≡ None → IsReplied result outbox.old.unsent outbox.new.unsent kept.new }
    ensures says { SaysReply reply result outbox.old.unsent outbox.new.unsent }
{
    if has_failed(&reply) {
        return Some(PeerEnd::StoreFailed);
    }
    is_short(&reply);
    outbox.put(line_of(&reply).as_slice());
    *kept = Some(reply);
    None
}

/// Whether the device failed, in this submission or before.
fn has_failed(reply: &Reply) -> bool
    ensures { result ≡ has_failed reply.now }
{
    match *reply {
        Reply::Disk | Reply::Reopen => true,
        Reply::Placed { .. }
        | Reply::Fell { .. }
        | Reply::Refused(_)
        | Reply::Memory
        | Reply::Worn => false,
    }
}

/// Puts the table in.
fn show<D: Device, A: Allocator + Copy>(
    alloc: A,
    outbox: &mut Outbox<A>,
    store: &Store<D, A>,
) -> Option<PeerEnd>
    ensures { (steps : Option ℕ) → AnswersPeer D.facts steps Command.Show result outbox.old.unsent store.now
        outbox.new.unsent store.now }
{
    match table_of(alloc, store) {
        Ok(text) => say(outbox, text.as_slice()),
        Err(AllocError) => Some(PeerEnd::Memory),
    }
}

/// Puts a text in, if there is room and memory for it.
fn say<A: Allocator>(outbox: &mut Outbox<A>, text: &[u8]) -> Option<PeerEnd>
    ensures { Says text.now result outbox.old.unsent outbox.new.unsent }
{
    if outbox.room() < text.len() {
        return Some(PeerEnd::Unread);
    }
    if let Err(AllocError) = outbox.reserve(text.len()) {
        return Some(PeerEnd::Memory);
    }
    outbox.put(text);
    None
}

/// The line of a reply is short: it does nothing but to say so.
fn is_short(reply: &Reply)
    ensures { length (reply_line reply.now) ≤ 96 }
{
    match *reply {
        Reply::Placed { entry, rank, score } => are_short(entry, rank, score, 0, AsmKind::Memory),
        Reply::Fell { entry, score } => are_short(entry, 0, score, 0, AsmKind::Memory),
        Reply::Refused(fault) => are_short(0, 0, 0, fault.line, fault.kind),
        Reply::Memory | Reply::Worn | Reply::Disk | Reply::Reopen => {}
    }
}

/// So are the lines of replies with these numbers and this kind of a fault.
fn are_short(_entry: u64, _rank: u32, _score: u32, _line: u32, _kind: AsmKind)
    ensures placed { length (reply_line (Reply.Placed _entry _rank _score)) ≤ 96 }
    ensures fell { length (reply_line (Reply.Fell _entry _score)) ≤ 96 }
    ensures refused { length (reply_line (Reply.Refused (record { line = _line; kind = _kind }))) ≤ 96 }
{}
