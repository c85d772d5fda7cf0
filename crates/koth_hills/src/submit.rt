//! The command `submit`: one submission to the hill in a file.

ghost use Rattle.std.specs.Prelude.{◌≡◌, ◌+◌, ◌≤◌, ◌⊎◌, ◌++◌, List, ℕ, [], false, None, IfOk, IfSome, OnErr, vec_capacity, vec_len};
ghost use Rattle.{koth_views.specs.Roster.roster, koth_commands.specs.Streams.{From, is_input}};
ghost use Rattle.koth_hills.specs.{Hills.{AnswersReply, AnswersSource, IsNote, SaysReply, Submitted}, Json.{json_line, IsRefused}, ReplyStatus.reply_status};

use crate::json::json_line;
use crate::outcome::placing_text;
use crate::reply_status::status_of;
use crate::settled::settle;
use hill_file::TryLock;
use hill_store::{Reply, Store};
use koth_commands::trouble::Trouble;
use koth_commands::{
    Answer, RefusedSource, Status, explanation_of, open_source, refused_text, text_from,
};
use koth_files::open_within;
use koth_hill::Hill;
use koth_session::line_of;
use koth_views::{Entered, roster};
use koth_words::{Source, View};
use sector_disk::Device;
use std::alloc::{AllocError, Allocator};
use std::io::Read;
use std::rt::{Clock, Files};
use war_types::{AsmFault, Settings};

/// Bytes of the line of a reply at most.
pub const REPLY_LINE: usize = 96;

/// Submits a source to the hill in a file, and answers with the reply. The hill is opened before the source is read. If
/// another program has its lock, that is tried again for as long as the arguments say. The reply to a warrior that is
/// placed or falls comes once that is durable. The note of a refusal is the place in the source and the reason.
pub fn perform_submit<'s, R: Files + Clock, A: Allocator + Copy, I: Read>(
    rt: &'s R,
    alloc: A,
    hill: &'s str,
    wait: u32,
    source: Source<'s>,
    view: View,
    input: &mut I,
) -> Result<Answer<A>, Trouble<'s>>
where
    R::File: TryLock,
    ensures { From (is_input source.entry) (λ i j. AnswersSource (SaysReply view) i j result) (I.remaining input.old)
        (I.remaining input.new) }
{
    match open_within(rt, alloc, hill, wait) {
        Ok(mut store) => submit_read(rt, alloc, &mut store, source, view, input),
        Err(trouble) => Err(trouble),
    }
}

/// Submits a source, of the input or of a file, to a store that was just opened. For a file nothing is taken from the
/// input.
fn submit_read<'s, R: Files, D: Device, A: Allocator + Copy, I: Read>(
    rt: &R,
    alloc: A,
    store: &mut Store<D, A>,
    source: Source<'s>,
    view: View,
    input: &mut I,
) -> Result<Answer<A>, Trouble<'s>>
    requires { store.old.reopen ≡ false }
    ensures { From (is_input source.entry) (λ i j. AnswersSource (SaysReply view) i j result) (I.remaining input.old)
        (I.remaining input.new) }
{
    match source {
        Source::Input(name) => submit_text_from(alloc, store, name, view, input),
        Source::File(path) => match open_source(rt, path) {
            Ok(mut file) => submit_text_from(alloc, store, path, view, &mut file),
            Err(trouble) => Err(trouble),
        },
    }
}

/// Submits the source that a reader has to a store that was just opened. `name` is what messages call it.
fn submit_text_from<'s, D: Device, A: Allocator + Copy, I: Read>(
    alloc: A,
    store: &mut Store<D, A>,
    name: &'s str,
    view: View,
    reader: &mut I,
) -> Result<Answer<A>, Trouble<'s>>
    requires { store.old.reopen ≡ false }
    ensures { AnswersSource (SaysReply view) (I.remaining reader.old) (I.remaining reader.new) result }
{
    match text_from(alloc, name, reader) {
        Ok(text) => {
            let source = SourceText {
                name,
                text: text.as_slice(),
            };
            Ok(submit_source(alloc, store, source, view)?)
        }
        Err(trouble) => Err(trouble),
    }
}

/// The text of a source, and what messages call it.
#[derive(Clone, Copy)]
pub struct SourceText<'s> {
    pub name: &'s str,
    pub text: &'s [u8],
}

/// What the line of a reply is put into.
#[derive(Drop)]
pub struct Rooms<A: Allocator> {
    /// It is empty, and has room for `REPLY_LINE` bytes.
    pub line: Vec<u8, A>,
    /// As JSON, the whole line of a warrior that is placed.
    pub placed: Vec<u8, A>,
}

/// Submits a source to a store. The answer is the reply's line; in the view for people what became of the warrior
/// follows, and as lines of JSON its matches. If there is no memory for the line, nothing is submitted. A refusal as
/// JSON is a longer line, for which there may be no memory after that.
fn submit_source<D: Device, A: Allocator + Copy>(
    alloc: A,
    store: &mut Store<D, A>,
    source: SourceText<'_>,
    view: View,
) -> Result<Answer<A>, AllocError>
    ensures submitted { IfOk result (Submitted D.facts store.old source.entry.text.now store.new view) }
    ensures memory { OnErr result (store.new ≡ store.old) }
{
    let line = Vec::with_capacity(alloc, REPLY_LINE)?;
    let before = roster_for(alloc, view, store.hill());
    let settled = settle(alloc, store, source.text, view);
    let placing = placing_text(alloc, view, &before, store.hill(), &settled);
    let settings = store.hill().settings();
    let more = placing.as_slice();
    let reply = settled.reply;
    let placed = settled.placed;
    reply_answer(
        alloc,
        Rooms { line, placed },
        settings,
        source,
        view,
        &reply,
        more,
    )
}

/// The answer to a source: the line of the reply, in these rooms, and this text after it if there is memory for that.
/// The note of a refusal is the place in the source and the reason, which its line of JSON has in place of a note; that
/// alone needs memory.
pub fn reply_answer<A: Allocator + Copy>(
    alloc: A,
    rooms: Rooms<A>,
    settings: &Settings,
    source: SourceText<'_>,
    view: View,
    reply: &Reply,
    more: &[u8],
) -> Result<Answer<A>, AllocError>
    requires empty { rooms.line.items ≡ [] }
    requires fits { vec_len rooms.line + 96 ≤ vec_capacity rooms.line }
    ensures answers { IfOk result (λ answer. AnswersReply view rooms.placed.items reply.now more.now answer
        ⊎ AnswersReply view rooms.placed.items reply.now [] answer) }
    ensures memory { OnErr result (IsRefused reply.now) }
{
    match view {
        View::Plain => Ok(told_answer(alloc, rooms, settings, source, reply, more)),
        View::Table => Ok(told_answer(alloc, rooms, settings, source, reply, more)),
        View::Json => json_answer(alloc, rooms, settings, source, reply, more),
    }
}

/// The same in the line for programs, with a note of a refusal if there is memory for that.
fn told_answer<A: Allocator + Copy>(
    alloc: A,
    rooms: Rooms<A>,
    settings: &Settings,
    source: SourceText<'_>,
    reply: &Reply,
    more: &[u8],
) -> Answer<A>
    requires empty { rooms.line.items ≡ [] }
    requires fits { vec_len rooms.line + 96 ≤ vec_capacity rooms.line }
    ensures { AnswersReply View.Plain rooms.placed.items reply.now more.now result
        ⊎ AnswersReply View.Plain rooms.placed.items reply.now [] result }
{
    let mut room = rooms.line;
    line_of(reply).append_to(&mut room);
    let _ = room.extend_from_slice(more);
    Answer {
        status: status_of(reply),
        text: room,
        note: note_of(alloc, settings, source, reply),
    }
}

/// The same as lines of JSON.
fn json_answer<A: Allocator + Copy>(
    alloc: A,
    rooms: Rooms<A>,
    settings: &Settings,
    source: SourceText<'_>,
    reply: &Reply,
    more: &[u8],
) -> Result<Answer<A>, AllocError>
    requires empty { rooms.line.items ≡ [] }
    requires fits { vec_len rooms.line + 96 ≤ vec_capacity rooms.line }
    ensures answers { IfOk result (λ answer. AnswersReply View.Json rooms.placed.items reply.now more.now answer
        ⊎ AnswersReply View.Json rooms.placed.items reply.now [] answer) }
    ensures memory { OnErr result (IsRefused reply.now) }
{
    match *reply {
        Reply::Refused(fault) => refused_answer(alloc, settings, source, fault),
        _ => Ok(line_answer(alloc, rooms, reply, more)),
    }
}

/// The line of JSON of a reply, in these rooms, and this text after it if there is memory for that.
fn line_answer<A: Allocator>(alloc: A, rooms: Rooms<A>, reply: &Reply, more: &[u8]) -> Answer<A>
    requires empty { rooms.line.items ≡ [] }
    requires fits { vec_len rooms.line + 96 ≤ vec_capacity rooms.line }
    ensures ends { result.status ≡ reply_status reply.now }
    ensures text { result.text ≡ json_line rooms.placed.items reply.now ++ more.now
        ⊎ result.text ≡ json_line rooms.placed.items reply.now ++ [] }
    ensures note { result.note ≡ [] }
{
    let mut text = json_line(rooms, reply);
    let _ = text.extend_from_slice(more);
    Answer {
        status: status_of(reply),
        text,
        note: Vec::new(alloc),
    }
}

/// The line of JSON of a refusal.
fn refused_answer<A: Allocator + Copy>(
    alloc: A,
    settings: &Settings,
    source: SourceText<'_>,
    fault: AsmFault,
) -> Result<Answer<A>, AllocError>
    ensures { (placed : List ℕ) → IfOk result (AnswersReply View.Json placed (Reply.Refused fault) []) }
{
    let refused = RefusedSource {
        path: source.name,
        text: source.text,
        fault,
    };
    Ok(Answer {
        status: Status::Refused,
        text: refused_text(alloc, settings, refused)?,
        note: Vec::new(alloc),
    })
}

/// The place in a source and the reason, if it is refused and there is memory for that.
fn note_of<A: Allocator + Copy>(
    alloc: A,
    settings: &Settings,
    source: SourceText<'_>,
    reply: &Reply,
) -> Vec<u8, A>
    ensures { IsNote View.Plain reply.now result.items }
{
    match *reply {
        Reply::Refused(_) => explanation_of(alloc, source.name, source.text, settings),
        _ => Vec::new(alloc),
    }
}

/// Who is on the hill before a submission, if people are to read what becomes of it and there is memory for that.
fn roster_for<A: Allocator + Copy>(alloc: A, view: View, hill: &Hill<A>) -> Option<Vec<Entered, A>>
    ensures plain { view ≡ View.Plain → result ≡ None }
    ensures roster { IfSome result (λ stood. stood.items ≡ roster hill.now) }
{
    match view {
        View::Plain | View::Json => None,
        View::Table => roster(alloc, hill).ok(),
    }
}
