//! The command `submit` for a hill elsewhere.

ghost use Rattle.std.specs.Prelude.{◌≡◌, IfOk};
ghost use Rattle.koth_remote.specs.Remote.{EndsAsReply, MaySubmitTo};

use crate::reach::connected;
use crate::rows::put_shown;
use hill_store::Reply;
use koth_client::{Ending, Told, ask_table, submit};
use koth_commands::trouble::Trouble;
use koth_commands::{Answer, Status, name_text, open_source, text_from};
use koth_hills::{REPLY_LINE, Rooms, SourceText, reply_answer};
use koth_json::put_placed;
use koth_protocol::Counted;
use koth_words::{Sent, Source, View, Way};
use std::alloc::{AllocError, Allocator};
use std::io::{Read, Write};
use std::net::Net;
use std::rt::Files;
use war_types::{RawSettings, Settings};

/// What is told if no answer came, and the table did.
const LOST: &[u8] =
    b": no answer came: the source is submitted or isn't. This is there now, maybe an older warrior of its name:\n";

/// What is told if neither came.
const UNKNOWN: &[u8] =
    b": no answer came: the source is submitted or isn't; koth show --to shows what is there\n";

/// What is told of a pipe from which no answer came.
const CLOSED: &[u8] =
    b": no answer came: the source is submitted or isn't; SHOW in another session tells\n";

/// What is told before a line that is no answer.
const STRANGE: &[u8] = b": this came, and is no answer to a submission:\n";

/// Bytes of a line that is no answer that are told at most.
const STRANGE_MOST: usize = 256;

/// Submits a source to a hill elsewhere, once, and answers with the reply. The note of a refusal is the place in the
/// source and the reason, under these settings. If no answer came, the note says so, with the table that is there now.
/// Through a pipe all is in the note, since standard output leads to the session.
pub fn perform_submit_to<'s, R: Files + Net, A: Allocator + Copy, I: Read, O: Write>(
    rt: &R,
    alloc: A,
    given: RawSettings,
    sent: Sent<'s>,
    view: View,
    input: &mut I,
    output: &mut O,
) -> Result<Answer<A>, Trouble<'s>>
    ensures { MaySubmitTo result }
{
    let settings = match Settings::new(given) {
        Ok(settings) => settings,
        Err(fault) => return Err(Trouble::settings(given, fault)),
    };
    let (name, text) = match source_text(rt, alloc, sent.source, input) {
        Ok(read) => read,
        Err(trouble) => return Err(trouble),
    };
    let source = SourceText {
        name,
        text: text.as_slice(),
    };
    match sent.way {
        Way::To(to, timeout) => submit_to(rt, alloc, &settings, source, view, to, timeout),
        Way::Pipe => submit_through(alloc, &settings, source, view, input, output),
    }
}

/// The text of a source, and what messages call it.
fn source_text<'s, R: Files, A: Allocator + Copy, I: Read>(
    rt: &R,
    alloc: A,
    source: Source<'s>,
    input: &mut I,
) -> Result<(&'s str, Vec<u8, A>), Trouble<'s>> {
    match source {
        Source::Input(name) => match text_from(alloc, name, input) {
            Ok(text) => Ok((name, text)),
            Err(trouble) => Err(trouble),
        },
        Source::File(path) => match open_source(rt, path) {
            Ok(mut file) => match text_from(alloc, path, &mut file) {
                Ok(text) => Ok((path, text)),
                Err(trouble) => Err(trouble),
            },
            Err(trouble) => Err(trouble),
        },
    }
}

/// Submits a source over a connection.
fn submit_to<'s, R: Net, A: Allocator + Copy>(
    rt: &R,
    alloc: A,
    settings: &Settings,
    source: SourceText<'_>,
    view: View,
    to: &'s str,
    timeout: u32,
) -> Result<Answer<A>, Trouble<'s>>
    ensures ends { IfOk result (λ answer. EndsAsReply answer.status) }
{
    let (mut input, mut output) = match connected(rt, to, timeout) {
        Ok(ends) => ends,
        Err(trouble) => return Err(trouble),
    };
    let told = submit(alloc, source.text, &mut input, &mut output)?;
    drop(input);
    drop(output);
    match told.reply() {
        Some(reply) => Ok(answered(alloc, settings, source, view, &reply)?),
        None => Ok(unanswered(rt, alloc, &told, to, timeout)?),
    }
}

/// Submits a source through standard input and output.
fn submit_through<'s, A: Allocator + Copy, I: Read, O: Write>(
    alloc: A,
    settings: &Settings,
    source: SourceText<'_>,
    view: View,
    input: &mut I,
    output: &mut O,
) -> Result<Answer<A>, Trouble<'s>>
    ensures ends { IfOk result (λ answer. EndsAsReply answer.status) }
{
    let mut came = Counted::new(input);
    let mut went = Counted::new(output);
    let told = submit(alloc, source.text, &mut came, &mut went)?;
    match told.reply() {
        Some(reply) => {
            let answer = answered(alloc, settings, source, view, &reply)?;
            Ok(noted(alloc, answer)?)
        }
        None => Ok(unanswered_through(alloc, &told)?),
    }
}

/// The answer to a reply.
fn answered<A: Allocator + Copy>(
    alloc: A,
    settings: &Settings,
    source: SourceText<'_>,
    view: View,
    reply: &Reply,
) -> Result<Answer<A>, AllocError>
    ensures ends { IfOk result (λ answer. EndsAsReply answer.status) }
{
    let line = Vec::with_capacity(alloc, REPLY_LINE)?;
    let placed = placed_line(alloc, view, reply)?;
    let rooms = Rooms { line, placed };
    let answer = reply_answer(alloc, rooms, settings, source, view, reply, b"")?;
    Ok(answer)
}

/// As JSON, the line of a warrior that is placed. A port doesn't say who is pushed off.
fn placed_line<A: Allocator>(
    alloc: A,
    view: View,
    reply: &Reply,
) -> Result<Vec<u8, A>, AllocError> {
    let mut line = Vec::new(alloc);
    if let (View::Json, Reply::Placed { entry, rank, score }) = (view, *reply) {
        put_placed(&mut line, entry, rank, score)?;
    }
    Ok(line)
}

/// The same answer with its text in the note, in front of the rest.
fn noted<A: Allocator>(alloc: A, answer: Answer<A>) -> Result<Answer<A>, AllocError>
    ensures status { IfOk result (λ told. told.status ≡ answer.status) }
{
    let mut note = answer.text;
    note.extend_from_slice(answer.note.as_slice())?;
    Ok(Answer {
        status: answer.status,
        text: Vec::new(alloc),
        note,
    })
}

/// The answer if no reply came over a connection.
fn unanswered<R: Net, A: Allocator + Copy>(
    rt: &R,
    alloc: A,
    told: &Told<A>,
    to: &str,
    timeout: u32,
) -> Result<Answer<A>, AllocError>
    ensures ends { IfOk result (λ answer. EndsAsReply answer.status) }
{
    if told.ending == Ending::Whole {
        return strange(alloc, to, told);
    }
    match table_now(rt, alloc, to, timeout) {
        Some(table) => failed(alloc, to, LOST, table.bytes.as_slice()),
        None => failed(alloc, to, UNKNOWN, b""),
    }
}

/// The answer if no reply came through a pipe.
fn unanswered_through<A: Allocator + Copy>(
    alloc: A,
    told: &Told<A>,
) -> Result<Answer<A>, AllocError>
    ensures ends { IfOk result (λ answer. EndsAsReply answer.status) }
{
    if told.ending == Ending::Whole {
        return strange(alloc, INPUT, told);
    }
    failed(alloc, INPUT, CLOSED, b"")
}

/// What messages call a pipe.
const INPUT: &str = "standard input";

/// What is there now, on a connection of its own, if that can be told.
fn table_now<R: Net, A: Allocator + Copy>(
    rt: &R,
    alloc: A,
    to: &str,
    timeout: u32,
) -> Option<Told<A>> {
    let Ok((mut input, mut output)) = connected(rt, to, timeout) else {
        return None;
    };
    match ask_table(alloc, &mut input, &mut output) {
        Ok(told) if told.ending == Ending::Whole => Some(told),
        _ => None,
    }
}

/// The answer to a line that is none.
fn strange<A: Allocator + Copy>(
    alloc: A,
    name: &str,
    told: &Told<A>,
) -> Result<Answer<A>, AllocError>
    ensures ends { IfOk result (λ answer. EndsAsReply answer.status) }
{
    let line = told.bytes.as_slice();
    failed(alloc, name, STRANGE, &line[..line.len().min(STRANGE_MOST)])
}

/// The answer of a command that has none: a note with this sentence and these lines.
fn failed<A: Allocator + Copy>(
    alloc: A,
    name: &str,
    sentence: &[u8],
    lines: &[u8],
) -> Result<Answer<A>, AllocError>
    ensures status { IfOk result (λ answer. answer.status ≡ Status.StreamFault) }
{
    let mut note = Vec::new(alloc);
    note.extend_from_slice(b"DISK ")?;
    note.extend_from_slice(name_text(alloc, name)?.as_slice())?;
    note.extend_from_slice(sentence)?;
    put_shown(&mut note, lines)?;
    Ok(Answer {
        status: Status::StreamFault,
        text: Vec::new(alloc),
        note,
    })
}
