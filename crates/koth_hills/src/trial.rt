//! The command `try`: what a submission would be answered.

ghost use Rattle.std.specs.Prelude.{◌≡◌, false, IfOk, option_copied};
ghost use Rattle.{koth_commands.specs.Streams.{From, is_input}, koth_hills.specs.Trials.{AnswersTrial, IsTrialText, SaysTrial, Tried, trial_view}};

use crate::json::{judged_lines, line_for};
use crate::submit::{REPLY_LINE, Rooms, SourceText, reply_answer};
use hill_store::{Reply, Store};
use koth_commands::trouble::Trouble;
use koth_commands::{Answer, defined_text, open_source, text_from};
use koth_files::look_hill;
use koth_hill::{Hill, Verdict};
use koth_views::{challenged_view, fallen_view};
use koth_words::{Source, View};
use sector_disk::Device;
use std::alloc::{AllocError, Allocator};
use std::io::Read;
use std::rt::Files;

/// Answers what a submission of a source, with a definition if one is given, to the hill in a file would be answered,
/// and for people, or as lines of JSON, its matches with all on the hill. Nothing is submitted: the hill is looked at before the source is read, its file is
/// only read, and its lock is not taken.
pub fn perform_try<'s, R: Files, A: Allocator + Copy, I: Read>(
    rt: &R,
    alloc: A,
    hill: &'s str,
    source: Source<'s>,
    definition: Option<&'s str>,
    view: View,
    input: &mut I,
) -> Result<Answer<A>, Trouble<'s>>
    ensures { From (is_input source.entry)
        (λ i j. AnswersTrial (option_copied definition.entry) (SaysTrial view) i j result)
        (I.remaining input.old) (I.remaining input.new) }
{
    match look_hill(rt, alloc, hill) {
        Ok(mut store) => try_read(rt, alloc, &mut store, source, definition, view, input),
        Err(trouble) => Err(trouble),
    }
}

/// Tries a source, of the input or of a file, on the hill of a store that was just opened. For a file nothing is taken
/// from the input.
fn try_read<'s, R: Files, D: Device, A: Allocator + Copy, I: Read>(
    rt: &R,
    alloc: A,
    store: &mut Store<D, A>,
    source: Source<'s>,
    definition: Option<&'s str>,
    view: View,
    input: &mut I,
) -> Result<Answer<A>, Trouble<'s>>
    requires { store.old.reopen ≡ false }
    ensures { From (is_input source.entry)
        (λ i j. AnswersTrial (option_copied definition.entry) (SaysTrial view) i j result)
        (I.remaining input.old) (I.remaining input.new) }
{
    match source {
        Source::Input(name) => try_text_from(alloc, store, name, definition, view, input),
        Source::File(path) => match open_source(rt, path) {
            Ok(mut file) => try_text_from(alloc, store, path, definition, view, &mut file),
            Err(trouble) => Err(trouble),
        },
    }
}

/// Tries the source that a reader has on the hill of a store that was just opened. `name` is what messages call it.
fn try_text_from<'s, D: Device, A: Allocator + Copy, I: Read>(
    alloc: A,
    store: &mut Store<D, A>,
    name: &'s str,
    definition: Option<&'s str>,
    view: View,
    reader: &mut I,
) -> Result<Answer<A>, Trouble<'s>>
    requires { store.old.reopen ≡ false }
    ensures { AnswersTrial (option_copied definition.entry) (SaysTrial view) (I.remaining reader.old)
        (I.remaining reader.new) result }
{
    let source = match text_from(alloc, name, reader) {
        Ok(source) => source,
        Err(trouble) => return Err(trouble),
    };
    match defined_text(alloc, definition, source) {
        Ok(text) => {
            let source = SourceText {
                name,
                text: text.as_slice(),
            };
            Ok(try_source(alloc, store, source, view)?)
        }
        Err(trouble) => Err(trouble),
    }
}

/// The same of a source.
fn try_source<D: Device, A: Allocator + Copy>(
    alloc: A,
    store: &mut Store<D, A>,
    source: SourceText<'_>,
    view: View,
) -> Result<Answer<A>, AllocError>
    ensures tried { IfOk result (Tried D.facts store.old source.entry.text.now view) }
    ensures unchanged { store.new ≡ store.old }
{
    let line = Vec::with_capacity(alloc, REPLY_LINE)?;
    match store.try_source(source.text, None) {
        Some(Ok(judged)) => {
            let reply = Reply::judged(&judged);
            let placed = line_for(alloc, view, store.hill(), &judged)?;
            let more = trial_text(alloc, store.hill(), view, &judged);
            let settings = store.hill().settings();
            let more = more.as_slice();
            let rooms = Rooms { line, placed };
            reply_answer(alloc, rooms, settings, source, view, &reply, more)
        }
        Some(Err(reply)) => {
            let placed = Vec::new(alloc);
            let settings = store.hill().settings();
            let rooms = Rooms { line, placed };
            reply_answer(alloc, rooms, settings, source, view, &reply, b"")
        }
        None => unreachable!(),
    }
}

/// What is after the line of the reply.
fn trial_text<A: Allocator + Copy>(
    alloc: A,
    hill: &Hill<A>,
    view: View,
    judged: &Verdict,
) -> Vec<u8, A>
    ensures { IsTrialText view hill.now judged.now result.items }
{
    match view {
        View::Plain => Vec::new(alloc),
        View::Table => match trial_view(alloc, hill, judged) {
            Ok(text) => text,
            Err(AllocError) => Vec::new(alloc),
        },
        View::Json => match judged_lines(alloc, hill, judged) {
            Ok(text) => text,
            Err(AllocError) => Vec::new(alloc),
        },
    }
}

/// The matches of a challenger with all on the hill, and if it would fall the least points with which one stays.
fn trial_view<A: Allocator + Copy>(
    alloc: A,
    hill: &Hill<A>,
    judged: &Verdict,
) -> Result<Vec<u8, A>, AllocError>
    ensures { IfOk result (λ text. text.items ≡ trial_view hill.now judged.now) }
{
    if judged.stays {
        challenged_view(alloc, hill, judged.bouts())
    } else {
        fallen_view(alloc, hill, judged.bouts())
    }
}
