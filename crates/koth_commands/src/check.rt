//! The command `check`: what is wrong with sources, for people or for editors.

ghost use Rattle.std.specs.Prelude.{◌≡◌, MatchResult};
ghost use Rattle.{war_types.specs.Settings.settings_of, koth_words.specs.Sources.{Place, place}};
ghost use Rattle.koth_commands.specs.{Check.{is_over, places_of, EndsCheck, EndsCheckUnder, IsChecked, IsFaultAt}, Report.manner_of, Streams.streams};

use crate::answer::{Answer, deliver};
use crate::define::defined_text;
use crate::report::report;
use crate::settings::refuse_settings;
use crate::source::{open_source, text_from};
use crate::status::Status;
use crate::trouble::Trouble;
use koth_words::{Checked, Source};
use std::alloc::Allocator;
use std::io::{Read, Write};
use std::rt::Files;
use war_types::{RawSettings, Settings};

/// Writes every refusal of sources, under the settings that are given, and every warning if they are asked for. Each is
/// written for people, with the line's text and a caret under what is meant, or as a line of JSON. Standard error names
/// the sources whose assembly takes more steps than a service allows by default, those that can't be read, and those of
/// which no line defines the name of a definition that is given. Settings that are out of their ranges are refused
/// before anything is read. If the output fails or memory runs out, no further source is checked.
pub fn check<R: Files, A: Allocator + Copy, I: Read, O: Write, E: Write>(
    rt: &R,
    alloc: A,
    given: RawSettings,
    checked: &Checked<'_>,
    input: &mut I,
    output: &mut O,
    errors: &mut E,
) -> Status
    ensures { EndsCheck (manner_of checked.now) (places_of checked.now) (settings_of given) result
        (streams (I.remaining input.old) (O.contents output.old) (E.contents errors.old))
        (streams (I.remaining input.new) (O.contents output.new) (E.contents errors.new)) }
{
    match Settings::new(given) {
        Ok(settings) => check_files(rt, alloc, &settings, checked, input, output, errors),
        Err(fault) => refuse_settings(alloc, given, fault, errors),
    }
}

fn check_files<R: Files, A: Allocator + Copy, I: Read, O: Write, E: Write>(
    rt: &R,
    alloc: A,
    settings: &Settings,
    checked: &Checked<'_>,
    input: &mut I,
    output: &mut O,
    errors: &mut E,
) -> Status
    ensures { EndsCheckUnder settings.now (manner_of checked.now) (places_of checked.now) result
        (streams (I.remaining input.old) (O.contents output.old) (E.contents errors.old))
        (streams (I.remaining input.new) (O.contents output.new) (E.contents errors.new)) }
{
    let mut status = Status::Done;
    for source in checked.files.as_slice() {
        let done = check_source(rt, alloc, settings, checked, *source, input);
        let is_read = done.is_ok();
        let end = deliver(alloc, done, false, output, errors);
        if is_over(is_read, end) {
            return end;
        }
        status = status.worse(end);
    }
    status
}

/// Whether no further source is checked: memory ran out, or the output failed at the report of a source that was read.
fn is_over(is_read: bool, end: Status) -> bool
    ensures { result ≡ is_over is_read end }
{
    match end {
        Status::StreamFault => is_read,
        Status::NoMemory => true,
        _ => false,
    }
}

/// Every refusal of a source, as its answer.
fn check_source<'w, R: Files, A: Allocator + Copy, I: Read>(
    rt: &R,
    alloc: A,
    settings: &Settings,
    checked: &Checked<'w>,
    source: Source<'w>,
    input: &mut I,
) -> Result<Answer<A>, Trouble<'w>>
    ensures { MatchResult result
        (IsChecked settings.now (manner_of checked.now) (place source.entry) (I.remaining input.old)
        (I.remaining input.new))
        (IsFaultAt (manner_of checked.now) (place source.entry) (I.remaining input.old) (I.remaining input.new)) }
{
    match source {
        Source::Input(name) => check_from(alloc, settings, checked, name, input),
        Source::File(path) => match open_source(rt, path) {
            Ok(mut file) => check_from(alloc, settings, checked, path, &mut file),
            Err(trouble) => Err(trouble),
        },
    }
}

/// Every refusal of the text that a reader has, as if that were the input. `name` is what messages call it.
fn check_from<'w, A: Allocator + Copy, I: Read>(
    alloc: A,
    settings: &Settings,
    checked: &Checked<'w>,
    name: &'w str,
    reader: &mut I,
) -> Result<Answer<A>, Trouble<'w>>
    ensures { MatchResult result
        (IsChecked settings.now (manner_of checked.now) (Place.Input name.now) (I.remaining reader.old)
        (I.remaining reader.new))
        (IsFaultAt (manner_of checked.now) (Place.Input name.now) (I.remaining reader.old)
        (I.remaining reader.new)) }
{
    let source = match text_from(alloc, name, reader) {
        Ok(source) => source,
        Err(trouble) => return Err(trouble),
    };
    let text = match defined_text(alloc, checked.define, source) {
        Ok(text) => text,
        Err(trouble) => return Err(trouble),
    };
    report(alloc, settings, checked, name, text.as_slice())
}
