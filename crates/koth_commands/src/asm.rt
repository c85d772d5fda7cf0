//! The command `asm`: from a source to load text.

ghost use Rattle.std.specs.Prelude.{◌≡◌, All, IfOk, MatchResult, Ok};
ghost use Rattle.{war_types.specs.{Settings.settings_of, Warrior.HasNumbersBelow}, redcode_asm.specs.Assembly.assembly};
ghost use Rattle.koth_commands.specs.{Asm.{wanted_of, EndsAsmFrom, IsDone, IsDoneFrom, IsAssembled, SaysLoad}, Streams.{is_input, streams}, Trouble.no_memory};

use crate::answer::{Answer, RefusedSource, deliver, refusal_told};
use crate::define::defined_text;
use crate::source::{open_source, text_from};
use crate::status::Status;
use crate::trouble::Trouble;
use koth_words::{Assembled, Source};
use redcode_asm::load_text;
use redcode_diagnosis::assemble_told;
use redcode_listing::listing;
use std::alloc::{AllocError, Allocator};
use std::io::{Read, Write};
use std::rt::Files;
use war_types::{RawSettings, Settings, Warrior};

/// Assembles the source in a file or on standard input, under the settings that are given, and writes its load text or
/// its refusal. If a definition is given, its body takes the place of those of its name; if a listing is asked for, a
/// comment after each instruction says where it is from. Settings that are out of their ranges are refused before
/// anything is read.
pub fn asm<R: Files, A: Allocator + Copy, I: Read, O: Write, E: Write>(
    rt: &R,
    alloc: A,
    given: RawSettings,
    wanted: Assembled<'_>,
    input: &mut I,
    output: &mut O,
    errors: &mut E,
) -> Status
    ensures { EndsAsmFrom (is_input wanted.entry.source) (wanted_of wanted.entry) (settings_of given) result
        (streams (I.remaining input.old) (O.contents output.old) (E.contents errors.old))
        (streams (I.remaining input.new) (O.contents output.new) (E.contents errors.new)) }
{
    let done = perform_asm(rt, alloc, given, wanted, input);
    deliver(alloc, done, false, output, errors)
}

fn perform_asm<'w, R: Files, A: Allocator + Copy, I: Read>(
    rt: &R,
    alloc: A,
    given: RawSettings,
    wanted: Assembled<'w>,
    input: &mut I,
) -> Result<Answer<A>, Trouble<'w>>
    ensures { IsDoneFrom (is_input wanted.entry.source) (wanted_of wanted.entry) (settings_of given)
        (I.remaining input.old) (I.remaining input.new) result }
{
    let settings = match Settings::new(given) {
        Ok(settings) => settings,
        Err(fault) => return Err(Trouble::settings(given, fault)),
    };
    match wanted.source {
        Source::Input(name) => done_from(alloc, &settings, wanted, name, input),
        Source::File(path) => match open_source(rt, path) {
            Ok(mut file) => done_from(alloc, &settings, wanted, path, &mut file),
            Err(trouble) => Err(trouble),
        },
    }
}

/// What is done to the text that a reader has. `name` is what messages call it.
fn done_from<'w, A: Allocator + Copy, I: Read>(
    alloc: A,
    settings: &Settings,
    wanted: Assembled<'w>,
    name: &'w str,
    reader: &mut I,
) -> Result<Answer<A>, Trouble<'w>>
    ensures { IsDone (wanted_of wanted.entry) settings.now result (I.remaining reader.old) (I.remaining reader.new) }
{
    let source = match text_from(alloc, name, reader) {
        Ok(source) => source,
        Err(trouble) => return Err(trouble),
    };
    let text = match defined_text(alloc, wanted.define, source) {
        Ok(text) => text,
        Err(trouble) => return Err(trouble),
    };
    assembled(alloc, settings, wanted.listing, name, text.as_slice())
}

/// The load text of a source, or its refusal. `path` is what messages call the source.
fn assembled<'t, A: Allocator + Copy>(
    alloc: A,
    settings: &Settings,
    is_listed: bool,
    path: &str,
    text: &[u8],
) -> Result<Answer<A>, Trouble<'t>>
    ensures { MatchResult result (IsAssembled is_listed settings.now text.now)
        (λ trouble. trouble ≡ no_memory) }
{
    let (warrior, told) = assemble_told(alloc, text, settings);
    match warrior {
        Ok(warrior) => {
            let written = load_of(alloc, settings, is_listed, text, &warrior)?;
            Ok(Answer::done(alloc, written))
        }
        Err(fault) => refusal_told(alloc, RefusedSource { path, text, fault }, told),
    }
}

/// The load text of the warrior that a source gives, or its listing.
fn load_of<A: Allocator + Copy>(
    alloc: A,
    settings: &Settings,
    is_listed: bool,
    source: &[u8],
    warrior: &Warrior<A>,
) -> Result<Vec<u8, A>, AllocError>
    requires { All (HasNumbersBelow settings.now.core) warrior.now.code }
    ensures { IfOk result (λ text. SaysLoad is_listed settings.now source.now warrior.now text.items) }
{
    if is_listed {
        listing(alloc, source, settings, warrior)
    } else {
        load_text(alloc, warrior, settings.core())
    }
}
