//! The settings under which a command is carried out.

ghost use Rattle.std.specs.Prelude.{◌≡◌, true, IfErr, IfOk, is_some};
ghost use Rattle.{koth_files.specs.Trouble.IsOfHill, koth_server.specs.Settled.{AreGiven, AreSettled, names_hill}};

use koth_commands::trouble::Trouble;
use koth_files::look_hill;
use koth_words::{DEFAULTS, Given};
use std::alloc::Allocator;
use std::rt::Files;
use war_types::RawSettings;

/// The settings that a request gives; the default ones if it gives none. If it names a hill, that is looked at, and
/// nothing is written to it.
pub(crate) fn settled<'g, R: Files, A: Allocator + Copy>(
    rt: &'g R,
    alloc: A,
    given: Option<Given<'g>>,
) -> Result<RawSettings, Trouble<'g>>
    ensures settled { IfOk result (AreSettled given.entry) }
    ensures unreadable { IfErr result (λ trouble. (names_hill given.entry ≡ true) × IsOfHill trouble) }
{
    match given {
        Some(given) => settings_of(rt, alloc, given),
        None => Ok(DEFAULTS),
    }
}

fn settings_of<'g, R: Files, A: Allocator + Copy>(
    rt: &'g R,
    alloc: A,
    given: Given<'g>,
) -> Result<RawSettings, Trouble<'g>>
    ensures settled { IfOk result (AreGiven (is_some given.entry.like) given.entry.base given.entry.chosen) }
    ensures unreadable { IfErr result (λ trouble. (is_some given.entry.like ≡ true) × IsOfHill trouble) }
{
    match given.like {
        Some(path) => match look_hill(rt, alloc, path) {
            Ok(store) => Ok(given.settings_like(store.hill().settings())),
            Err(trouble) => Err(trouble),
        },
        None => Ok(given.settings()),
    }
}
