//! The command `reseed`: a hill like another one with another seed, in a new file.

ghost use Rattle.koth_keeping.specs.Copies.{MayReseed};

use crate::answer::copied;
use crate::reseeding::reseeded;
use crate::seed::new_seed;
use hill_file::TryLock;
use koth_commands::trouble::Trouble;
use koth_commands::Answer;
use koth_files::look_hill;
use koth_hill::Hill;
use koth_words::{Reseeded, given_as};
use std::alloc::Allocator;
use std::random::RandomSource;
use std::rt::Files;
use war_types::{RawSettings, Settings};

/// Makes a hill with the settings of the one in a file, but with another seed: the one that the arguments give, or one
/// that is drawn. The warriors of the one in the file are submitted to it, in the order of their entries, and it is
/// written to a new file as `copy` does. That hill is only read, and its lock is not taken.
pub fn perform_reseed<'r, R: Files + RandomSource, A: Allocator + Copy>(
    rt: &R,
    alloc: A,
    files: Reseeded<'r>,
) -> Result<Answer<A>, Trouble<'r>>
where
    R::File: TryLock,
    ensures { MayReseed result }
{
    match look_hill(rt, alloc, files.hill) {
        Ok(store) => reseed_seen(rt, alloc, store.hill(), files),
        Err(trouble) => Err(trouble),
    }
}

fn reseed_seen<'r, R: Files + RandomSource, A: Allocator + Copy>(
    rt: &R,
    alloc: A,
    hill: &Hill<A>,
    files: Reseeded<'r>,
) -> Result<Answer<A>, Trouble<'r>>
where
    R::File: TryLock,
    ensures { MayReseed result }
{
    let seed = match files.seed {
        Some(seed) => seed,
        None => new_seed(rt)?,
    };
    let given = RawSettings {
        seed,
        ..given_as(hill.settings())
    };
    match Settings::new(given) {
        Ok(settings) => reseed_under(rt, alloc, hill, settings, files.new),
        Err(fault) => Err(Trouble::settings(given, fault)),
    }
}

/// The same with these settings.
fn reseed_under<'n, R: Files, A: Allocator + Copy>(
    rt: &R,
    alloc: A,
    hill: &Hill<A>,
    settings: Settings,
    new: &'n str,
) -> Result<Answer<A>, Trouble<'n>>
where
    R::File: TryLock,
    ensures { MayReseed result }
{
    let store = reseeded(alloc, hill, settings)?;
    copied(rt, alloc, &store, new, b"RESEEDED\n")
}
