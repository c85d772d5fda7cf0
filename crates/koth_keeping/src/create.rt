//! The command `create`: a hill without warriors in a file.

ghost use Rattle.koth_keeping.specs.{Answers.Answers, Created.{MayCreate, MayMake, SaysCreated}};

use crate::answer::answer_of;
use crate::seed::{new_seed, seed_hint};
use hill_file::{Existing, TryLock};
use koth_commands::trouble::Trouble;
use koth_commands::{Answer, Status};
use koth_files::create_hill;
use koth_words::Creation;
use std::alloc::Allocator;
use std::random::RandomSource;
use std::rt::Files;
use war_types::{RawSettings, Settings};

/// Creates the hill in a new file, just large enough for it, that only its owner may read and write, and puts that in
/// its place when it is whole. Settings that are out of their ranges are refused before that. A link that is there, and
/// a file that holds anything but zeros or is of another owner, is refused as `Occupied` and stays as it is, unless the
/// arguments say that it is to be overwritten. The note says what the default seed means. A seed that is drawn, if they
/// say so, is written nowhere but in the file.
pub fn perform_create<'c, R: Files + RandomSource, A: Allocator + Copy>(
    rt: &R,
    alloc: A,
    given: RawSettings,
    creation: Creation<'c>,
) -> Result<Answer<A>, Trouble<'c>>
where
    R::File: TryLock,
    ensures { MayCreate creation.entry.draw_seed given result }
{
    if !creation.draw_seed {
        return create_by(rt, alloc, given, seed_hint(given.seed), creation);
    }
    match new_seed(rt) {
        Ok(seed) => create_by(rt, alloc, RawSettings { seed, ..given }, "", creation),
        Err(trouble) => Err(trouble),
    }
}

/// The same under these settings, and with this hint.
fn create_by<'c, R: Files, A: Allocator + Copy>(
    rt: &R,
    alloc: A,
    given: RawSettings,
    hint: &str,
    creation: Creation<'c>,
) -> Result<Answer<A>, Trouble<'c>>
where
    R::File: TryLock,
    ensures { MayMake hint.now given result }
{
    match Settings::new(given) {
        Ok(settings) => create_under(rt, alloc, settings, hint, creation),
        Err(fault) => Err(Trouble::settings(given, fault)),
    }
}

fn create_under<'c, R: Files, A: Allocator + Copy>(
    rt: &R,
    alloc: A,
    settings: Settings,
    hint: &str,
    creation: Creation<'c>,
) -> Result<Answer<A>, Trouble<'c>>
where
    R::File: TryLock,
    ensures { Answers (SaysCreated hint.now) result }
{
    let existing = if creation.overwrite {
        Existing::Overwritten
    } else {
        Existing::Kept
    };
    let answer = answer_of(alloc, Status::Done, b"CREATED\n", hint.as_bytes())?;
    match create_hill(rt, alloc, settings, creation.hill, existing) {
        Ok(()) => Ok(answer),
        Err(trouble) => Err(trouble),
    }
}
