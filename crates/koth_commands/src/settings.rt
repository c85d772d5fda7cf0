//! What is reported about settings that are refused, and of a round that a match doesn't have.

ghost use Rattle.std.specs.Prelude.{◌≡◌};
ghost use Rattle.koth_commands.specs.{Trouble.settings_word, Told.TellsWord};

use crate::status::Status;
use crate::telling::{Apart, tell_text};
use koth_words::DEFAULTS;
use std::alloc::{AllocError, Allocator};
use std::io::Write;
use war_types::{RawSettings, SettingsFault, range_of};

/// Reports which setting is refused, its value and its range. If that can't be written, only the status shows it.
pub fn refuse_settings<A: Allocator, E: Write>(
    alloc: A,
    given: RawSettings,
    fault: SettingsFault,
    errors: &mut E,
) -> Status
    ensures status { result ≡ Status.Refused }
    ensures told { TellsWord (settings_word fault) (E.contents errors.old) (E.contents errors.new) }
{
    tell_range(
        settings_word(fault),
        range_text(alloc, given, fault),
        errors,
    );
    Status::Refused
}

/// A round that a match doesn't have, and its range.
pub(crate) fn round_range<A: Allocator>(
    alloc: A,
    rounds: u32,
    round: u32,
) -> Result<String<A>, AllocError> {
    format!(in alloc;
        "--round is {}, and must be 1 to --rounds {}\n",
        round, rounds
    )
}

/// Writes the word of what is refused, followed by its range if there was memory for that.
pub(crate) fn tell_range<A: Allocator, E: Write>(
    word: &str,
    range: Result<String<A>, AllocError>,
    errors: &mut E,
)
    ensures { TellsWord word.now (E.contents errors.old) (E.contents errors.new) }
{
    match range {
        Ok(text) => tell_text(word, Apart::Colon, text.as_bytes(), errors),
        Err(AllocError) => tell_text(word, Apart::Line, b"", errors),
    }
}

/// The word of the setting that is refused.
pub(crate) fn settings_word(fault: SettingsFault) -> &'static str
    ensures { result.now ≡ settings_word fault }
{
    match fault {
        SettingsFault::Core => "BadSettings Core",
        SettingsFault::Cycles => "BadSettings Cycles",
        SettingsFault::Processes => "BadSettings Processes",
        SettingsFault::Length => "BadSettings Length",
        SettingsFault::Distance => "BadSettings Distance",
        SettingsFault::Rounds => "BadSettings Rounds",
        SettingsFault::Seed => "BadSettings Seed",
        SettingsFault::Capacity => "BadSettings Capacity",
        SettingsFault::ReadLimit => "BadSettings ReadLimit",
        SettingsFault::WriteLimit => "BadSettings WriteLimit",
    }
}

/// The range of a setting as a text, and what is said after it, if anything is.
macro_rules! range {
    ($setting:ident $(, $more:literal)?) => {
        range_of!($setting, range $(, $more)?)
    };
    ($least:literal, $most:literal $(, $more:literal)?) => {
        concat!($least, " to ", $most $(, $more)?)
    };
}

/// The value of the setting that is refused, and its range.
pub(crate) fn range_text<A: Allocator>(
    alloc: A,
    given: RawSettings,
    fault: SettingsFault,
) -> Result<String<A>, AllocError> {
    match fault {
        SettingsFault::Core => between(alloc, "core", given.core, range!(core)),
        SettingsFault::Cycles => between(alloc, "cycles", given.cycles, range!(cycles)),
        SettingsFault::Processes => between(alloc, "processes", given.processes, range!(processes)),
        SettingsFault::Length => between(alloc, "length", given.length, range!(length)),
        SettingsFault::Distance => distance_text(alloc, given),
        SettingsFault::Rounds if given.rounds == 0 => {
            between(
                alloc,
                "rounds",
                0,
                range!(rounds, "; koth asm and koth check play none"),
            )
        }
        SettingsFault::Rounds => between(alloc, "rounds", given.rounds, range!(rounds)),
        SettingsFault::Seed => between(alloc, "seed", given.seed, range!(seed)),
        SettingsFault::Capacity => between(alloc, "capacity", given.capacity, range!(capacity)),
        SettingsFault::ReadLimit => limit_text(alloc, "read-limit", given.read_limit, given),
        SettingsFault::WriteLimit => limit_text(alloc, "write-limit", given.write_limit, given),
    }
}

fn between<A: Allocator>(
    alloc: A,
    name: &str,
    value: u32,
    range: &str,
) -> Result<String<A>, AllocError> {
    format!(in alloc; "--{} is {}, and must be {}\n", name, value, range)
}

/// The range of the distance depends on two other settings. A setting with its default value is marked as such.
fn distance_text<A: Allocator>(alloc: A, given: RawSettings) -> Result<String<A>, AllocError> {
    let distance = if_default(given.distance == DEFAULTS.distance);
    let length = if_default(given.length == DEFAULTS.length);
    let core = if_default(given.core == DEFAULTS.core);
    format!(in alloc;
        "--distance is {}{}, and must be --length {}{} to half of --core {}{}\n",
        given.distance, distance, given.length, length, given.core, core
    )
}

fn if_default(is_default: bool) -> &'static str {
    if is_default { " (its default)" } else { "" }
}

fn limit_text<A: Allocator>(
    alloc: A,
    name: &str,
    value: u32,
    given: RawSettings,
) -> Result<String<A>, AllocError> {
    format!(in alloc;
        "--{} is {}, and must be 0 or a divisor of --core {}\n",
        name, value, given.core
    )
}
