//! The numbers that options have.

ghost use Rattle.std.specs.Prelude.{◌≡◌};
ghost use Rattle.{clap.specs.Words.{found_of, one_of, rows_of}, koth_words.specs.Options.{number_given, number_or}};

use clap::ArgMatches;
use war_types::RawSettings;

/// The settings if no option gives another one.
pub const DEFAULTS: RawSettings = RawSettings {
    core: 8000,
    cycles: 80_000,
    processes: 8000,
    length: 100,
    distance: 100,
    rounds: 10,
    seed: 1,
    capacity: 20,
    read_limit: 0,
    write_limit: 0,
};

/// The number that an option has, or the default if it is left out.
pub(crate) fn number_given(matches: &ArgMatches<'_>, name: &str, default: u32) -> u32
    ensures { result ≡ number_or default (one_of name.now (rows_of (found_of matches.now))) }
{
    number_if_given(matches, name).unwrap_or(default)
}

/// The number that an option has, if it is given.
pub(crate) fn number_if_given(matches: &ArgMatches<'_>, name: &str) -> Option<u32>
    ensures { result ≡ number_given 4294967296 (one_of name.now (rows_of (found_of matches.now))) }
{
    matches.get_one(name)
}
