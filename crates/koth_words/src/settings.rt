//! The settings that a command's words give.

ghost use Rattle.std.specs.Prelude.{◌≡◌, Ok, codes};
ghost use Rattle.{clap.specs.Words.{first_of, found_of, rows_of}, war_types.specs.Settings.settings_of};
ghost use Rattle.koth_words.specs.Settings.{IsGiven, base_in, chosen_in, given_as, limit_given, over, settings_in};

use crate::given::text_given;
use crate::options::{DEFAULTS, number_if_given};
use clap::ArgMatches;
use war_types::{RawSettings, Settings};

/// The settings of the preset `tiny`.
const TINY: RawSettings = RawSettings {
    core: 800,
    cycles: 8000,
    processes: 800,
    length: 20,
    distance: 20,
    ..DEFAULTS
};

/// The settings of the preset `nano`.
const NANO: RawSettings = RawSettings {
    core: 80,
    cycles: 800,
    processes: 80,
    length: 5,
    distance: 5,
    ..DEFAULTS
};

/// What options give of settings, each if its option is given.
#[derive(Clone, Copy)]
pub struct Chosen {
    pub core: Option<u32>,
    pub cycles: Option<u32>,
    pub processes: Option<u32>,
    pub length: Option<u32>,
    pub distance: Option<u32>,
    pub rounds: Option<u32>,
    pub seed: Option<u32>,
    pub capacity: Option<u32>,
    pub read_limit: Option<u32>,
    pub write_limit: Option<u32>,
}

impl Chosen {
    /// These settings, with what options give in place of theirs.
    fn over(&self, base: RawSettings) -> RawSettings
        ensures { result ≡ over base self.now }
    {
        RawSettings {
            core: self.core.unwrap_or(base.core),
            cycles: self.cycles.unwrap_or(base.cycles),
            processes: self.processes.unwrap_or(base.processes),
            length: self.length.unwrap_or(base.length),
            distance: self.distance.unwrap_or(base.distance),
            rounds: self.rounds.unwrap_or(base.rounds),
            seed: self.seed.unwrap_or(base.seed),
            capacity: self.capacity.unwrap_or(base.capacity),
            read_limit: self.read_limit.unwrap_or(base.read_limit),
            write_limit: self.write_limit.unwrap_or(base.write_limit),
        }
    }
}

/// The settings that words give.
#[derive(Clone, Copy)]
pub struct Given<'w> {
    /// The file of the hill that has them, if one is named.
    pub like: Option<&'w str>,
    /// Those of the preset, or the default ones, unless a hill has them.
    pub base: RawSettings,
    /// What is in place of theirs.
    pub chosen: Chosen,
}

impl<'w> Given<'w> {
    /// The settings if no hill is named.
    pub fn settings(&self) -> RawSettings
        ensures { result ≡ over self.now.base self.now.chosen }
    {
        self.chosen.over(self.base)
    }

    /// The settings if the hill that is named has these.
    pub fn settings_like(&self, hill: &Settings) -> RawSettings
        ensures { result ≡ over (given_as hill.now) self.now.chosen }
    {
        self.chosen.over(given_as(hill))
    }
}

/// Settings as one gives them: a limit of the core's size is 0. Anyone who gives these has the same settings.
pub fn given_as(settings: &Settings) -> RawSettings
    ensures value { result ≡ given_as settings.now }
    ensures back { settings_of result ≡ Ok settings.now }
{
    let core = u32::from(settings.core());
    RawSettings {
        core,
        cycles: settings.cycles(),
        processes: u32::from(settings.processes()),
        length: u32::from(settings.length()),
        distance: u32::from(settings.distance()),
        rounds: u32::from(settings.rounds()),
        seed: settings.seed(),
        capacity: u32::from(settings.capacity()),
        read_limit: limit_given(core, u32::from(settings.read_limit())),
        write_limit: limit_given(core, u32::from(settings.write_limit())),
    }
}

fn limit_given(core: u32, limit: u32) -> u32
    ensures { result ≡ limit_given core limit }
{
    if limit == core { 0 } else { limit }
}

/// The settings that a command's words give.
pub(crate) fn given_named<'w>(matches: &ArgMatches<'w>) -> Given<'w>
    ensures { IsGiven (rows_of (found_of matches.now)) result }
{
    Given {
        like: text_given(matches, "like"),
        base: base_given(matches),
        chosen: chosen_given(matches),
    }
}

/// The settings that a command's words give, if they name no hill.
pub(crate) fn settings_given(matches: &ArgMatches<'_>) -> RawSettings
    ensures { result ≡ settings_in (rows_of (found_of matches.now)) }
{
    chosen_given(matches).over(base_given(matches))
}

/// The settings of the preset that is named, and else the default ones.
fn base_given(matches: &ArgMatches<'_>) -> RawSettings
    ensures { result ≡ base_in (rows_of (found_of matches.now)) }
{
    match text_given(matches, "preset") {
        Some("tiny") => TINY,
        Some("nano") => NANO,
        _ => DEFAULTS,
    }
}

fn chosen_given(matches: &ArgMatches<'_>) -> Chosen
    ensures { result ≡ chosen_in (rows_of (found_of matches.now)) }
{
    Chosen {
        core: number_if_given(matches, "core"),
        cycles: number_if_given(matches, "cycles"),
        processes: number_if_given(matches, "processes"),
        length: number_if_given(matches, "length"),
        distance: number_if_given(matches, "distance"),
        rounds: number_if_given(matches, "rounds"),
        seed: number_if_given(matches, "seed"),
        capacity: number_if_given(matches, "capacity"),
        read_limit: number_if_given(matches, "read-limit"),
        write_limit: number_if_given(matches, "write-limit"),
    }
}
