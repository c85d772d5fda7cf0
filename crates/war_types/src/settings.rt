//! The settings of a hill or of a fight.

ghost use Rattle.std.specs.Prelude.{◌≡◌, ◌*◌, ◌%◌, ◌≤◌, ◌&&◌, true, nat_le};
ghost use Rattle.war_types.specs.Settings.{AreSettings, is_from_to, is_limit, limit_of, settings_of};

use std::marker::Model;
use thiserror::Error;

/// Gives a macro the least and the greatest number of a setting: `range_of!(core, is_in, n)` is `is_in!(64, 65535, n)`. The check of settings, the
/// help of options and the text of a refusal all take them from here.
#[macro_export]
macro_rules! range_of {
    (core, $user:ident $($more:tt)*) => { $user!(64, 65535 $($more)*) };
    (cycles, $user:ident $($more:tt)*) => { $user!(1, 1000000 $($more)*) };
    (processes, $user:ident $($more:tt)*) => { $user!(1, 65535 $($more)*) };
    (length, $user:ident $($more:tt)*) => { $user!(1, 200 $($more)*) };
    (rounds, $user:ident $($more:tt)*) => { $user!(1, 1000 $($more)*) };
    (seed, $user:ident $($more:tt)*) => { $user!(1, 2147483646 $($more)*) };
    (capacity, $user:ident $($more:tt)*) => { $user!(1, 20 $($more)*) };
}

/// Whether a number is within these.
macro_rules! is_in {
    ($least:literal, $most:literal, $number:expr) => { is_from_to($least, $most, $number) };
}

/// Ten numbers that nobody has checked yet.
#[derive(Clone, Copy, Debug, PartialEq, Eq)]
pub struct RawSettings {
    /// Cells of the core, 64 to 65,535.
    pub core: u32,
    /// Turns that each side has in a round, 1 to 1,000,000.
    pub cycles: u32,
    /// Processes that a side may have at once, 1 to 65,535.
    pub processes: u32,
    /// Instructions that a warrior may have, 1 to 200.
    pub length: u32,
    /// Cells from the beginning of one warrior to that of the other, at least: from the length to half the core.
    pub distance: u32,
    /// Rounds of a match, 1 to 1,000.
    pub rounds: u32,
    /// Where the sequence of positions begins, 1 to 2,147,483,646.
    pub seed: u32,
    /// Warriors that the hill holds, 1 to 20.
    pub capacity: u32,
    /// Cells within which an operand reads, around its instruction: a divisor of the core, or 0 for the whole core.
    pub read_limit: u32,
    /// Cells within which an operand writes, as with reading.
    pub write_limit: u32,
}

/// The first field of settings that is out of its range.
#[derive(Clone, Copy, Debug, PartialEq, Eq, Error)]
pub enum SettingsFault {
    #[error("Core")]
    Core,
    #[error("Cycles")]
    Cycles,
    #[error("Processes")]
    Processes,
    #[error("Length")]
    Length,
    #[error("Distance")]
    Distance,
    #[error("Rounds")]
    Rounds,
    #[error("Seed")]
    Seed,
    #[error("Capacity")]
    Capacity,
    #[error("ReadLimit")]
    ReadLimit,
    #[error("WriteLimit")]
    WriteLimit,
}

/// Settings with every field in its range. A limit is 1 to the core's cells here, never 0.
#[derive(Clone, Copy, Debug)]
pub struct Settings {
    raw: RawSettings,
}

impl Model for Settings {
    ghost use Rattle.war_types.specs.declared.settings.RawSettings.{RawSettings};

    ghost Value = { RawSettings };

    ghost use Rattle.war_types.specs.Settings.{AreSettings};

    ghost view = { λ s. s.raw };

    ghost invariant = { λ s. AreSettings s.raw };

    ghost inverse = { λ raw. record { raw = raw } };
}

impl Settings {
    /// Checks the fields in the order of `RawSettings`, and names the first that is out of its range.
    pub fn new(raw: RawSettings) -> Result<Settings, SettingsFault>
        ensures { result ≡ settings_of raw }
    {
        if !range_of!(core, is_in, raw.core) {
            return Err(SettingsFault::Core);
        }
        if !range_of!(cycles, is_in, raw.cycles) {
            return Err(SettingsFault::Cycles);
        }
        if !range_of!(processes, is_in, raw.processes) {
            return Err(SettingsFault::Processes);
        }
        if !range_of!(length, is_in, raw.length) {
            return Err(SettingsFault::Length);
        }
        if !is_distance(raw.distance, raw.length, raw.core) {
            return Err(SettingsFault::Distance);
        }
        if !range_of!(rounds, is_in, raw.rounds) {
            return Err(SettingsFault::Rounds);
        }
        if !range_of!(seed, is_in, raw.seed) {
            return Err(SettingsFault::Seed);
        }
        if !range_of!(capacity, is_in, raw.capacity) {
            return Err(SettingsFault::Capacity);
        }
        if !is_limit(raw.core, raw.read_limit) {
            return Err(SettingsFault::ReadLimit);
        }
        if !is_limit(raw.core, raw.write_limit) {
            return Err(SettingsFault::WriteLimit);
        }
        Ok(Settings {
            raw: RawSettings {
                read_limit: limit_of(raw.core, raw.read_limit),
                write_limit: limit_of(raw.core, raw.write_limit),
                ..raw
            },
        })
    }

    /// Cells of the core, 64 to 65,535.
    pub fn core(&self) -> u16
        ensures value { result ≡ self.now.core }
        ensures settings { AreSettings self.now }
    {
        self.raw.core as u16
    }

    /// Turns that each side has in a round, 1 to 1,000,000.
    pub fn cycles(&self) -> u32
        ensures value { result ≡ self.now.cycles }
        ensures settings { AreSettings self.now }
    {
        self.raw.cycles
    }

    /// Processes that a side may have at once, 1 to 65,535.
    pub fn processes(&self) -> u16
        ensures value { result ≡ self.now.processes }
        ensures settings { AreSettings self.now }
    {
        self.raw.processes as u16
    }

    /// Instructions that a warrior may have, 1 to 200.
    pub fn length(&self) -> u16
        ensures value { result ≡ self.now.length }
        ensures settings { AreSettings self.now }
    {
        self.raw.length as u16
    }

    /// Cells from the beginning of one warrior to that of the other, at least.
    pub fn distance(&self) -> u16
        ensures value { result ≡ self.now.distance }
        ensures settings { AreSettings self.now }
    {
        self.raw.distance as u16
    }

    /// Rounds of a match, 1 to 1,000.
    pub fn rounds(&self) -> u16
        ensures value { result ≡ self.now.rounds }
        ensures settings { AreSettings self.now }
    {
        self.raw.rounds as u16
    }

    /// Where the sequence of positions begins, 1 to 2,147,483,646.
    pub fn seed(&self) -> u32
        ensures value { result ≡ self.now.seed }
        ensures settings { AreSettings self.now }
    {
        self.raw.seed
    }

    /// Warriors that the hill holds, 1 to 20.
    pub fn capacity(&self) -> u16
        ensures value { result ≡ self.now.capacity }
        ensures settings { AreSettings self.now }
    {
        self.raw.capacity as u16
    }

    /// Cells within which an operand reads: a divisor of the core, at most the core.
    pub fn read_limit(&self) -> u16
        ensures value { result ≡ self.now.read_limit }
        ensures settings { AreSettings self.now }
    {
        self.raw.read_limit as u16
    }

    /// Cells within which an operand writes: a divisor of the core, at most the core.
    pub fn write_limit(&self) -> u16
        ensures value { result ≡ self.now.write_limit }
        ensures settings { AreSettings self.now }
    {
        self.raw.write_limit as u16
    }
}

fn is_from_to(low: u32, high: u32, number: u32) -> bool
    ensures { result ≡ is_from_to low high number }
{
    (low..=high).contains(&number)
}

fn is_distance(distance: u32, length: u32, core: u32) -> bool
    ensures { result ≡ (nat_le length distance && nat_le (2 * distance) core) }
{
    length <= distance && distance <= core / 2
}

/// Whether a limit divides the core, or is 0, which stands for the whole core.
fn is_limit(core: u32, limit: u32) -> bool
    ensures { result ≡ is_limit core limit }
{
    limit == 0 || core % limit == 0
}

/// The limit that a number stands for.
fn limit_of(core: u32, limit: u32) -> u32
    requires some { 1 ≤ core }
    requires limit { is_limit core limit ≡ true }
    ensures value { result ≡ limit_of core limit }
    ensures least { 1 ≤ result }
    ensures divides { core % result ≡ 0 }
{
    if limit == 0 { core } else { limit }
}
