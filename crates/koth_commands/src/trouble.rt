//! Why a command was not carried out, and what it was about.

ghost use Rattle.std.specs.Prelude.{◌≡◌};
ghost use Rattle.koth_commands.specs.Trouble.{fault_status, fault_word, no_memory};

use crate::cause::{Cause, Reason};
use crate::named::{definition_text, kind_text, tell_line};
use crate::settings::{range_text, round_range, settings_word, tell_range};
use crate::status::Status;
use crate::telling::{Apart, tell_text, tell_word};
use std::alloc::{AllocError, AllocFailed, Allocator};
use std::io::Write;
use war_types::{RawSettings, SettingsFault};

/// Why a command was not carried out. A fault has a word and a status, which programs know.
#[derive(Clone, Copy, PartialEq, Eq)]
pub enum Fault {
    /// A setting is out of its range.
    Settings(SettingsFault),
    /// The file has too few sectors for its hill.
    TooSmall,
    /// The file holds something already.
    Occupied,
    /// The file holds no hill.
    NotAHill,
    /// The file holds a hill of the old format, which `migrate` moves to a new file.
    OldHill,
    /// A warrior on the hill can't be read.
    Damaged,
    /// A hill has no warrior with an entry.
    NoEntry,
    /// The text of a definition is none.
    BadDefine,
    /// No line of a source defines the name of a definition.
    NoEqu,
    /// No kind of refusal or warning has a name.
    NoKind,
    /// A file, a device, a socket or a stream failed.
    Stream,
    /// Out of memory.
    Memory,
}

impl Fault {
    /// The word that programs know it by.
    pub fn word(self) -> &'static str
        ensures { result.now ≡ fault_word self }
    {
        match self {
            Fault::Settings(fault) => settings_word(fault),
            Fault::TooSmall => "TooSmall",
            Fault::Occupied => "Occupied",
            Fault::NotAHill | Fault::OldHill => "NotAHill",
            Fault::Damaged => "Damaged",
            Fault::NoEntry => "NoEntry",
            Fault::BadDefine => "BadDefine",
            Fault::NoEqu => "NoEqu",
            Fault::NoKind => "NoKind",
            Fault::Stream => "DISK",
            Fault::Memory => "MEMORY",
        }
    }

    /// How the program ends with it.
    pub fn status(self) -> Status
        ensures { result ≡ fault_status self }
    {
        match self {
            Fault::Stream => Status::StreamFault,
            Fault::Memory => Status::NoMemory,
            _ => Status::Refused,
        }
    }
}

/// What people read besides the word of a fault.
#[derive(Clone, Copy)]
pub enum About<'t> {
    Nothing,
    /// What failed, and why.
    Cause(Cause<'t>),
    /// The settings, of which one is out of its range.
    Given(RawSettings),
    /// A round that a match of `rounds` rounds doesn't have. Rounds are counted from 1.
    Round { rounds: u32, round: u32 },
    /// A definition, as it is given.
    Definition(&'t str),
    /// The name of a kind.
    Kind(&'t str),
}

/// Why a command was not carried out, and what it was about.
#[derive(Clone, Copy)]
pub struct Trouble<'t> {
    pub fault: Fault,
    pub about: About<'t>,
}

impl<'t> Trouble<'t> {
    ghost use Rattle.std.specs.Prelude.{Some};
    ghost use Rattle.koth_commands.specs.{Cause.{cause_told, reason_told}, Name.shown_name, Trouble.{about_told, Tells, TellsAbout}};

    /// This fault, with what failed and why.
    pub fn of(fault: Fault, cause: Cause<'t>) -> Trouble<'t>
        ensures fault { result.fault ≡ fault }
        ensures cause { about_told result.about ≡ Some (cause_told cause.entry) }
    {
        Trouble {
            fault,
            about: About::Cause(cause),
        }
    }

    /// A stream or a port that failed.
    pub fn stream(cause: Cause<'t>) -> Trouble<'t>
        ensures fault { result.fault ≡ Fault.Stream }
        ensures cause { about_told result.about ≡ Some (cause_told cause.entry) }
    {
        Trouble::of(Fault::Stream, cause)
    }

    /// A file that failed for this reason.
    pub fn file(path: &'t str, reason: Reason) -> Trouble<'t>
        ensures fault { result.fault ≡ Fault.Stream }
        ensures cause { about_told result.about ≡ Some (reason_told (shown_name path.now) reason) }
    {
        Trouble::stream(Cause::file(path, reason))
    }

    /// A setting that is out of its range.
    pub fn settings(given: RawSettings, fault: SettingsFault) -> Trouble<'t>
        ensures { result.fault ≡ Fault.Settings fault }
    {
        Trouble {
            fault: Fault::Settings(fault),
            about: About::Given(given),
        }
    }

    /// A round, counted from 1, that a match of `rounds` rounds doesn't have.
    pub fn round(rounds: u32, round: u32) -> Trouble<'t>
        ensures { result.fault ≡ Fault.Settings SettingsFault.Rounds }
    {
        Trouble {
            fault: Fault::Settings(SettingsFault::Rounds),
            about: About::Round { rounds, round },
        }
    }

    /// A definition that is none, or whose name no line defines.
    pub fn definition(fault: Fault, words: &'t str) -> Trouble<'t>
        ensures { result.fault ≡ fault }
    {
        Trouble {
            fault,
            about: About::Definition(words),
        }
    }

    /// No kind has this name.
    pub fn kind(name: &'t str) -> Trouble<'t>
        ensures { result.fault ≡ Fault.NoKind }
    {
        Trouble {
            fault: Fault::NoKind,
            about: About::Kind(name),
        }
    }

    /// Memory ran out.
    pub fn memory() -> Trouble<'t>
        ensures { result ≡ no_memory }
    {
        Trouble {
            fault: Fault::Memory,
            about: About::Nothing,
        }
    }

    /// Writes the fault's word and after it what it was about, and says how the program ends. If that can't be written,
    /// the status alone shows it.
    pub fn tell<A: Allocator, E: Write>(self, alloc: A, errors: &mut E) -> Status
        ensures { Tells self.entry result (E.contents errors.old) (E.contents errors.new) }
    {
        self.tell_about(alloc, self.fault.word(), errors);
        self.fault.status()
    }

    /// Writes a word, and after it what the trouble was about.
    fn tell_about<A: Allocator, E: Write>(self, alloc: A, word: &str, errors: &mut E)
        ensures { TellsAbout word.now self.entry.about (E.contents errors.old) (E.contents errors.new) }
    {
        match self.about {
            About::Nothing => tell_text(word, Apart::Line, b"", errors),
            About::Cause(cause) => tell_word(alloc, word, Some(cause), errors),
            About::Given(given) => tell_range(word, range_of(alloc, given, self.fault), errors),
            About::Round { rounds, round } => {
                tell_range(word, round_range(alloc, rounds, round), errors)
            }
            About::Definition(words) => {
                tell_line(word, definition_text(alloc, self.fault, words), errors)
            }
            About::Kind(name) => tell_line(word, kind_text(alloc, name), errors),
        }
    }
}

/// The range of the setting that is refused.
fn range_of<A: Allocator>(
    alloc: A,
    given: RawSettings,
    fault: Fault,
) -> Result<String<A>, AllocError> {
    match fault {
        Fault::Settings(fault) => range_text(alloc, given, fault),
        _ => Ok(String::new(alloc)),
    }
}

impl From<AllocError> for Trouble<'_> {
    ghost from_gives = { λ _ trouble. trouble ≡ no_memory };

    fn from(_error: AllocError) -> Self {
        Trouble::memory()
    }
}

impl<T: Drop> From<AllocFailed<T>> for Trouble<'_> {
    ghost from_gives = { λ _ trouble. trouble ≡ no_memory };

    fn from(_error: AllocFailed<T>) -> Self {
        Trouble::memory()
    }
}
