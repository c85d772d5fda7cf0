//! What several commands take: the options that give settings, and others.

ghost use Rattle.std.specs.Prelude.{IfOk};
ghost use Rattle.clap.specs.Words.{App};
ghost use Rattle.koth_options.specs.{Commands.IsReadAs, Options.{with_like, with_settings}};

use crate::arguments::Argument::{self, File, Flag, Lettered, Number, Ranged, Text};
use crate::building::{headed, with_arguments};
use clap::Command;
use std::alloc::{AllocError, Global};
use war_types::range_of;

/// Gives a macro the steps that the assembly of a source may take in a service, unless `--steps` is given. The help of
/// that option, the service and the note of `check` all take them from here.
#[macro_export]
macro_rules! default_steps {
    ($user:ident $($more:tt)*) => { $user!(25000 $($more)*) };
}

/// A help text with the range of a setting in it, or with a default.
macro_rules! help {
    ($before:literal; $setting:ident; $after:literal) => {
        range_of!($setting, help, $before, $after)
    };
    ($least:literal, $most:literal, $before:literal, $after:literal) => {
        concat!($before, $least, " to ", $most, $after)
    };
    ($default:literal, $before:literal) => {
        concat!($before, " [default: ", $default, "]")
    };
}

pub(crate) use help;

/// The option for what messages call the input.
pub(crate) const NAME: Argument = Text(
    "name",
    "NAME",
    "What messages call standard input, if - is a source",
);

/// The option for another body of the `EQU` lines of a name.
pub(crate) const DEFINE: Argument = Text(
    "define",
    "NAME=VALUE",
    "Read each EQU line of NAME as if its body were VALUE",
);

/// The option for the format of the output, and the flags for how it is laid out.
pub(crate) const FORMAT: Argument = Text(
    "format",
    "FORM",
    "Format of the output, text or json [default: text]",
);

pub(crate) const PLAIN: Argument = Flag("plain", "Write lines for programs; not with --table");

pub(crate) const TABLE: Argument = Flag("table", "Write a table for people; not with --plain");

/// The file of a hill, and of a warrior.
pub(crate) const HILL_FILE: Argument = File("FILE", "Hill file");

pub(crate) const KEPT_FILE: Argument = File("FILE", "Hill file, which stays as it is");

pub(crate) const WARRIOR: Argument = File(
    "SOURCE",
    "File of the warrior's source; - is standard input",
);

/// The option for how long another program may have the lock of a hill.
pub(crate) const WAIT: Argument = Ranged(
    "wait",
    1,
    3600,
    "Seconds to wait if another program has the hill's lock, 1 to 3600 [default: none]",
);

/// The options for a hill elsewhere, and for how long its service may be silent.
pub(crate) const TO: Argument = Text(
    "to",
    "ADDRESS:PORT",
    "Hill that is served there: a number or a name, IPv6 in brackets; FILE is left out",
);

pub(crate) const TIMEOUT: Argument = Ranged(
    "timeout",
    1,
    86400,
    "Seconds for which the service may be silent, 1 to 86400, with --to [default: 600]",
);

/// The option for the steps that the assembly of a source may take in a session.
pub(crate) const STEPS: Argument = Number(
    "steps",
    default_steps!(
        help,
        "Steps that the assembly of a source may take, 0 to 4294967295"
    ),
);

/// The option for a hill that has the settings.
const LIKE: [Argument; 1] = [Text(
    "like",
    "FILE",
    "Take the settings of the hill in this file, its seed too; further options replace them; not with --preset",
)];

/// The options for a preset, and for the settings of a match.
const MATCH: [Argument; 9] = [
    Text(
        "preset",
        "NAME",
        "Settings of a known hill; further options replace them: 94nop, tiny or nano [default: 94nop]",
    ),
    Lettered(
        "core",
        's',
        help!("Cells of the core, "; core; " [default: 8000]"),
    ),
    Lettered(
        "processes",
        'p',
        help!("Most processes of each side, "; processes; " [default: 8000]"),
    ),
    Lettered(
        "length",
        'l',
        help!("Most instructions of a warrior, "; length; " [default: 100]"),
    ),
    Lettered(
        "distance",
        'd',
        "Minimum distance between warriors, from --length to half of --core [default: 100]",
    ),
    Lettered(
        "cycles",
        'c',
        help!("Turns of each side in a round, "; cycles; " [default: 80000]"),
    ),
    Lettered(
        "rounds",
        'r',
        help!("Rounds of a match, "; rounds; " [default: 10]"),
    ),
    Number(
        "read-limit",
        "Cells within which an operand reads, a divisor of --core; 0 is all of it [default: 0]",
    ),
    Number(
        "write-limit",
        "Cells within which an operand writes, a divisor of --core; 0 is all of it [default: 0]",
    ),
];

/// The options for the settings of a hill.
const HILL: [Argument; 2] = [
    Number(
        "seed",
        help!("Seed of the positions, "; seed; "; give each hill its own, 1 is known to all [default: 1; for serve, one that is drawn]"),
    ),
    Number(
        "capacity",
        help!("Most warriors on the hill, "; capacity; " [default: 20]"),
    ),
];

/// The command with an option for a hill that has the settings, and those of `with_settings`.
pub(crate) fn with_like<'a>(
    heap: Global,
    command: Result<Command<'a>, AllocError>,
) -> Result<Command<'a>, AllocError>
    ensures { (app : App) → IfOk command.entry (IsReadAs app) → IfOk result (IsReadAs (with_like app)) }
{
    let command = with_arguments(heap, headed(command, "Match"), &LIKE);
    with_settings(heap, command)
}

/// The command with an option for a preset, and one for each of the ten settings, which takes a whole number of 32
/// bits.
pub(crate) fn with_settings<'a>(
    heap: Global,
    command: Result<Command<'a>, AllocError>,
) -> Result<Command<'a>, AllocError>
    ensures { (app : App) → IfOk command.entry (IsReadAs app) → IfOk result (IsReadAs (with_settings app)) }
{
    let command = with_arguments(heap, headed(command, "Match"), &MATCH);
    with_arguments(heap, headed(command, "Hill"), &HILL)
}
