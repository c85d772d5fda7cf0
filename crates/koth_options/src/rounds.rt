//! The commands that show a round of a match.

use crate::arguments::Argument::{self, Defaulted, File, Flag, Page, Ranged};
use crate::building::{Row, Takes};
use crate::options::{DEFINE, NAME, help};
use war_types::range_of;

/// An option with a number that is in the range of a setting.
macro_rules! ranged {
    ($least:literal, $most:literal, $name:literal, $help:expr) => { Ranged($name, $least, $most, $help) };
}

/// The files of both warriors.
const MINE: Argument = File("MINE", "File of the older warrior; - is standard input");

const OTHER: Argument = File("OTHER", "File of the younger warrior; - is standard input");

/// Which round of their match is shown.
const ROUND: Argument = range_of!(
    rounds,
    ranged,
    "round",
    help!("Round that is shown, "; rounds; " [default: 1]")
);

const LOST: Argument = Flag("lost", "Show the first round that MINE lost");

const WON: Argument = Flag("won", "Show the first round that MINE won");

const TIED: Argument = Flag("tied", "Show the first round that is a tie");

/// `replay`, which shows it in a browser.
pub(crate) const REPLAY: Row = Row {
    name: "replay",
    about: "Writes a page that shows one round of a match turn by turn",
    arguments: &[
        MINE,
        OTHER,
        NAME,
        DEFINE,
        Page("File for the page; needed if standard output is a terminal"),
        ROUND,
        LOST,
        WON,
        TIED,
    ],
    takes: Takes::Like,
};

/// `trace`, which writes its turns.
pub(crate) const TRACE: Row = Row {
    name: "trace",
    about: "Writes the turns of one round of a match, and what each changed",
    arguments: &[
        MINE,
        OTHER,
        NAME,
        DEFINE,
        ROUND,
        LOST,
        WON,
        TIED,
        Ranged(
            "last",
            1,
            4_294_967_295,
            "How many turns are written, the last ones of the round, 1 to 4294967295 [default: all]",
        ),
        Defaulted(
            "format",
            "FORM",
            "text",
            "Format of the output, text or json",
        ),
    ],
    takes: Takes::Like,
};
