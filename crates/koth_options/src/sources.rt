//! The commands that read sources and play no match.

use crate::arguments::Argument::{Flag, SourceOrInput, Sources, Spare, Text};
use crate::building::{Row, Takes};
use crate::options::{DEFINE, FORMAT, NAME};

/// `asm`, which assembles a source.
pub(crate) const ASM: Row = Row {
    name: "asm",
    about: "Assembles a source, and writes its load text",
    arguments: &[
        SourceOrInput,
        NAME,
        DEFINE,
        Flag(
            "listing",
            "Write after each instruction, as a comment, its address, line, copy and labels",
        ),
    ],
    takes: Takes::Like,
};

/// `check`, which reports what is wrong with sources.
pub(crate) const CHECK: Row = Row {
    name: "check",
    about: "Assembles sources, and reports what is wrong with them",
    arguments: &[
        Sources(
            "SOURCE",
            "Files of the sources, one or more; - is standard input",
        ),
        NAME,
        DEFINE,
        FORMAT,
        Flag(
            "warnings",
            "Report also what is taken, but looks like a mistake",
        ),
        Text(
            "deny",
            "WHAT",
            "Report warnings too, and end with status 1 at one [possible values: warnings]",
        ),
    ],
    takes: Takes::Like,
};

/// `explain`, which reads none.
pub(crate) const EXPLAIN: Row = Row {
    name: "explain",
    about: "Writes what a kind of refusal or warning means, with an example",
    arguments: &[Spare(
        "KIND",
        "Kind, as a refusal or a warning names it; if left out, all kinds are listed",
    )],
    takes: Takes::Nothing,
};
