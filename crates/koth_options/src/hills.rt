//! The commands for a hill in a file, or one elsewhere.

use crate::arguments::Argument::{File, Flag, Number, Ranged, Spare};
use crate::building::{Row, Takes};
use crate::options::{
    DEFINE, FORMAT, KEPT_FILE, NAME, PLAIN, TABLE, TIMEOUT, TO, WAIT, WARRIOR, help,
};
use war_types::range_of;

/// `create`, which makes a hill.
pub(crate) const CREATE: Row = Row {
    name: "create",
    about: "Creates a hill without warriors in a file, and writes CREATED",
    arguments: &[
        File("FILE", "Hill file; created if missing"),
        Flag("overwrite", "Replace what is in the file"),
        Flag(
            "draw-seed",
            "Draw the seed at random, and never print it; not with --seed",
        ),
    ],
    takes: Takes::Like,
};

/// `submit`, for a hill in a file or elsewhere.
pub(crate) const SUBMIT: Row = Row {
    name: "submit",
    about: "Submits a warrior to a hill, and writes whether it is placed, falls or is refused",
    arguments: &[
        File(
            "FILE",
            "Hill file; with --to or --pipe the file of the warrior's source in its place",
        ),
        Spare(
            "SOURCE",
            "File of the warrior's source; - is standard input",
        ),
        WAIT,
        TO,
        TIMEOUT,
        Flag(
            "pipe",
            "Submit to the session that standard input and output lead to; FILE is left out",
        ),
        NAME,
        PLAIN,
        TABLE,
        FORMAT,
    ],
    takes: Takes::Like,
};

/// `show`, of a hill in a file or elsewhere.
pub(crate) const SHOW: Row = Row {
    name: "show",
    about: "Writes a hill's table: rank, entry, points, age, name and author of each warrior",
    arguments: &[
        Spare("FILE", "Hill file"),
        TO,
        TIMEOUT,
        Flag(
            "matches",
            "Write after the table how many rounds each warrior won against each other",
        ),
        Flag(
            "settings",
            "Write the hill's settings as options in place of the table; not with --matches",
        ),
        Flag("with-seed", "Write the seed too, with --settings"),
        Ranged(
            "entry",
            1,
            4_294_967_295,
            "Write the load text of the warrior with this entry in place of the table, 1 to 4294967295",
        ),
        PLAIN,
        TABLE,
        FORMAT,
    ],
    takes: Takes::Nothing,
};

/// `try`, which submits nothing.
pub(crate) const TRY: Row = Row {
    name: "try",
    about: "Writes what a submission of a warrior would be answered; nothing is submitted",
    arguments: &[KEPT_FILE, WARRIOR, NAME, DEFINE, PLAIN, TABLE, FORMAT],
    takes: Takes::Nothing,
};

/// `copy`, also of a hill that is served.
pub(crate) const COPY: Row = Row {
    name: "copy",
    about: "Copies a hill, which may be served meanwhile, to a new file, and writes COPIED",
    arguments: &[
        KEPT_FILE,
        File("NEW", "New hill file; nothing may have that name"),
        Flag(
            "audit",
            "Play the match of each pair again first, and copy nothing if a kept result is wrong",
        ),
    ],
    takes: Takes::Nothing,
};

/// `reseed`, which changes the seed.
pub(crate) const RESEED: Row = Row {
    name: "reseed",
    about: "Makes a new hill with another seed, submits the warriors of a hill to it, and writes RESEEDED",
    arguments: &[
        KEPT_FILE,
        File("NEW", "New hill file; nothing may have that name"),
        Number(
            "seed",
            help!("Seed of the new hill, "; seed; " [default: one that is drawn]"),
        ),
    ],
    takes: Takes::Nothing,
};
