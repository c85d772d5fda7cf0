//! The commands that write how warriors fared in their matches.

use crate::arguments::Argument::{File, Flag, Sources, SpareSources, Text};
use crate::building::{Row, Takes};
use crate::options::{DEFINE, FORMAT, NAME, PLAIN, TABLE};

/// `fight`, which plays matches of one warrior.
pub(crate) const FIGHT: Row = Row {
    name: "fight",
    about: "Plays a match with each opponent, and writes how many rounds were won, lost and tied",
    arguments: &[
        File(
            "MINE",
            "File of the older warrior; - is standard input; with --many the first of OTHER",
        ),
        SpareSources(
            "OTHER",
            "Files of the younger warriors, one or more; of a folder each *.red",
        ),
        NAME,
        DEFINE,
        Flag(
            "both",
            "Play each match in the other order too; not with --each",
        ),
        Flag(
            "each",
            "Write a line for each round of the match with the one opponent",
        ),
        Flag(
            "many",
            "Read older warriors from standard input, each ended by a line with a dot, and write a line for each",
        ),
        PLAIN,
        TABLE,
        FORMAT,
    ],
    takes: Takes::Like,
};

/// `rank`, which plays those of a field.
pub(crate) const RANK: Row = Row {
    name: "rank",
    about: "Plays the match of each two warriors of a field, and writes the warriors by points",
    arguments: &[
        Sources(
            "FOLDER",
            "Folders of the warriors, one or more, each for its *.red; a file is one warrior; with --join files of parts",
        ),
        NAME,
        Flag("both", "Play each match in the other order too"),
        Flag(
            "matches",
            "Write after the table how many rounds each warrior won against each other, of 100 warriors at most",
        ),
        Text(
            "part",
            "K/N",
            "Play only the matches of part K of N, and write them for --join; 1/1 to 4294967295/4294967295",
        ),
        Flag(
            "join",
            "Write the table of all parts, which are in files that --part wrote",
        ),
        PLAIN,
        TABLE,
        FORMAT,
    ],
    takes: Takes::Like,
};
