//! The command `rank`: each two warriors of a field fight each other, and all are written by points.
//!
//! It uses the field, the contest of two and the standings, and knows no store, device, session or socket. The modules,
//! in the order in which the data pass:
//!
//! - `plan`: which matches are fought, and what is told of them;
//! - `fighting`: the match of each pair of a field, and its line; `progress`: how far they have come;
//! - `part`: the counts of a part of the matches; `table`: the lines of the ranked warriors;
//! - `ranking`: the command; `joining`: the same of parts that were written before, in the files of `part_file` by
//!   `part_order`, with the `names` that their lines have.
//!
//! It says what is written as a function of the settings and of what was read (`EndsRank`): the table has the counts of
//! the match of each pair, each exactly once, and a ranking by points, of equals the earlier first (`IsTable`).
//! Settings are checked before anything is read.
#![tactic(auto)]

mod fighting;
mod joining;
mod names;
mod part;
mod part_file;
mod part_order;
mod plan;
mod progress;
mod ranking;
mod table;

pub use joining::join;
pub use plan::Plan;
pub use ranking::rank;
