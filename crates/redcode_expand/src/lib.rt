//! A source written out: its blocks copy by copy, the names of its `EQU`s replaced, its labels with their addresses.
//!
//! `marked_lines` pairs each `FOR` with its `ROF`. `blocks` goes from line to line and from copy to copy, with the blocks that are open in
//! `open_blocks`. `beginning` has what a `FOR` does, with the counts of blocks in `count` and `counts`; `same_counts` finds those that
//! read the same. `walk` has what any other line does: it counts, defines names, and is a line of the expanded source (`entry`).
//! `expanded` replaces the names of `EQU`s when all are known, and has the result. `steps` is a budget of what all this may
//! take, and `visits` has what a visit to a line takes.
//!
//! The main clause: `expand` answers the definition of `Expansion` in `specs`, the lines and labels or the first refusal that is due, or
//! runs out of memory. A block without a copy counts nothing and may be met millions of times, so it must cost little. A count is worked
//! out once for all that read the same, and kept until a counter or `CURLINE` changes. A block whose kept count is 0 is passed at once.
#![tactic(auto)]

mod beginning;
mod blocks;
mod count;
mod counts;
mod entry;
mod expanded;
mod marked_lines;
mod open_block;
mod open_blocks;
mod same_counts;
mod steps;
mod visits;
mod walk;

pub use entry::Entry;
pub use expanded::{Expanded, SOURCE_LIMIT, expand, expand_within};
pub use redcode_lines::{Line, LineKind};
pub use redcode_names::predefined;
pub use steps::Steps;
