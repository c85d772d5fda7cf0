//! A line in a copy of a block: names are joined to the number of the copy by `&`, and the number stands in place of the counter.
//!
//! `copying` writes the copy of a line under one `counter`; `plain` writes that of a line in which no counter follows an `&` under several counters at once;
//! `line_copy` has the tokens that were written. A joined name or a number lies in the region of the assembly, so a token of a copy is a
//! `Token` as one of the source is.
//!
//! The main clauses: `in_copy` is that of `Counter` in `specs`, and `plain_copy` is `in_copies` of such a line.
#![tactic(auto)]

mod copying;
mod counter;
mod line_copy;
mod plain;

pub use copying::in_copy;
pub use counter::Counter;
pub use line_copy::{LineCopy, reading_of};
pub use plain::{Counters, plain_copy};
