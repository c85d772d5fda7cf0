//! What of a field is fought, and what is told of it.

use koth_contests::Terms;
use koth_standings::Standings;
use koth_words::Part;
use std::alloc::Allocator;

/// What of the matches of a field is fought, and what is told of them.
#[derive(Clone, Copy)]
pub struct Plan {
    pub terms: Terms,
    /// Whether each match has a line after the table too.
    pub matches: bool,
    /// The part that is fought, if not all are. Then no table is written.
    pub share: Option<Part>,
}

/// What came of the matches so far.
#[derive(Drop)]
pub(crate) struct Fought<A: Allocator> {
    pub standings: Standings<A>,
    /// The lines of matches that come after the table.
    pub kept: Vec<u8, A>,
}
