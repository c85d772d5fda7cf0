//! The rows of the tables of a page: warriors by rank.

use koth_text::Tally;

/// What the tables of a page say of a warrior. Rows are by rank, the first with rank 1.
#[derive(Clone, Copy)]
pub struct Ranked<'t> {
    /// The number by which results and links name it: on a hill that of its entry.
    pub number: u64,
    pub name: &'t [u8],
    pub author: &'t [u8],
    pub points: u64,
    /// Its rounds in its matches against all others.
    pub rounds: Tally,
    pub origin: Origin<'t>,
}

/// Where a warrior is from. Its last columns say so.
#[derive(Clone, Copy)]
pub enum Origin<'t> {
    /// It entered a hill, where it has this age.
    Entered(u64),
    /// Its source was read there.
    File(&'t [u8]),
}
