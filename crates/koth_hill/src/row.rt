//! The lines of a hill's table.

use war_types::Title;

/// A line of the table: a warrior on the hill with its score.
#[derive(Clone, Copy)]
pub struct Row<'h> {
    /// The number of its entry, from 1 on.
    pub entry: u64,
    pub name: &'h Title,
    pub author: &'h Title,
    /// 3 for each round that it wins and 1 for each tie, over its matches against all others on the hill.
    pub score: u32,
    /// How many warriors have stayed since it entered.
    pub age: u64,
}
