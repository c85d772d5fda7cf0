//! The standings of a field, each of whose warriors fights each other one: which pairs there are, the rounds of each
//! warrior, and who is ranked before whom.
//!
//! - `pairs`: the pairs of a field, one after the other; `parts`: those of a part, of which each pair is in one;
//! - `standings`: the rounds of each warrior, to which a match after the other is added, or the rounds of a part;
//! - `ranking`: the places of a field by points.
//!
//! It plays no match, and knows warriors only by their places in the field. `pairs` has of each two places one pair,
//! the earlier place as the older warrior. `parts` shares them out, so that what the parts count adds up to what the
//! field counts (`SharesOut`). `add` promises that the counts are sums over the pairs whose matches were added, each
//! once (`AreOf`), and `add_part` that they are sums over the parts. `ranking` promises each place once, by points, and
//! of equals the earlier first (`IsRanking`).
#![tactic(auto)]

mod joining;
mod pairs;
mod part_text;
mod parts;
mod ranking;
mod standings;

pub use joining::{NotTaken, join_part};
pub use pairs::{Pair, Pairs};
pub use part_text::{NoPart, PartHead, PartRead, Row, put_end, put_head, put_row, read_part};
pub use parts::PairsOfPart;
pub use standings::Standings;
