//! The hill: scores, ranks, falls and ages.
//!
//! `hill` has the warriors on it, each a `member` with the `bouts` of its matches with those before it. A challenger
//! fights its own matches, step by step (`challenge`), and is after the others (`standings`). `points` and `score` make
//! points and ranks of all their results, `judging` the `verdict`, and `falls` changes the others if it stays. `table`
//! has each `row` by rank. An audit fights all matches (`fights`), and `untrue` is what it finds.
//!
//! The main clauses: `judge` changes nothing and answers the right verdict, with the entry that falls (`LeastFalls`).
//! It is the steps of a `Challenge`, one after another (`IsUnderWay`), and anyone who has other work makes it between
//! two of them. `admit` and `pass` take the step that was judged, and leave all others (`OthersStay`). `rows` is the
//! ranking (`IsRanking`), and `first_untrue` finds the first kept result that its match doesn't give. Each is said
//! twice: by the results that are kept, and, if those are true (`AreTrue`), by every pair fought again. `IsKept` holds
//! of each hill: entries rise, ages fit the counter, and each pair has one result.
//!
//! No match is fought but a challenger's own and those of an audit. The crate knows no sources, devices or texts.
#![tactic(auto)]

mod bouts;
mod challenge;
mod falls;
mod fights;
mod hill;
mod judging;
mod member;
mod points;
mod row;
mod score;
mod standings;
mod table;
mod untrue;
mod verdict;

pub use challenge::{Challenge, MOST_TURNS};
pub use hill::Hill;
pub use member::Member;
pub use row::Row;
pub use untrue::Untrue;
pub use verdict::Verdict;
