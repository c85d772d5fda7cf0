//! Matches of warriors that are on no hill, `fight`: of two, of one against many, and round by round.
//!
//! It uses the match, and knows no store, device, session or socket. The modules, in the order in which the data pass:
//!
//! - `opponents`: the sources that the words for opponents stand for, also those in a `folder`, and `paths` of these;
//!   `pair`: the warriors that sources assemble to;
//! - `contest`: the counts and points of one warrior against another, in one role or in both; `rounds`: how each round
//!   of a match went;
//! - `lines`: the lines of contests, as text or as `koth_json` has them; `meeting`: one warrior against others, one
//!   after the other;
//! - `fight`: the command.
//!
//! It says what is written and how the program ends, as a function of the settings and of what was read (`EndsFight`).
//! Of many opponents that is a line for each, in their order and none left out, with the counts of its match
//! (`IsContest`); of each round what the match has of it (`IsEach`). Settings are checked before anything is read.
#![tactic(auto)]

mod contest;
pub mod fight;
mod folder;
mod lines;
mod meeting;
mod opponents;
mod pair;
mod paths;
mod rounds;

pub use contest::{added, contest_tally};
pub use lines::{contender, contest_line, put_both_names, put_file, sum_line};
pub use meeting::{Terms, tell_none, write_line};
pub use opponents::{Opponent, Place, opponents_of};
pub use pair::{NoWarrior, Pair, answer_none, pair_from};
pub use rounds::{Played, first_round, round_of, rounds_text, side_name};
