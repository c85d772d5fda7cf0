//! Matches of two warriors: how many rounds each of them wins, and how many are ties.
//!
//! - `seeds`: the seed of each round, and the position of the younger warrior in a round with that seed;
//! - `bout`: the counts of a match;
//! - `rounds`: the rounds of a match, played one after the other and counted.
//!
//! A match has the number of rounds that its settings say. In each of them the older warrior is loaded at address 0,
//! and the younger one at a position that the round's seed gives: at least the settings' distance away on both sides.
//! The first round has the settings' seed. Each later seed is the one before times 16,807, modulo 2,147,483,647, as in
//! pMARS. The older warrior moves first in every second round, and in the first one.
//!
//! So a match is a function of its settings and its two warriors (`match_of` in `specs`), whatever the arena was used
//! for before. `fight` promises that it counts this function's value, and that the counts add up to the settings'
//! rounds. A `Match` is played in parts: after each of them its counts are those of the rounds so far (`IsPlayed`), and
//! `fight` is one such part. `position`, `seed_of_round` and `first_in` serve those who play one round of a match by
//! itself.
//!
//! Nothing here takes memory: the arena, which the caller makes, has all that a round needs.
#![tactic(auto)]

mod bout;
mod rounds;
mod seeds;

pub use bout::Bout;
pub use rounds::{Match, fight, first_in};
pub use seeds::{next_seed, position, seed_of_round};
