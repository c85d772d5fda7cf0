//! The command `fight --many`: candidates that come as sources on the input, each against the same opponents.
//!
//! It uses the field, the contest of two and what a session reads, and knows no store, device or socket. The modules, in
//! the order in which the data pass:
//!
//! - `sources`: the source that comes next on the input;
//! - `answers`: the line that is answered to a source;
//! - `candidates`: the command.
//!
//! It says what is written as a function of what was taken from the input (`EndsAnswers`): for each source that is whole
//! one line, in their order and none left out, and that line is flushed before more is read. Of the candidates only the
//! one that is answered is in memory.
#![tactic(auto)]

mod answers;
mod candidates;
mod sources;

pub use answers::answer_of;
pub use candidates::{answer_all, fight_candidates};
pub use sources::{Taken, next_source};
