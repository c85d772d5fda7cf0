//! One round of a match, turn by turn: events that a page can carry to a browser.
//!
//! The modules, in the order in which the data pass:
//!
//! - `opening`: how a round begins; `event`: one thing that happens in it;
//! - `nearest`: the next of some addresses; `changes`: the cells that a turn changed; `turns`: the events of a turn,
//!   and of turn after turn;
//! - `playing`: a round of a match, played and kept; `kept`: what is kept of it;
//! - `story`: how a round ended, and why; `ending`: the round, played for that.
//!
//! An event says what changes in a picture of the round, so no one needs a machine to draw it. The picture begins blank
//! with the processes of `Opening`, and takes what is `loaded` and then what each event says (`drawn` in `specs`).
//! `replay` promises that this shows the round after each turn as `mars_core` defines it. It keeps all turns, or the
//! first `most`, each with its own events and no others, and ends as the match counts the round.
//!
//! `story_of` says why a round ended as it did, at the end of all of its turns: who lost, in which turn and cell, and
//! who changed that cell last before that turn (`IsStory`). Who writes what a cell holds already doesn't change it.
//!
//! No rule of the machine is here: what happens in a turn is read off the arena, which says before the turn which cells
//! it may change.
#![tactic(auto)]

mod changes;
mod ending;
mod event;
mod kept;
mod nearest;
mod opening;
mod playing;
mod story;
mod turns;

pub use ending::story_of;
pub use event::Event;
pub use kept::Replay;
pub use opening::Opening;
pub use playing::replay;
pub use story::{Fall, Story, Writer};
