//! The page of one round: it is watched turn by turn in a browser, from one file of HTML that needs nothing from
//! outside.
//!
//! It knows the events of a round, as `koth_replay` keeps them, and two warriors; no machine, no rule of turns, no
//! files. The modules, in the order in which the data pass:
//!
//! - `instruction`: an instruction as the data of a page has it; `data`: the events of a round, as JSON;
//! - `shown`: names, turns and instructions as a sentence has them; `sentence`: how the round ended, and why, in a
//!   sentence, also for a text; `heading`: what a page says of its round in words;
//! - `parts`: what is the same on every page, with the style sheet; `script` and `drawing`: what plays the events in
//!   the browser, and what draws them;
//! - `page`: all of these.
//!
//! The page is exactly what its definition in `specs` makes of the two warriors, the number of the round and the
//! events. It has each event, in their order: so the picture after some turns is the one that `koth_replay` promises of
//! these events. Whatever a warrior or its author is called, no tag and no value of an attribute begins or ends with
//! that, and nothing of the data ends the element that they are in. Each byte is ASCII. What the script makes of the
//! data is outside of the proofs.
#![tactic(auto)]

mod data;
mod drawing;
mod heading;
mod instruction;
mod page;
mod parts;
mod script;
mod sentence;
mod shown;

pub use page::round_page;
pub use sentence::{Told, put_sentence};
pub use shown::{Form, put_shown};
