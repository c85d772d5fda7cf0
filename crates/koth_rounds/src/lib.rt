//! One round of a match of two warriors that are on no hill, turn by turn: `replay` and `trace`.
//!
//! It uses the events and the story of a round and the page of a round, and knows no store, device, session or socket.
//! The modules, in the order in which the data pass:
//!
//! - `asked`: the round that is asked for, by its number or by how it ended;
//! - `page`: its page, and the sentence that says how it ended, and why; `page_file`: the file of a page;
//! - `objects` and `turns`: a turn as lines of JSON, and as text; `traced`: the turns of a round;
//! - `replay` and `trace`: the commands that write the page, and the turns.
//!
//! Each command says what is written and how the program ends, as a function of the settings and of what was read
//! (`EndsReplay`, `EndsTrace`). The page has the events of the round (`IsRoundText`). A trace has each turn of the part
//! that is asked for, in order and none left out, with those events (`IsTraceText`). Who changed last what the loser
//! executed is the one that the round's definition names, on the page, in the sentence (`IsSentence`) and in a trace.
//! Settings and the round's number are checked before anything is read.
#![tactic(auto)]

mod asked;
mod objects;
mod page;
mod page_file;
pub mod replay;
pub mod trace;
mod traced;
mod turns;

pub use asked::has_round;
pub use page::round_text;
pub use traced::trace_text;
