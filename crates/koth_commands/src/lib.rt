//! The commands that play no match and need no hill, `asm`, `check` and `explain`, and what all commands share: their
//! answers, troubles and statuses.
//!
//! It uses the assembler, and knows no match, store, device, session or socket. The modules, in the order in which the
//! data pass:
//!
//! - `stream` and `source`: an input that is read up to a limit, an output that is written whole, and the text of a
//!   source;
//! - `define`: a source with another body for the `EQU` lines of a name;
//! - `asm`, `check`, `kinds`: a command each; `report`: what `check` says of a source;
//! - `answer`: what a command answers, and its delivery; `trouble`: why one was not carried out, and `settings` and
//!   `cause` what that was about, and `named` what of a command line;
//! - `name`: the name of a file as messages have it; `telling`: a word on standard error; `status`: how the program
//!   ends.
//!
//! A command performs what it is asked for, which gives an `Answer` or a `Trouble`, and `deliver` alone writes that.
//! Each says what was done as a function of the settings and of what was read, and how it ends as the delivery of that
//! (`EndsAsmFrom`, `EndsCheck`). Settings are checked before anything is read.
#![tactic(auto)]

mod answer;
pub mod asm;
mod cause;
pub mod check;
mod define;
mod explanation;
pub mod kinds;
mod name;
mod named;
mod report;
mod settings;
mod source;
mod status;
mod stream;
mod telling;
pub mod trouble;

pub use answer::{Answer, RefusedSource, deliver, refusal, refused_text};
pub use cause::{Cause, Reason, Subject, reason_of};
pub use define::defined_text;
pub use explanation::{explain, explanation_of};
pub use name::{lines_text, name_text, put_name};
pub use named::named_note;
pub use settings::refuse_settings;
pub use source::{open_source, source_name, text_from};
pub use status::Status;
pub use stream::{StreamFault, fill, write_whole};
pub use telling::{Apart, tell_text, tell_word};
pub use trouble::{About, Fault, Trouble};
