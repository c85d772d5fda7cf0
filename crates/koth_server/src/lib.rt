//! The program `koth`: its arguments, the service of a hill, and how a run ends.
//!
//! It uses all other layers and carries out what the command line asks of them. The modules, in the order in which
//! the data pass:
//!
//! - `arguments` and `typed`: an argument that is no text, and standard input at a terminal, both before anything is
//!   read;
//! - `program`: `run`, which carries out what the arguments of the command line ask for, by `koth_words`, and ends with
//!   a status;
//! - `settled`: the settings under which a command is carried out;
//! - `one_session`: one session over standard input and output;
//! - `serve`: the service of a hill, `ports`: where it listens, and `log`: what it reports, in lines as `texts` or as
//!   `objects` of a `report`, with the words of `ends`;
//! - `pages`: the pages that browsers ask it for;
//! - `titles`: those on the hill, as the log names them;
//! - `host`: what it goes on with when its device failed.
//!
//! The clause of `run` gives what is written and how it ends as a function of the arguments and of what was read
//! (`asm`, `fight`, `replay`, `trace`, `create`, `submit`, `try`, `show`, `page`, `audit`, `copy`, `reseed`, `migrate`,
//! `serve`, `session`). At wrong arguments nothing is read, and nothing is written on the output (`word_fault`). What a service
//! does is in `koth_service`.
//!
//! Settings must be checked before anything is read. `asm`, `check` and the statuses are in `koth_commands`, `fight`
//! in `koth_contests`, `replay` and `trace` in `koth_rounds`, hills in files in `koth_files`, what a keeper does with
//! these in `koth_keeping`, and what authors do in `koth_hills`. A session and its lines are in `koth_session`. This crate passes on what its
//! callers need of them.
#![tactic(auto)]

mod arguments;
mod ends;
mod host;
mod log;
mod objects;
mod one_session;
mod pages;
mod ports;
mod program;
mod report;
mod serve;
mod settled;
mod sign;
mod texts;
mod titles;
mod typed;

pub use arguments::refuse_arguments;
pub use koth_commands::Status;
pub use koth_commands::trouble::Trouble;
pub use koth_keeping::drawn_seed;
pub use koth_protocol::Counted;
pub use koth_service::LogWrite;
pub use koth_session::{SessionEnd, session};
pub use koth_sockets::PolledLog;
pub use koth_words::View;
pub use program::run;
pub use typed::Typed;
