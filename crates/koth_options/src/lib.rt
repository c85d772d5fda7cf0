//! The commands of the program `koth` with their files and options, as `clap` reads them and as help shows them.
//!
//! What they give a command is the crate `koth_words`.
//!
//! - `arguments`: the files, options and flags of commands, one by one;
//! - `options`: what several commands take, the options that give settings among it;
//! - `building`: what commands are built of;
//! - `sources`: the commands that read sources; `contests`: those that play matches, and `rounds`: those that show a round
//!   of one; `hills`: those for a hill, and `serving`: the one that serves it; `commands`: all commands.
#![tactic(auto)]

mod arguments;
mod building;
mod commands;
mod contests;
mod hills;
mod options;
mod rounds;
mod serving;
mod sources;

pub use commands::koth_command;
