//! Tests of the public calls of `mars_core`, `koth_match`, `koth_replay`, `koth_hill`, `koth_views` and `koth_page`, of
//! what no script over the program shows.
//!
//! No crate depends on this one, so those are proved once, without tests, and the tests are proved over them. A module
//! a subject:
//!
//! - `making`: settings, warriors and hills for the tests;
//! - `arenas`: a new arena, and matches and rounds in one arena, for which all memory is refused;
//! - `replays`: how many turns of a round are kept;
//! - `steps`: a challenge that is fought in steps;
//! - `growths`: which calls take memory, each growth refused in turn.
//!
//! All memory is that of one type of allocator, `&Refusing<Global>`, so the calls are compiled for no other.
//! `expecting` has how the tests compare. What they expect was worked by hand. A test here calls only what those crates
//! offer to all others. It must not show what a contract could say instead. Single turns and rounds are compared by
//! `bench/turns`, hills by `bench/ranking`, and matches, tables and pages by the transcripts of `bench/commands`.
#![tactic(auto)]

#[cfg(test)]
mod arenas;
#[cfg(test)]
mod expecting;
#[cfg(test)]
mod growths;
#[cfg(test)]
mod making;
#[cfg(test)]
mod replays;
#[cfg(test)]
mod steps;
