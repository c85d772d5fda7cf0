//! Tests of the program whose streams fail or whose memory is refused, and of two of its calls. They try what no clause
//! of `koth_server` says.
//!
//! No crate depends on this one, so a check of the crates above waits for none of these tests. Tests know the program,
//! its files and its streams by a trait, `Stage`. It is always run over the same types, which only `on_host` of `program`
//! names, so that it is compiled once. The helpers come first. `streams` has streams that signals interrupt. `program`
//! runs the program over them, on memory that refuses growths, and `expecting` has what tests expect of a run. None of
//! their functions has clauses: the proof of a test carries none of a call's along. Then a module a subject:
//!
//! - `failing`: reads and writes that fail, and those that are interrupted;
//! - `growths`: commands with each growth of memory refused in turn, and `contests`: contests and explanations;
//! - `calls`: the seed of a hill that random bytes give, and arguments without a fault.
//!
//! What a contract says is proved there and not tried here. `bench/commands` and `bench/closed` try what the built
//! program does.
#![tactic(auto)]

#[cfg(test)]
mod calls;
#[cfg(test)]
mod contests;
#[cfg(test)]
mod expecting;
#[cfg(test)]
mod failing;
#[cfg(test)]
mod growths;
#[cfg(test)]
mod program;
#[cfg(test)]
mod streams;
