//! Tests of the public calls of `hill_store`: a hill on a device.
//!
//! No crate depends on this one, so that is proved once, without tests, and the tests are proved over it:
//!
//! - `calls`: what the calls answer and ask of their device, and `steps`: submissions in parts;
//! - `sweeps`: a stop and a fault at each call of the device, and `lives`: a life of one;
//! - `growths`: what becomes of a hill if a growth of memory is refused, and which calls need none.
//!
//! `hills` makes hills and their devices, and `expecting` has what tests expect of a store, which they call by
//! `tests_stores`. All stores are on one type of device, with one type of allocator, which only `run` of `tests_stores`
//! names: a proof over these types takes several times as long. What is expected was counted by hand.
//!
//! A test here must not show what a contract could say instead, nor what the built program shows: the bytes that a
//! store writes, what it answers to sources, and results that a file keeps are in `bench/transcripts`. `bench/images`
//! compares headers and slots, and `tests_migration` tries hills that are moved, copied or looked at.
#![tactic(auto)]

#[cfg(test)]
mod calls;
#[cfg(test)]
mod expecting;
#[cfg(test)]
mod growths;
#[cfg(test)]
mod hills;
#[cfg(test)]
mod lives;
#[cfg(test)]
mod steps;
#[cfg(test)]
mod sweeps;
