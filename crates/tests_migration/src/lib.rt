//! Tests of `Store::migrate` and `Store::copy_to` of `hill_store`, and of the public calls of `hill_look`: hills that
//! are read and stay as they are.
//!
//! No crate depends on this one, so these are proved once, without tests, and the tests are proved over them:
//!
//! - `migrations`: a hill of two that is moved to another device, `refused`: devices between which none is moved, and
//!   `growths`: growths of memory that are refused;
//! - `moves`: a stop and a fault at each call of a move, and `twenty`: a stop at each call of a full hill's;
//! - `copies`: a copy on another device;
//! - `looks`: a hill that is looked at while it is written. `passing` is a source that goes from one device's sectors
//!   to the next one's while it is read, and may fail at a read;
//! - `files`: a file that is looked at.
//!
//! `hills` makes devices and hills on them, and `tests_stores` devices in the old format and moves. `expecting` has
//! what tests expect. All stores are on one type of device, with one type of allocator, which only `run` of
//! `tests_stores` names: a proof over these types takes several times as long. What is expected was counted by hand.
//!
//! A test here must not show what a contract could say instead, nor what the built program shows: hills that are moved
//! by the commands are in `bench/transcripts`, byte by byte.
#![tactic(auto)]

#[cfg(test)]
mod copies;
#[cfg(test)]
mod expecting;
#[cfg(test)]
mod files;
#[cfg(test)]
mod growths;
#[cfg(test)]
mod hills;
#[cfg(test)]
mod looks;
#[cfg(test)]
mod migrations;
#[cfg(test)]
mod moves;
#[cfg(test)]
mod passing;
#[cfg(test)]
mod refused;
#[cfg(test)]
mod twenty;
