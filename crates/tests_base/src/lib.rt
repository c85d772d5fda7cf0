//! Tests of the public calls of `war_types`, `sector_disk` and `hill_bytes`, on which all other crates stand, and of the
//! tests' allocator.
//!
//! No crate stands on this one, so those are proved once, without tests, and the tests are proved over them. A module a
//! subject:
//!
//! - `refusing`: the allocator of `tests_fixtures`, on which all tests of growths stand;
//! - `devices` and `fuses`: the device in memory, with each image that a stop leaves of it, and the device that fails;
//! - `growths`: each growth of memory of these devices refused in turn, and what takes no memory, as headers and slots;
//! - `faults`: how faults are written.
//!
//! `calls` has the calls of a device as the tests make them, and `expecting` how the tests compare. What they expect
//! was counted by hand. A test here must not show what a contract could say instead, or what the program shows: which
//! settings, titles and warriors are taken is in `bench/rows` and `bench/transcripts`, and `bench/images` compares the
//! bytes of a hill. `tests_devices` tries devices over files.
#![tactic(auto)]

#[cfg(test)]
mod calls;
#[cfg(test)]
mod devices;
#[cfg(test)]
mod expecting;
#[cfg(test)]
mod faults;
#[cfg(test)]
mod fuses;
#[cfg(test)]
mod growths;
#[cfg(test)]
mod refusing;
