//! Tests of the devices of `sector_disk` and `hill_file` over files: what becomes of a file, and by which calls.
//!
//! No crate stands on this one, so those are proved once, without tests, and the tests are proved over them. A module a
//! subject:
//!
//! - `files`: the device over a file;
//! - `hills`: the device over a hill's file;
//! - `others`: that device within another, and the texts of faults.
//!
//! Each call of a file fails once, and another program writes to the file before each. `watched` has the files that do
//! so, and write their calls down. `calls` has the calls of a device as the tests make them, `deeds` what they do to a
//! file, and `trials` goes through tables of both. What they expect was counted by hand. A test here must not show what
//! a contract could say instead. `tests_base` tries the device in memory. What becomes of a file beside the program's
//! commands scripts show: `bench/commands`, `bench/files`, `bench/create` and `bench/look`.
#![tactic(auto)]

#[cfg(test)]
mod calls;
#[cfg(test)]
mod deeds;
#[cfg(test)]
mod files;
#[cfg(test)]
mod hills;
#[cfg(test)]
mod others;
#[cfg(test)]
mod trials;
#[cfg(test)]
mod watched;
