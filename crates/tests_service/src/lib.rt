//! Tests of the public calls of `koth_session` and `koth_service`: of what no clause of them says, and no run of the
//! program shows.
//!
//! No crate depends on this one, so those are proved once, without tests, and the tests are proved over them. Tests
//! know memory, devices, streams and sockets by traits. Memory and device are of one type each, which only `run` of
//! `tests_stores` names, and streams and sockets too, so that what is called is compiled once:
//!
//! - `compare`: how the tests compare; `hills`: hills over a device that may fail and memory that may be refused;
//!   `streams`: what a session reads and writes;
//! - `sessions`: sessions over streams; `session_faults`: how one ends if a stream or the device fails; `growths`: each
//!   of its growths of memory refused in turn;
//! - `scripts`: what several peers do, `peers`: whose turn it is, and submissions in progress, and `peer_faults`: growths
//!   that are refused and a device that fails;
//! - `callers`, `fakes` and `hosts`: sockets of no system, those who call at them, and the host of a service;
//!   `serving`: what has to come of a service over these;
//! - `services`, `places` and `failures`: what depends on the clock, on accepts that fail and on a device that fails.
//!
//! What they expect was counted by hand. A test here must not show what a contract could say instead. What the program
//! answers peers and browsers over sockets of the system, `bench/door` shows.
#![tactic(auto)]

#[cfg(test)]
mod callers;
#[cfg(test)]
mod compare;
#[cfg(test)]
mod failures;
#[cfg(test)]
mod fakes;
#[cfg(test)]
mod growths;
#[cfg(test)]
mod hills;
#[cfg(test)]
mod hosts;
#[cfg(test)]
mod peer_faults;
#[cfg(test)]
mod peers;
#[cfg(test)]
mod places;
#[cfg(test)]
mod scripts;
#[cfg(test)]
mod services;
#[cfg(test)]
mod serving;
#[cfg(test)]
mod session_faults;
#[cfg(test)]
mod sessions;
#[cfg(test)]
mod slots;
#[cfg(test)]
mod streams;
