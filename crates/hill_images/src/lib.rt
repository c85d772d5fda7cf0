//! The images of a hill's device: what is written of a hill, in which order, and what opening finds. It uses the bytes
//! of `hill_bytes`, and knows warriors, but not the language of their sources.
//!
//! Data passes through the modules in this order. `entries` makes the next header, finds the slot that is free for a
//! warrior, and orders its results by the others' slots. `slots` writes and reads the sectors of a slot, and `durable`
//! writes a slot and then the header that names it. `found` reads the headers that a device holds, and `reading` the
//! warriors that one names. `opening` reads a hill back, in either format, `writing` writes one to a device that holds
//! none, and `refusal` says why they don't. `damage` says what a hill has lost. `laws` are laws of the definitions.
//!
//! The main clauses: `place` and `commit` make the changes of `Places` in `specs`, or begin them. `recover` answers the
//! hill that the device reads as, settled so that no stop can lose it, or why there is none. `write_first` and
//! `write_hill` leave no hill or this one, even if they are stopped (`Opening`). An image stands for one hill at most
//! (`Stands`, `Laws`). The lemmas of `Submitted` say what every image stands for after a stop.
#![tactic(auto)]

mod damage;
mod durable;
mod entries;
mod found;
mod laws;
mod opening;
mod reading;
mod refusal;
mod slots;
mod writing;

pub use damage::{first_damaged, loses_header};
pub use durable::{commit, place};
pub use entries::{free_slot, header_passed, header_placed, results_by_slot};
pub use found::holds_old_hill;
pub use laws::laws_of_storage;
pub use opening::{Recovered, recover};
pub use refusal::Refusal;
pub use slots::sectors_for;
pub use writing::{write_first, write_hill};
