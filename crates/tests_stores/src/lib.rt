//! A store, and devices of stores, as tests call them.
//!
//! These functions have no clauses, so the proof of a test carries none of a call's along, and they are proved once for
//! the crates of tests that stand on this one:
//!
//! - `calls`: the calls of a store, and `tables`: what a store answers;
//! - `memory`: memory that is refused, and the devices in it, by traits; `devices`: the type of these devices, and `sectors`: the bytes of one;
//! - `hills`: the hills that a device may hold, and `moves`: hills that are moved from one device to another;
//! - `old_format`: devices in the old format;
//! - `answers`: sources that several crates submit, and the replies.
//!
//! Nothing else here says what is expected: that is the tests' part.
#![tactic(auto)]

mod answers;
mod calls;
mod devices;
mod hills;
mod memory;
mod moves;
mod old_format;
mod sectors;
mod tables;

pub use answers::{Answered, EMPTY, FIRST, ONE, REPLIES, SECOND, SOURCES, THREE, TWO};
pub use calls::{
    audit, close, copy, create, migrate, open, settings_from, submit, submit_all, tried_reply,
};
pub use hill_store::{MigrateFault, MigrateSide, Reply};
pub use hills::{SECTORS, created, opened, refusal_to_create, refusal_to_open};
pub use memory::{Counted, Disk, TestMemory, Trial, lasting, run};
pub use moves::{moved, tried};
pub use old_format::narrowed;
pub use sectors::{holds, sector, set_byte, with_zeros};
pub use tables::{Numbers, count_rows, numbers_at, other_row, row_at};
pub use tests_fixtures::SMALL;
