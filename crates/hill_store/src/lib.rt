//! The store: a hill on a device of sectors, which survives any stop. What is written and found again is `hill_images`,
//! and the bytes of the sectors are those of `hill_bytes`.
//!
//! `store` assembles a source, has its warrior judged, makes the outcome durable, and only then counts it; `reply` is
//! what it answers. A `submission` may also be made in parts: `begin`, `step` after step, and `finish`. Until it is
//! finished, device and hill are as they were before, and one that is given up leaves nothing.
//!
//! The main clauses: `submit` and `submit_all` answer the right reply, and on a lawful device every image then stands
//! for the hill after the sources that were answered (`Seen`, `Runs`, `Holding` in `specs`). After a stop, `open` finds
//! the hill with or without the source in progress. `migrate` moves it likewise from a device of the old format to
//! another one; its faults are those of `migration`.
#![tactic(auto)]

mod laws;
mod migration;
mod reply;
mod store;
mod submission;

pub use hill_bytes::{
    Header, HeaderEntry, decode_header, decode_old_header, encode_header, encode_old_header,
};
pub use hill_images::{Refusal, laws_of_storage, sectors_for};
pub use koth_hill::Untrue;
pub use laws::{calls_in_lives, laws_of_kept, laws_of_lives, migrations_in_lives};
pub use migration::{MigrateFault, MigrateSide};
pub use reply::Reply;
pub use store::Store;
pub use submission::Submission;
