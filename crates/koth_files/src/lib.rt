//! Hills in files: how one is opened, made, and opened again, and why that can't be.
//!
//! `trouble` is why a hill's file can't be worked on. `opening` opens the hill in a file, and `making` makes one,
//! without warriors or as a copy, whole or not at all. `moving` looks whether a file holds a hill of the old format.
//! `looking` looks at a hill without writing its file, and `damage` at what it has lost.
//!
//! The main clauses: what is reported about a file, and for which fault (`Trouble`), and what is reported about a
//! device whose hill is not opened is what was found on it (`OldHill`, `Moving`). A hill that is looked at stood while
//! it was read, and so did why none is shown (`Looking`). Of files no contract can say what they hold; tests and
//! scripts do.
#![tactic(auto)]

mod damage;
mod looking;
mod making;
mod moving;
mod opening;
mod trouble;

pub use damage::has_lost_header;
pub use looking::{SeenHill, look_hill};
pub use making::{copy_hill, create_hill};
pub use moving::require_old_hill;
pub use opening::{HillStore, open_alone, open_within, reopen_hill};
pub use trouble::{refused_at, unopened_at};
