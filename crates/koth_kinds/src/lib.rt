//! The kinds of refusals and warnings: what each means, with a source that earns it and one that doesn't.
//!
//! `kind` has all kinds, and of each its name and the line that it names. `refusals`, `counts` and `warnings` have what
//! they mean, a constant each, which carries its kind. `written` writes that for people.
//!
//! The main clauses: `kinds` has every kind, and `explained` writes what each kind with a name means.
//! That a source earns its kind is no clause. No command calls this crate yet.
#![tactic(auto)]

mod counts;
mod kind;
mod meaning;
mod refusals;
mod warnings;
mod written;

pub use kind::{Kind, kinds};
pub use meaning::{Examples, Meaning, meaning_of};
pub use written::{explained, put_names};
