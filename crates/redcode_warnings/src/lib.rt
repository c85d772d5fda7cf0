//! Warnings of a source: what its lines say although it may assemble, and what its author has probably not meant.
//!
//! Data passes through the modules in this order: `read` has the lines that are read, up to an `END`. `named` has the
//! names that those lines name, `start` where the warrior starts, and `near` the reserved word that a name is nearly.
//! `label` and `titles` look at one line and at all of them; `finding` is what they find, in the order of the lines.
//! `sentence` explains it, and `warning` puts both together with the place. `kind` has the kinds.
//!
//! The main clause: `warnings` answers the kinds and lines of `Warnings` in `specs`, each at a place in its line.
//!
//! Warnings are about the lines of a source and don't need that it assembles. They change nothing of what is refused.
//! A source takes time in proportion to its bytes, but for the search among its names: one among n names takes a
//! number of comparisons in proportion to log n.
#![tactic(auto)]

mod finding;
mod kind;
mod label;
mod named;
mod near;
mod read;
mod sentence;
mod start;
mod titles;
mod warning;

pub use kind::WarningKind;
pub use warning::{Warning, warnings};
