//! Texts for people: a hill, its matches, one match and a submission, in headings and columns.
//!
//! It knows a hill with the results that it keeps, and no store, files or terminals. The modules, in the order in which
//! the data pass:
//!
//! - `tally`: rounds that one entry won, lost and tied, which a page shows too;
//! - `standing`: the table of a hill; `matrix`: its matches;
//! - `entrants` and `placed`: who stood on a hill, and what became of a warrior that was submitted;
//! - `fallen`: what a challenger that falls is told of those that stay.
//!
//! Cells, columns and the counts of one match are `koth_text`'s, and this crate passes `bout_view` on.
//!
//! Each text is exactly what its definition in `specs` makes of the hill. Programs read the lines of `koth_protocol`,
//! and none of these.
#![tactic(auto)]

mod entrants;
mod fallen;
mod matrix;
mod placed;
mod standing;
mod tally;

pub use entrants::{Entered, roster};
pub use fallen::{challenged_view, fallen_view, least_of};
pub use koth_text::{Tally, bout_view};
pub use matrix::matches_view;
pub use placed::{Place, fell_text, placed_text};
pub use standing::hill_view;
pub use tally::{against_all, between};
