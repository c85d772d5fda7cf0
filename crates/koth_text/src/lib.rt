//! The pieces of text that answers, tables and pages are made of, and the reads and writes that no signal ends.
//!
//! It knows the words of `war_types` and the counts of a match, and no hill, store, files or sockets: so whatever needs no hill
//! stands on this crate and on nothing of the store. The modules, lowest first:
//!
//! - `uninterrupted`: a read or a write that is made again if a signal interrupts it;
//! - `line`: a line that is built in place; `refusal`: the line of a source that is refused;
//! - `lines` and `escape`: lines and numbers, and what others wrote, as they stand in a text or a page;
//! - `tally`: rounds from the side of one warrior;
//! - `cells` and `columns`: rows of cells, and how they are laid out;
//! - `pieces`: a text as a list of its pieces;
//! - `counts`: the counts of one match, in headings and columns.
//!
//! Each text is exactly what its definition in `specs` says. Whatever a text holds, `escape` puts no character that begins or
//! ends a tag or the value of an attribute. A line needs no memory; what makes a text answers the lack of it by `AllocError`.
#![tactic(auto)]

pub mod cells;
pub mod columns;
pub mod counts;
mod escape;
mod line;
mod lines;
mod pieces;
mod refusal;
mod tally;
mod uninterrupted;

pub use counts::bout_view;
pub use escape::put_escaped;
pub use line::Line;
pub use lines::{put_line, put_number};
pub use pieces::{Piece, put_all};
pub use refusal::refusal_line;
pub use tally::Tally;
pub use uninterrupted::{read_uninterrupted, write_uninterrupted};
