//! The listing of a warrior: its load text with a comment after each instruction, on where in the source that is from.
//!
//! `lines` finds the lines of the instructions in what is written out of the source, and `labels` the labels with their
//! addresses. `printer` writes them after the lines of the load text.
//!
//! The main clause: `listing` is the definition of `Listing` in `specs`. Without its comments it is the load text.
//! A label that a block's counter is joined to has no name in the source, and is in no comment.
#![tactic(auto)]

mod labels;
mod lines;
mod printer;

pub use printer::listing;
