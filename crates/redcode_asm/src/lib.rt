//! The assembler: from the source of a warrior to the warrior, and back to its load text.
//!
//! Data passes through the modules in this order: `assembler` has `redcode_expand` write out the lines of the source, and has
//! `redcode_statement` say what each line says, with what `names` stand for on it. Of that it makes a warrior: its code, its start,
//! its assertions and its titles. `printer` writes a warrior as load text.
//!
//! The main clauses: `assemble` is the definition of `Assembly` in `specs` unless memory runs out, and a warrior that it answers fits
//! the settings. `load_text` is the definition of `LoadText`, and by `RoundTrip` it assembles to its warrior's code and start.
//! `assemble_within` is the same within a budget of steps, or says that they are spent.
//! `said_by` says what one line says, and `warrior_from` what the lines make, for those who explain a refusal.
//!
//! Nothing here explains a refusal: it answers a line and a kind.
#![tactic(auto)]

mod assembler;
mod names;
mod printer;
mod within;

pub use assembler::{assemble, said_by, warrior_from};
pub use names::Labels;
pub use printer::load_text;
pub use redcode_expand::SOURCE_LIMIT;
pub use within::{Unassembled, assemble_within};
