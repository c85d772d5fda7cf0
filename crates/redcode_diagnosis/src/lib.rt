//! Refusals and warnings of a source for people: where in the line the fault is, what is wrong, and what was probably meant.
//!
//! `diagnosis` has the refusals of a source, each with its place and its sentence, which are `redcode_blame`'s, and `assembled` the first
//! of them beside an assembly. `text` writes a refusal or one of `redcode_warnings`' warnings, with the part of the line that `excerpt` has.
//!
//! The main clauses: `diagnose` answers no refusal if `assembly` gives a warrior, and else the assembler's first and after it those that
//! `redcode_scene` defines (`TellsAll`). After a name that is defined twice others may stand, no two of one line. Each place lies within
//! its line (`IsPlaceIn`). `text_of` and `warning_text_of` begin with what and where the fault is (`Text` in `specs`).
//!
//! Nothing here changes what is refused.
#![tactic(auto)]

mod assembled;
mod diagnosis;
mod excerpt;
mod further;
mod text;

pub use assembled::assemble_told;
pub use diagnosis::{Diagnosis, diagnose};
pub use redcode_blame::Copied;
pub use redcode_lines::line_text;
pub use text::{text_of, warning_text_of};
