//! How a source is cut into lines, how a line is read, and a place in a line.
//!
//! Data passes through the modules in this order: `source` cuts the source into lines, from its `;redcode` line on, and says what a line
//! with a semicolon in front is. `source_line` has the lines that are not skipped, each with its tokens. `reading` is how such a line
//! reads, in the source or in a copy of a block: its labels, its word, and which tokens of an expanded line are operands. `line` is a
//! line of an expanded source, and the text of a line by its number; `place` is a part of that text, and `shown` a text as a terminal
//! may have it.
//!
//! A source is bytes, at most 65,536 of them; a line's number is counted from 1. Each word is looked up once, when its line is read.
//!
//! The main clauses: `source_lines` answers the lines of `Block` in `specs`, and a `Reading` has the labels and the rest of `Line`.
//! `line_text` is the piece between two line feeds, as the assembler counts lines, and `place_in` lies within the text.
//!
//! What is done once a source is before the first step of its expansion, and takes time in proportion to its bytes; a comment at each loop
//! says which those are, and what pays for the others.
//!
//! Nothing here knows what a name stands for or writes out a block. Only `source_lines` and `append_shown` take memory.
#![tactic(auto)]

mod line;
mod place;
mod reading;
mod shown;
mod source;
mod source_line;

pub use line::{Line, LineKind, line_text};
pub use place::{Span, blanks_before, part_of, place_in, span_of, spans_of, whole};
pub use reading::{
    LineForm, Reading, behind_first, behind_names, has_and, has_text, is_name, operands_of, word_at,
};
pub use shown::{append_shown, is_acted_on};
pub use source::live_source;
pub use source_line::{SourceLine, line_at, source_lines};
