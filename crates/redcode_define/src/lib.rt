//! Another body for the `EQU` lines of a name: `NAME=VALUE`, from source to source.
//!
//! Data passes through the modules in this order: `words` reads those of a definition. `lines` goes over the lines of a
//! source; `place` knows which of them are read, and `equ_line` which of these define the name, and where their bodies are. `bytes` cuts
//! the source into lines. `numbers` has the numbers of `NAME=FROM..TO`.
//!
//! The main clause: `define` answers `defined` of `Define` in `specs`, over the same reading of lines and words that the assembler
//! has. Nothing is changed but bodies; each line keeps its number.
//!
//! Nothing here assembles, so a line in a block that is dropped has its body replaced too. Only `define` takes memory.
#![tactic(auto)]

mod bytes;
mod equ_line;
mod lines;
mod numbers;
mod place;
mod words;

pub use lines::define;
pub use numbers::{Range, is_range, range_of, value_at};
pub use words::{Definition, definition_of};
