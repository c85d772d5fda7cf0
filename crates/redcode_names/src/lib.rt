//! The names of a source: its labels, the names of its `EQU` lines, the predefined ones, and those of counters.
//!
//! `names` takes the lines that define names, and keeps what they define in `labels` and `equs`. Both are maps with a `name_key` for each
//! name. `name` has the predefined names, and `counter_names` those of the blocks that are open. `rounds` replaces the names of `EQU`s by
//! their bodies.
//!
//! The main clauses: `Names` defines what `Name` in `specs` does, or refuses as that does; `replaced` and `written` answer the tokens
//! of `replaced` in `Equ`, or the refusal `EquLimit` that is due. Each may also run out of memory.
//!
//! It must not decide which lines define names, nor in which order: the walk over the lines does. It finds a name by a hash that is keyed
//! by the source, and never by a search through all names. No list grows past 512 tokens by replacement.
#![tactic(auto)]

mod counter_names;
mod equs;
mod labels;
mod name;
mod name_key;
mod names;
mod rounds;

pub use counter_names::CounterNames;
pub use equs::Equs;
pub use labels::Labels;
pub use name::{is_loose, predefined};
pub use name_key::NameHash;
pub use names::Names;
pub use rounds::{TOKEN_LIMIT, replaced, too_many, written};
