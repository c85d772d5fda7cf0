//! What the machine runs and a hill is made of: instructions, warriors, settings and the faults of a source.
//!
//! Data passes through the modules in this order: `settings` checks the ten numbers of a hill or of a fight; `fault` names why a
//! source is refused; `instr` has an instruction and its eight bytes; `title` makes the name of a warrior or of its author from any
//! text; `warrior` puts code, start and titles together.
//!
//! Each type keeps its range, so no crate above tests it again: a `Settings` has every field in its range, a `Title` has 1 to 48
//! printable bytes, and a `Warrior` has 1 to 200 instructions, of which its start is one.
//!
//! The main clauses: `Settings::new` answers `settings_of`, the settings or the first field out of its range. `Warrior::new` gives a
//! warrior exactly if its parts fit the settings (`Fits` of `Warrior` in `specs`). What `Instr` and `Title` read from bytes is what
//! is stored in them, and other bytes are refused. Each fault has its name of `Fault`.
//!
//! Nothing here reads a source, takes memory or knows what an instruction does.
#![tactic(auto)]

mod fault;
mod instr;
mod settings;
mod title;
mod warrior;

pub use fault::{AsmFault, AsmKind, ExprFault};
pub use instr::{Instr, Mode, Modifier, Op};
pub use settings::{RawSettings, Settings, SettingsFault};
pub use title::{Title, is_blank, without_blanks_behind};
pub use warrior::Warrior;
