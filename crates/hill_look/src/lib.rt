//! A hill that is looked at without being written, while a store may write it.
//!
//! `source` is the trait of sectors that are read alone, and `file_source` such sectors over a file. `taking` reads
//! both headers and the slots into memory, until the headers are as they stood before. `seeing` opens what was read as
//! a store, `refusal` says why there is none, and `laws` is a law of the definitions.
//!
//! The main clauses: the hill that is answered stood at a moment between the first read and the last, whatever a store
//! wrote meanwhile, and so did the reason of a refusal (`HillStood`, `IsNotSeen` in `specs/Looked`). If the sectors
//! read as they did before, it is what opening answers (`still`). What a store may write is stated in
//! `specs/Meanwhile`, and `place` and `commit` do nothing else (`calls_move_on`).
//!
//! Nothing here writes a source, syncs it or locks it. No contract claims anything of what a file holds.
#![tactic(auto)]

mod file_source;
mod laws;
mod refusal;
mod seeing;
mod source;
mod taking;

pub use file_source::FileSource;
pub use laws::calls_move_on;
pub use refusal::LookRefusal;
pub use seeing::look_at_hill;
pub use source::Source;
pub use taking::look;
