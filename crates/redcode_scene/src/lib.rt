//! What is known of a source that is refused: what the sentences about its refusals look up.
//!
//! `scene` has the source: its lines as they stand, and written out. `judge` has the faults that are told, and the line
//! that a fault is of; `judged` has that line with the places from which its tokens come, and `copies` the copy of a
//! block in which it stands. `probe` writes out the source with another line in place of one of its own, and `definers`
//! finds by it what has defined a name before. `operands` are those of a line, `flaw` is why tokens make no expression,
//! `definitions` tell where a name is defined, `nearest` finds the reserved word that was probably meant, `known` the
//! name, and `misspelt` a `FOR` or `ROF` that was.
//!
//! What a line says and stands for is `redcode_asm`'s, so that nothing here can disagree with the assembler.
//!
//! The main clauses: `told_faults` answers the faults of `Faults` in `specs`. The name or the reserved word that is told
//! as the one meant may be told, and none is nearer (`Suggests` of `nearest_name` and `nearest_word`). The line that is
//! told as the one that defines a name defines it in what is written out (`IsDefiner` of `definer_before`). All else is
//! help and no promise, and no clause speaks of it. Nothing here says a sentence, or changes what is refused.
#![tactic(auto)]

mod copies;
mod definers;
mod definitions;
mod flaw;
mod judge;
mod judged;
mod known;
mod misspelt;
mod nearest;
mod operands;
mod probe;
mod scene;

pub use copies::{Around, Copied, blocks_around, copy_of, is_counter_at};
pub use definers::{
    Definer, definer_before, ends_join, is_joined, is_label, may_be_joined, with_joined,
};
pub use definitions::{Role, definition, is_among, last_name};
pub use flaw::{Flaw, flaw_of};
pub use judge::{Faulty, faulty_line, labels_on, told_faults};
pub use judged::{Judged, judged_line};
pub use known::nearest_name;
pub use misspelt::misspelt_word;
pub use nearest::{is_operation, is_reserved, nearest_word};
pub use operands::{Parted, at_comma, kind_of, operand_at, operands_in, without_mode};
pub use probe::{is_limited, is_walked, probe_steps};
pub use scene::{Row, Scene};
