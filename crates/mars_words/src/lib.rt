//! Words: what the cells of the machine of Core War hold, and the numbers of their instructions.
//!
//! A `word` packs an instruction, the number of its handler (`kinds` has those that have one) and a mark into 64 bits;
//! the mark is for a core that lists the cells that were written. A `field` names one of an instruction's two numbers,
//! and the pairs of a modifier are of fields. `size` is the number of a core's cells, with sums, differences and
//! pointers in it; what an operation makes of two numbers is there too, by its `arithmetic`.
//!
//! The main clauses: `of` makes the word of an instruction without a mark. `instr`, `op`, `modifier`, `a_mode`,
//! `b_mode` and `number` read it back, `operation` and `modes` two parts at once. `with_number` and `marked` change one
//! part and leave the others, and `handler` is that of the kind (`handler_of`). What `plus`, `minus`, `combined` and
//! `folded` answer is what the definitions of these names make in a core of that size, and below it.
//!
//! The crate knows nothing of cores, processes and turns. It takes no memory, and a sum or a difference divides
//! nothing: what is written out inline there is so for speed.
#![tactic(auto)]

mod arithmetic;
mod field;
mod kinds;
mod size;
mod word;

pub use arithmetic::Arithmetic;
pub use field::{Field, Pair, Paired, pairs};
pub use size::Size;
pub use word::{Word, mode_at, modifier_at, op_at};
