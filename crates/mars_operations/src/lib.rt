//! Operations: what executing an instruction reads, writes and queues.
//!
//! `cells` are those of a core, each a word of 64 bits, and it lists those that were written. An `operand` is evaluated
//! on them without limits. An operation has its `effect` then: MOV is in `copying`, and what others read and make of
//! numbers in `registers`. It queues addresses in a side's `queue`, and an array next to that may hold some of its
//! processes while many turns are made.
//!
//! The main clauses: `evaluate` gives the `operand` of the definition without limits, and `effect` the core and the
//! addresses of the `effect` that is defined. Each says that the core is one again (`IsCore`): it has the core's size,
//! and all numbers are below that. What a queue holds after each of its calls is a list of addresses, at most as many
//! as it may hold.
//!
//! The crate knows nothing of limits, turns, sides and rounds. Only `Core::new` and `Queue::new` take memory, and an
//! operation divides by no core size: what is written out inline there is so for speed.
#![tactic(auto)]

mod cells;
mod copying;
pub mod effect;
mod operand;
mod queue;
mod registers;

pub use cells::Core;
pub use operand::{Operand, evaluate, plain};
pub use queue::{MIDDLE, PLACES, Queue};
