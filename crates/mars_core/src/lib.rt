//! The machine of Core War: a core, the processes of two warriors, turns and rounds.
//!
//! A round passes through the modules in this order. `arena` owns the core and both queues. It loads two warriors
//! (`load`) into the cells, and makes turns: without limits by the loop in `pass`, which finds the code of an
//! instruction's kind by `handled`, or else by `modes` and `operations`; all of that code is in `handlers`, by the
//! constants of `kinds`. Turns with limits, and single ones, are made by the loop in `turn`. A turn takes a process
//! from its queue, in `pass` from a `window` before it. In `turn` the instruction has its `execution`, by operands that
//! `limits` evaluates, those without limits too. `round` has the types. `touchable` lists the cells that a turn may
//! change. `laws` is a law of the definitions. Cells, queues, operands without limits and operations are in the crate
//! `mars_operations`; words, the pairs of a modifier, and sums and differences in a core are in `mars_words`.
//!
//! The main clauses: `begin` makes the round `opening`, `turn` the round `after_turn`, and `play` plays on until the
//! round is over, at most twice the cycles. Each says that the arena is a round again (`IsRound`): its core has the
//! core's size, all numbers are below it, and each queue has at most the settings' processes.
//!
//! The crate knows nothing of sources, matches or hills. Only `Arena::new` takes memory, and a turn divides by no core
//! size: what is written out inline there is so for speed.
#![tactic(auto)]

mod arena;
mod execution;
mod handled;
mod handlers;
mod kinds;
mod laws;
mod limits;
mod load;
mod modes;
mod operations;
mod pass;
mod round;
mod touchable;
mod turn;
mod window;

pub use arena::Arena;
pub use laws::laws_of_limits;
pub use round::{Outcome, Side, Turned};
