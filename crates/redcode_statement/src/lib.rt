//! What the word of a line and the tokens after it say, and how the line of an instruction is written.
//!
//! Data passes through the modules in this order: `operand` parts the operands at the commas, and reads of each a mode and the
//! value of an expression. `instruction` puts these together, or answers the first fault. `statement` says what an `ORG`, an `END`
//! and an assertion say. `line` goes the other way: it writes an instruction.
//!
//! The main clauses: `instruction_of` and the statements are the definitions of `Instruction` and `Statement` in `specs`, in terms
//! of what the names stand for. `append_line` appends the text of `InstrLine`.
//!
//! Nothing here knows a source or its labels. Only `append_line` takes memory.
#![tactic(auto)]

mod instruction;
mod line;
mod operand;
mod statement;

pub use instruction::instruction_of;
pub use line::append_line;
pub use statement::{Statement, assert_said, end_said, has_bad_token, org_said, other_said};
