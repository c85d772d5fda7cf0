//! The other side of a session: what a client sends to a hill elsewhere, and what is answered.
//!
//! It is generic over a reader and a writer, and knows no socket, no file and no words of a command line. The modules, in
//! the order in which data pass:
//!
//! - `sending`: a source as a session is sent it, and the line that asks for the table;
//! - `coming`: what comes in answer, 1,048,576 bytes at most, and why no more is read;
//! - `reply`: the reply to a submission, as its line has it;
//! - `asking`: one submission, or one look at the table.
//!
//! What is sent is one command and `QUIT`, by the definitions by which sessions and services read them (`AsksAlone`): a
//! submission of the lines of the source, each without a carriage return at its end (`lines_taken`). What is told is what
//! came (`told`), and a reply is told if what came begins with its line (`IsReply`). It must not submit twice: of its text
//! it writes the beginning or all, and nothing after it (`asks`).
#![tactic(auto)]

mod asking;
mod coming;
mod reply;
mod sending;

pub use asking::{ask_table, submit};
pub use coming::{Ending, Told};
pub use sending::{TABLE_TEXT, submission_text};
