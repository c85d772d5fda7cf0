//! The line protocol, as far as it needs no store: commands come in as bytes, and lines go out.
//!
//! It knows two streams and a hill with its rows, and no device, words, files or sockets. The modules, in the order in
//! which the data pass:
//!
//! - `counted`: a stream that counts its faults, and a text that is written whole over it;
//! - `kept`, `request` and `script`: what is kept of a line and of a source, which line a browser sends, and which
//!   command each byte brings to its end;
//! - `table` and `matches`: the table of a hill, and who won how many rounds against whom.
//!
//! The line of a source that is refused, and the reads and writes that no signal ends, are `koth_text`'s. This crate
//! passes them on.
//!
//! `Script::take` finds the commands that the bytes so far hold by `commands_of`, and no other (`Reads`). It keeps
//! 65,540 bytes of a line and of a source, since a source past its limit is refused whatever else it has. `send` writes
//! exactly the text, or a part of it if the output fails. A stream is blamed only if its count of faults rose.
//!
//! Only the two buffers of a script, the texts of a table and of matches, and the rows of a hill for the matches take
//! memory.
#![tactic(auto)]

mod counted;
mod kept;
mod matches;
mod request;
mod script;
mod table;

pub use counted::{Counted, ReadFault, WriteFault, send};
pub use koth_text::{Line, read_uninterrupted, refusal_line, write_uninterrupted};
pub use matches::matches_text;
pub use script::{Met, Script};
pub use table::show_text;
