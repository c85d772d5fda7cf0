//! What commands answer to programs as JSON: one object a line, no value of which is an object or an array; and a hill
//! as one object, with its warriors as an array.
//!
//! `string` puts a string for any bytes, `object` the line of an object, whose fields have the names of `key`. On these
//! are the lines of commands: `contest` has those of `fight`, `hill` of `show`, `reply` of `submit`, `try` and `audit`,
//! `finding` of `check` and of a source that is refused. `data` puts the object of a hill, of the same fields.
//!
//! Each clause gives the whole line by a definition of `specs`. `proofs/ReadsBack` shows that such a line is the JSON
//! of its fields, by the grammar of the crate `json`. It knows no store, files or streams. The error of all is lack of
//! memory.
#![tactic(auto)]

mod contest;
mod data;
mod finding;
mod hill;
mod key;
mod object;
mod reply;
mod string;

pub use contest::{Contender, Round, put_match, put_ranked, put_round, put_sum};
pub use data::data_text;
pub use finding::{Copied, Finding, Severity, put_finding, put_refused};
pub use hill::{hill_text, put_bouts};
pub use reply::{put_audit, put_fell, put_judged, put_least, put_placed, put_standing, put_worn};
