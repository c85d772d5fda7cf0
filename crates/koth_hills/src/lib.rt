//! What authors do with a hill in a file: they submit a warrior, try one, look at the hill and make its page.
//!
//! Each command is a function of what the command line asks. It returns an answer, or why there is none, and who calls
//! it delivers that. The files are `koth_files`'. The modules:
//!
//! - `damage`: what is reported about a header that can't be read, before the hill is opened;
//! - `submit`, `trial`, `show`, `page`: a command each; `entry`: one warrior, for `show`;
//! - `settled`: a submission, whose matches are fought once, and the verdict that it had;
//! - `outcome` and `json`: what became of a warrior, for people and as lines of JSON;
//! - `settings`: the settings of a hill, as options that can be pasted, and `width`: how wide a text is;
//! - `reply_status`: how the program ends with a reply.
//!
//! The main clauses: `submit` answers with the line of the reply that this very submission had (`Submitted`), `try`
//! with that of the reply which it would have, and the store is as it was (`Tried`, `unchanged`), and `show` with the
//! table of this store's hill, its settings (`sight_text`), or the load text of one warrior (`SaysWarrior`). A source is what its reader gave, the input or an opened
//! file (`AnswersSource`). Of files no contract can say what they hold.
//!
//! A hill must be opened before a source is read. `try`, `show` and `page` take no lock and write nothing.
#![tactic(auto)]

mod damage;
mod entry;
mod json;
mod outcome;
mod page;
mod reply_status;
mod settings;
mod settled;
mod show;
mod submit;
mod trial;
mod width;

pub use damage::tell_lost_header;
pub use page::perform_page;
pub use show::perform_show;
pub use submit::{REPLY_LINE, Rooms, SourceText, perform_submit, reply_answer};
pub use trial::perform_try;
