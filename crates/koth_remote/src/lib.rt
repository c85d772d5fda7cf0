//! What authors do with a hill elsewhere: they submit a warrior, and look at the table.
//!
//! The client is `koth_client`'s, and what is printed of a reply `koth_hills`'. The modules:
//!
//! - `reach`: a connection to a service, with its limits of time;
//! - `rows`: the lines of a table that came;
//! - `submit`, `show`: a command each.
//!
//! A source is submitted once. If no answer came, the table is asked for on a new connection, and told.
#![tactic(auto)]

mod reach;
mod rows;
mod show;
mod submit;

pub use show::perform_show_to;
pub use submit::perform_submit_to;
