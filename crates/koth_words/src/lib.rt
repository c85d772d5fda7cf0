//! The command line: what the program `koth` may be asked for.
//!
//! What `clap` reads is the crate `koth_options`.
//!
//! - `options`: the numbers that options have; `settings`: the settings that they give;
//! - `requests`: what command lines ask for, and `hills` of a hill;
//! - `given`: what the arguments that `clap` took give a command, `sources` its sources, `contests` what they give one that
//!   plays matches, and `serving` a service or one session; `place`: where a hill elsewhere is; `fraction`: which part
//!   of a work is asked for;
//! - `clear`: what is refused besides `clap`, and `fitting` what of contests; `habits`: options of pMARS that are typed by
//!   habit;
//! - `words`: how arguments become a request.
#![tactic(auto)]

mod clear;
mod contests;
mod fitting;
mod fraction;
mod given;
mod habits;
mod hills;
mod options;
mod place;
mod requests;
mod serving;
mod settings;
mod sources;
mod words;

pub use hills::{Audited, Copied, Creation, Reseeded, Sent, ShownAt, Submission, Way};
pub use options::DEFAULTS;
pub use requests::{
    Assembled, Candidates, Checked, Fighters, Form, Joined, Migration, NoRequest, Part, Ranking,
    Request, Round, Shown, Source, Traced, View, Watched,
};
pub use serving::{STEPS, Service, Session};
pub use settings::{Chosen, Given, given_as};
pub use words::parse;
