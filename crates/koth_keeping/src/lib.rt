//! What the keeper of a hill does with its file: makes one, fights its pairs again, copies it, gives it another seed,
//! moves it.
//!
//! Each command is a function of what the command line asks. It returns an answer, or why there is none, and who calls it
//! delivers that. The files are `koth_files`'. The modules:
//!
//! - `seed`: the seed that is drawn, and what is told of the default one;
//! - `create`, `audit`, `copy`, `reseed`, `migrate`: a command each, and `answer`: the answer of one that is done;
//! - `reseeding`: a hill with other settings, to which the warriors of one are submitted.
//!
//! The main clauses: what each command may answer (`MayCreate`, `SaysAudit`, `SaysCopied`, `SaysReseeded`,
//! `MigratesTo`), an audit answers what is true of the hill (`IsAudited`), and a hill that is given another seed is what
//! its warriors earn under that (`IsHolding`). Of files no contract can say what they hold.
#![tactic(auto)]

/// The greatest number of a setting.
macro_rules! greatest {
    ($least:literal, $most:literal) => { $most };
}

mod answer;
mod audit;
mod copy;
mod create;
mod migrate;
mod reseed;
mod reseeding;
mod seed;

pub use audit::perform_audit;
pub use copy::perform_copy;
pub use create::perform_create;
pub use migrate::perform_migrate;
pub use reseed::perform_reseed;
pub use seed::{drawn_seed, made_settings, seed_hint};
