//! A field: the warriors that are ranked among themselves.
//!
//! `field_of` reads the sources that words stand for, one after the other, and keeps the warrior of each, without its
//! source. It says why a source has no warrior, and leaves it out. Its clause is that the members of the field are the
//! warriors of these files, in their order and none of them left out (`IsField`). `digest_of` tells a field from others,
//! by what its warriors are called and by their load texts.
#![tactic(auto)]

mod digest;
mod field;

pub use digest::{digest_of, label_of};
pub use field::{Member, field_of};
