//! What a service tells of what happens on it: the lines of its log as objects of JSON.
//!
//! `string` puts a string for any bytes, in ASCII: each byte is the character of its number, so what a browser sent can
//! be read back. `object` puts the line of an object, whose fields have the names of `key`. On these are the lines of
//! `logged`.
//!
//! Each clause gives the whole line by a definition of `specs`. It knows no hill, store, clock or streams. The error of
//! all is lack of memory.
#![tactic(auto)]

mod key;
mod logged;
mod object;
mod string;

pub use logged::{
    Asking, Judged, When, Whom, put_asked, put_dropped, put_fault, put_happened, put_noted,
    put_outcome,
};
