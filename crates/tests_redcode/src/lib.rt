//! Tests of the public calls of `redcode_text`, `redcode_expand` and `redcode_asm`: of what no clause of them says and the program can't show.
//!
//! What the program answers to sources, and what people are told of these, are rows in `bench/rows`, which `bench/sources` compares.
//! No crate stands on this one, so a check of the crates above waits for none of these tests. A module a subject:
//!
//! - `tokens`: the tokens of lines and their places, and the values of expressions;
//! - `expansion`: the lines that sources are written out to, and their labels;
//! - `printer`: the load text of codes made by hand;
//! - `steps`: the steps that an assembly may take;
//! - `growths`: calls that are refused memory, and those that need none;
//! - `sources`: the settings and the sources that these share;
//! - `expecting`: how the tests compare.
//!
//! What a contract says is proved there and not tried here.
#![tactic(auto)]

#[cfg(test)]
mod expansion;
#[cfg(test)]
mod expecting;
#[cfg(test)]
mod growths;
#[cfg(test)]
mod printer;
#[cfg(test)]
mod sources;
#[cfg(test)]
mod steps;
#[cfg(test)]
mod tokens;
