//! Redcode as text: the tokens of a line, the vocabulary, and the values of expressions.
//!
//! Data passes through the modules in this order: `scanner` cuts a line into tokens (`token`); `vocabulary` says which word, modifier or
//! mode a token names, and spells these; `expression` gives the value of tokens. It asks `names` what a name stands for, and has
//! `operator` work on values.
//!
//! The main clauses: `scan` answers the one list of tokens that a line has (`IsTokensOf` of `Tokens` in `specs`). `word_of` is the table
//! of `Vocabulary`. `value` is the value of `Value`, whatever names stand for.
//!
//! Nothing here knows what a line is for. Only `scan` takes memory.
#![tactic(auto)]

mod expression;
mod names;
mod operator;
mod scanner;
mod token;
mod vocabulary;

pub use expression::value;
pub use names::Names;
pub use scanner::scan;
pub use token::{Token, TokenKind};
pub use vocabulary::{
    Word, is_word, mode_named, mode_text, modifier_named, modifier_text, op_text, word_of,
};
pub use war_types::is_blank;
