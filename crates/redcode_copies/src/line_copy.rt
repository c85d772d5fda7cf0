//! The tokens of a line in a copy of a block.

ghost use Rattle.std.specs.Prelude.{◌≡◌};
ghost use Rattle.{redcode_lines.specs.Views.line_read, redcode_copies.specs.Views.with_tokens};

use redcode_lines::Reading;
use redcode_text::Token;
use std::alloc::Allocator;
use std::marker::Model;

/// The tokens of a line in a copy of a block.
#[derive(Drop)]
pub struct LineCopy<'s, A: Allocator> {
    /// The tokens before the word; none if the line has no word.
    pub(crate) front: Vec<Token<'s>, A>,
    /// The other tokens.
    pub(crate) tokens: Vec<Token<'s>, A>,
}

impl<'s, A: Allocator> Model for LineCopy<'s, A> {
    ghost use Rattle.{redcode_text.specs.Tokens.pieces, redcode_copies.specs.Views.{LineTokens, line_tokens}};

    ghost Value = { LineTokens };

    ghost view = { λ c. line_tokens (pieces c.front.items) (pieces c.tokens.items) };
}

/// How a line reads in a copy of a block: with the tokens of the copy, or as it stands if there are none.
pub fn reading_of<'l, 's, A: Allocator + Copy>(
    line: Reading<'l, 's>,
    copy: &'l Option<LineCopy<'s, A>>,
) -> Reading<'l, 's>
    ensures { line_read result ≡ with_tokens (line_read line.entry) copy.now }
{
    match copy {
        Some(copy) => Reading {
            number: line.number,
            form: line.form,
            word: line.word,
            title: line.title,
            front: copy.front.as_slice(),
            tokens: copy.tokens.as_slice(),
        },
        None => line,
    }
}
