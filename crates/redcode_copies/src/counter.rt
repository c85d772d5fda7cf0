//! The counters of blocks.

ghost use Rattle.std.specs.Prelude.{◌≡◌, IfOk};
ghost use Rattle.{redcode_text.specs.Tokens.{piece_of, pieces}, redcode_copies.specs.Counter.{joined, number_token}};

use bumpalo::Bump;
use bumpalo::collections::into_bump_slice;
use itoa::Buffer;
use redcode_lines::{has_text, is_name};
use redcode_text::{Token, TokenKind};
use std::alloc::{AllocError, Allocator};
use std::marker::Model;

/// A name that stands for the number of a copy.
#[derive(Drop)]
pub struct Counter<'s> {
    pub name: &'s [u8],
    pub number: u64,
}

impl<'s> Model for Counter<'s> {
    ghost use Rattle.redcode_copies.specs.Counter.{Counter, counter_of};

    ghost Value = { Counter };

    ghost view = { λ c. counter_of c.name.now c.number };
}

/// A token, and whether it is a name that was joined.
#[derive(Drop)]
pub(crate) struct Joined<'s> {
    pub is_joined: bool,
    pub token: Token<'s>,
}

impl<'s> Model for Joined<'s> {
    ghost use Rattle.{std.specs.Prelude.Bool, redcode_text.specs.Tokens.{Piece, piece_of}};

    ghost Value = { Bool × Piece };

    ghost view = { λ j. (j.is_joined, piece_of j.token) };
}

impl<'s> Counter<'s> {
    ghost use Rattle.std.specs.Prelude.{◌≡◌, ◌++◌, decimal, IfOk, OnOk};
    ghost use Rattle.{redcode_text.specs.Tokens.{piece_of, pieces}, redcode_copies.specs.Counter.{counter_of, is_counter, joined_name, joins, number_or, number_token, two_digits}};

    /// A counter of this name in the copy of this number.
    pub fn new(name: &'s [u8], number: u64) -> Counter<'s>
        ensures { result ≡ counter_of name.entry.now number }
    {
        Counter { name, number }
    }

    /// Whether a token is this counter.
    fn is_counter(&self, token: &Token<'_>) -> bool
        ensures { result ≡ is_counter self.now (piece_of token.now) }
    {
        is_name(token) && token.text == self.name
    }

    /// Whether the tokens that follow join this one to the number.
    pub(crate) fn joins(&self, token: &Token<'_>, behind: &[Token<'_>]) -> bool
        ensures { result ≡ joins self.now (piece_of token.now) (pieces behind.now) }
    {
        match behind {
            [next, after, ..] => is_name(token) && has_text(next, b"&") && self.is_counter(after),
            _ => false,
        }
    }

    /// A name followed by this counter's number, in two decimal digits at least.
    pub(crate) fn joined_name<A: Allocator>(
        &self,
        region: &'s Bump<A>,
        name: &Token<'s>,
    ) -> Result<Token<'s>, AllocError>
        ensures { IfOk result (λ joined. piece_of joined ≡ joined_name self.now (piece_of name.now)) }
    {
        let mut buffer = Buffer::new();
        let digits = buffer.format(self.number).as_bytes();
        let room = name.text.len().saturating_add(digits.len().max(2));
        let mut text = Vec::with_capacity(region, room)?;
        match self.append_joined(name.text, digits, &mut text) {
            Ok(()) => Ok(Token {
                kind: TokenKind::Name,
                text: into_bump_slice(text),
                at: name.at,
            }),
            Err(error) => Err(error),
        }
    }

    /// Appends a name and this counter's number, whose decimal digits these are.
    fn append_joined<A: Allocator>(
        &self,
        name: &[u8],
        digits: &[u8],
        text: &mut Vec<u8, A>,
    ) -> Result<(), AllocError>
        requires { digits.now ≡ decimal self.now.number }
        ensures { OnOk result (text.new.items ≡ text.old.items ++ (name.now ++ two_digits self.now.number)) }
    {
        text.extend_from_slice(name)?;
        if self.number < 10 {
            text.push(b'0')?;
        }
        text.extend_from_slice(digits)?;
        Ok(())
    }

    /// The number if a token is this counter and was not joined, else the token.
    pub(crate) fn number_or<A: Allocator>(
        &self,
        region: &'s Bump<A>,
        joined: &Joined<'s>,
    ) -> Result<Token<'s>, AllocError>
        ensures { IfOk result (λ token. piece_of token ≡ number_or self.now joined.now) }
    {
        if joined.is_joined || !self.is_counter(&joined.token) {
            return Ok(joined.token);
        }
        number_token(region, self.number, joined.token.at)
    }
}

/// A number as a token.
pub(crate) fn number_token<'s, A: Allocator>(
    region: &'s Bump<A>,
    number: u64,
    at: u32,
) -> Result<Token<'s>, AllocError>
    ensures { IfOk result (λ token. piece_of token ≡ number_token number) }
{
    let text = region.try_alloc_slice_copy(Buffer::new().format(number).as_bytes())?;
    Ok(Token {
        kind: TokenKind::Number,
        text,
        at,
    })
}
