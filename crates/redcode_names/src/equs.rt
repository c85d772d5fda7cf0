//! The names of a source's EQU lines.
#![tactic(auto, using(crate::proofs::Lookups::names))]

ghost use Rattle.std.specs.Prelude.{◌≡◌, ◌++◌, ◌∷◌, [], false, map, take, OnOk};
ghost use Rattle.{redcode_text.specs.Tokens.{piece_of, pieces}, redcode_names.specs.{Equ.{body_at, has_equ, is_equ}, Written.{Stands, bodies_of}}};

use crate::name_key::{NameHash, NameKey};
use indexmap::IndexMap;
use redcode_lines::is_name;
use redcode_text::Token;
use std::alloc::{AllocError, Allocator};
use std::marker::Model;

/// One token more than operands may have.
const MOST_TOKENS: usize = 513;

/// Names with the tokens that they stand for, in the order of their definition.
#[derive(Drop)]
pub struct Equs<'s, A: Allocator + Copy> {
    pub(crate) alloc: A,
    pub(crate) bodies: IndexMap<NameKey<'s>, Vec<Token<'s>, A>, NameHash, A>,
}

impl<'s, A: Allocator + Copy> Model for Equs<'s, A> {
    ghost use Rattle.{std.specs.Prelude.map, redcode_text.specs.Tokens.pieces, redcode_names.specs.{Equ.EquList, Cut.AreKept}};

    ghost Value = { EquList };

    ghost view = { λ e. map (λ entry. (entry.0, pieces entry.1.items)) e.bodies.entries };

    ghost invariant = { λ e. AreKept (map (λ entry. (entry.0, pieces entry.1.items)) e.bodies.entries) };
}

impl<'s, A: Allocator + Copy> Equs<'s, A> {
    /// Whether a name is that of an EQU.
    pub(crate) fn is_equ(&self, name: &[u8]) -> bool
        ensures { result ≡ is_equ self.now name.now }
    {
        self.bodies.contains_key(&NameKey { bytes: name })
    }

    /// Whether the name of an EQU is among the tokens.
    pub fn are_among(&self, tokens: &[Token<'_>]) -> bool
        ensures { result ≡ has_equ self.now (pieces tokens.now) }
    {
        for token in tokens {
            // Paid by the steps of the tokens of a `FOR` that is walked over; no step at the end, when each line's operands are asked once.
            if !self.body_at(token).is_empty() {
                return true;
            }
        }
        false
    }

    /// The index of the EQU that a token names; `None` if it names none.
    pub(crate) fn place_of(&self, token: &Token<'_>) -> Option<usize>
        ensures { Stands self.now (piece_of token.now) result }
    {
        if is_name(token) {
            self.bodies.get_index_of(&NameKey { bytes: token.text })
        } else {
            None
        }
    }

    /// The bodies, in the order of their definition.
    pub(crate) fn bodies(&self) -> &[Vec<Token<'s>, A>]
        ensures { map (λ body. pieces body.items) result.now ≡ bodies_of self.now }
    {
        self.bodies.values().as_slice()
    }

    /// The tokens that a token stands for; none if it is no name of an EQU.
    pub(crate) fn body_at(&self, token: &Token<'_>) -> &[Token<'s>]
        ensures body { pieces result.now ≡ body_at self.now (piece_of token.now) }
        ensures kept { take 513 (body_at self.now (piece_of token.now)) ≡ body_at self.now (piece_of token.now) }
    {
        let _ = &self.alloc;
        match self.place_of(token) {
            Some(place) => self.bodies()[place].as_slice(),
            None => &[],
        }
    }

    /// Adds an EQU of a new name. Of its body no more is kept than shows that it is too long.
    pub(crate) fn add(&mut self, name: &'s [u8], body: &[Token<'s>]) -> Result<(), AllocError>
        requires { is_equ self.old name.now ≡ false }
        ensures { OnOk result (self.new ≡ self.old ++ (name.entry.now, take 513 (pieces body.now)) ∷ []) }
    {
        let name = NameKey { bytes: name };
        let body = Vec::from_slice(self.alloc, kept(body))?;
        self.bodies.insert(name, body)?;
        Ok(())
    }
}

/// No more of the tokens of a body than shows that it is too long.
fn kept<'t, 's>(body: &'t [Token<'s>]) -> &'t [Token<'s>]
    ensures { pieces result.now ≡ take 513 (pieces body.entry.now) }
{
    if body.len() <= MOST_TOKENS {
        body
    } else {
        &body[..MOST_TOKENS]
    }
}
