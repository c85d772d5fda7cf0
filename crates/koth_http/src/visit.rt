//! The bytes of one connection, until what they ask is known.

ghost use Rattle.std.specs.Prelude.{◌≡◌, ◌==◌, ◌+◌, ◌≤◌, ◌++◌, [], length, map, IfOk};
ghost use Rattle.koth_http.specs.{Asked.{FindsAsked, IsAsked, most_bytes}, Tags.IsToldOf};

use crate::asked::{Asked, MOST_BYTES, asked_in, is_known};
use crate::target::cut;
use std::alloc::{AllocError, Allocator};
use std::marker::Model;

/// The bytes of one connection, from its first on.
#[derive(Drop)]
pub struct Visit<A: Allocator> {
    bytes: Vec<u8, A>,
}

impl<A: Allocator> Model for Visit<A> {
    ghost use Rattle.std.specs.Prelude.{◌≤◌, ℕ, List, length, vec_capacity};
    ghost use Rattle.koth_http.specs.Asked.{most_bytes};

    ghost Value = { List ℕ };

    ghost view = { λ v. v.bytes.items };

    ghost invariant = { λ v. (length v.bytes.items ≤ most_bytes) × (most_bytes ≤ vec_capacity v.bytes) };
}

impl<A: Allocator> Visit<A> {
    /// No bytes yet, with room for all that may come. The error is a lack of memory.
    pub fn new(alloc: A) -> Result<Visit<A>, AllocError>
        ensures { IfOk result (λ v. v ≡ []) }
    {
        Ok(Visit {
            bytes: Vec::with_capacity(alloc, MOST_BYTES)?,
        })
    }

    /// Whether no bytes came yet.
    pub fn is_empty(&self) -> bool
        ensures { result ≡ (length self.now == 0) }
    {
        self.bytes.is_empty()
    }

    /// How many more bytes it takes.
    pub fn room(&self) -> usize
        ensures { result + length self.now ≡ most_bytes }
    {
        MOST_BYTES - self.bytes.len()
    }

    /// Takes the bytes that came next. It needs no memory.
    pub fn take(&mut self, bytes: &[u8])
        requires { length self.old + length bytes.now ≤ most_bytes }
        ensures { self.new ≡ self.old ++ bytes.now }
    {
        let _ = self.bytes.extend_from_slice(bytes);
    }

    /// The first line of them that isn't blank, without white space around it: of a request its method, its target and its version.
    pub fn line(&self) -> &[u8] {
        let (line, _) = cut(self.bytes.as_slice().trim_ascii_start(), b'\n');
        line.trim_ascii_end()
    }

    /// What the bytes so far ask of a hill with these names beside its addresses and `localhost`, or nothing while they may become a request.
    /// Whatever follows the head of a request is left alone.
    pub fn asked(&self, names: &[&str]) -> Option<Asked>
        ensures found { FindsAsked (map (λ name. name.now) names.now) self.now result }
        ensures said { IsAsked (map (λ name. name.now) names.now) self.now result }
    {
        asked_in(names, self.bytes.as_slice())
    }

    /// Whether the request names this tag, so that the browser has the text of the tag already.
    pub(crate) fn knows(&self, tag: &[u8]) -> bool
        ensures { IsToldOf self.now tag.now result }
    {
        is_known(self.bytes.as_slice(), tag)
    }
}
