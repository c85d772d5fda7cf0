//! Bytes that came and aren't read yet.

ghost use Rattle.std.specs.Prelude.{◌≡◌, ◌+◌, ◌-◌, ◌≤◌, ◌++◌, [], ◌∷◌, drop, length, vec_capacity, IfOk, MatchOption};

use std::alloc::{AllocError, Allocator};
use std::marker::Model;

/// The most bytes that may wait.
pub(crate) const WAITING_MOST: usize = 4096;

/// The bytes in the order in which they came, 4096 at most.
#[derive(Drop)]
pub(crate) struct Waiting<A: Allocator> {
    bytes: Vec<u8, A>,
    read: usize,
}

impl<A: Allocator> Model for Waiting<A> {
    ghost use Rattle.std.specs.Prelude.{◌≤◌, ℕ, List, length, drop, vec_capacity};

    ghost Value = { List ℕ };

    ghost view = { λ w. drop w.read w.bytes.items };

    ghost invariant = { λ w. (w.read ≤ length w.bytes.items) × (length w.bytes.items ≤ 4096)
        × (4096 ≤ vec_capacity w.bytes) };
}

impl<A: Allocator> Waiting<A> {
    /// No bytes, with room for all that may wait.
    pub(crate) fn new(alloc: A) -> Result<Waiting<A>, AllocError>
        ensures { IfOk result (λ waiting. waiting ≡ []) }
    {
        Ok(Waiting {
            bytes: Vec::with_capacity(alloc, WAITING_MOST)?,
            read: 0,
        })
    }

    /// How many bytes may come now.
    pub(crate) fn room(&self) -> usize
        ensures { result + length self.now ≡ 4096 }
    {
        WAITING_MOST - (self.bytes.len() - self.read)
    }

    /// Bytes came. It needs no memory.
    pub(crate) fn put(&mut self, more: &[u8])
        requires { length more.now ≤ 4096 - length self.old }
        ensures { self.new ≡ self.old ++ more.now }
    {
        drop_front(&mut self.bytes, self.read);
        self.read = 0;
        let _ = self.bytes.extend_from_slice(more);
    }

    /// Takes the next byte.
    pub(crate) fn next(&mut self) -> Option<u8>
        ensures { MatchOption result ((self.old ≡ []) × (self.new ≡ [])) (λ byte. self.old ≡ byte ∷ self.new) }
    {
        if self.read == self.bytes.len() {
            return None;
        }
        let byte = self.bytes[self.read];
        self.read += 1;
        Some(byte)
    }
}

/// Drops the first `count` bytes. It needs no memory.
pub(crate) fn drop_front<A: Allocator>(bytes: &mut Vec<u8, A>, count: usize)
    requires { count ≤ length bytes.old.items }
    ensures items { bytes.new.items ≡ drop count bytes.old.items }
    ensures capacity { vec_capacity bytes.new ≡ vec_capacity bytes.old }
{
    let _ = bytes.drain(..count);
}
