//! The first bytes of a text that may be longer than there is room for.

ghost use Rattle.std.specs.Prelude.{◌≡◌, ◌++◌, [], length, IfOk};
ghost use Rattle.koth_protocol.specs.Kept.{kept};

use std::alloc::{AllocError, Allocator};
use std::marker::Model;

/// Bytes that are kept. 65,537 bytes are enough to refuse a source. Three more leave room for what a line loses before
/// it enters its source, its dot and its carriage return. So what is cut off after them changes no answer.
const ROOM: usize = 65_540;

/// The first 65,540 bytes of what was put in.
#[derive(Drop)]
pub(crate) struct Kept<A: Allocator> {
    bytes: Vec<u8, A>,
}

impl<A: Allocator> Model for Kept<A> {
    ghost use Rattle.std.specs.Prelude.{◌≤◌, ℕ, List, length, vec_capacity};

    ghost Value = { List ℕ };

    ghost view = { λ k. k.bytes.items };

    ghost invariant = { λ k. (length k.bytes.items ≤ 65540) × (65540 ≤ vec_capacity k.bytes) };
}

impl<A: Allocator> Kept<A> {
    /// Nothing, with room for all that is kept.
    pub(crate) fn new(alloc: A) -> Result<Kept<A>, AllocError>
        ensures { IfOk result (λ k. k ≡ []) }
    {
        Ok(Kept {
            bytes: Vec::with_capacity(alloc, ROOM)?,
        })
    }

    /// Puts bytes in after the others. It needs no memory.
    pub(crate) fn put(&mut self, more: &[u8])
        ensures { self.new ≡ kept (self.old ++ more.now) }
    {
        let count = (ROOM - self.bytes.len()).min(more.len());
        let _ = self.bytes.extend_from_slice(&more[..count]);
    }

    pub(crate) fn clear(&mut self)
        ensures { self.new ≡ [] }
    {
        self.bytes.clear();
    }

    pub(crate) fn as_slice(&self) -> &[u8]
        ensures { result.now ≡ self.now }
    {
        self.bytes.as_slice()
    }
}
