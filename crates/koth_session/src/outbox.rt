//! The answers of a peer that aren't sent yet.

ghost use Rattle.std.specs.Prelude.{◌≡◌, ◌+◌, ◌≤◌, ◌++◌, [], drop, length, IfOk, IsOk, OnOk};

use crate::waiting::drop_front;
use std::alloc::{AllocError, Allocator};
use std::marker::Model;

/// The most bytes of answers that may be unsent.
pub(crate) const UNSENT_MOST: usize = 1_048_576;

/// The most bytes that the line of a reply takes.
pub(crate) const REPLY_MOST: usize = 96;

/// The answers in their order, 1,048,576 bytes at most.
#[derive(Drop)]
pub(crate) struct Outbox<A: Allocator> {
    bytes: Vec<u8, A>,
    sent: usize,
}

impl<A: Allocator> Model for Outbox<A> {
    ghost use Rattle.std.specs.Prelude.{◌+◌, ◌-◌, ◌≤◌, length, drop, vec_capacity};
    ghost use Rattle.koth_session.specs.Outbox.{Outgoing};

    ghost Value = { Outgoing };

    ghost view = { λ o. record {
      unsent = drop o.sent o.bytes.items;
      spare = vec_capacity o.bytes - length
          o.bytes.items;
    } };

    ghost invariant = { λ o. (o.sent + o.sent ≤ length o.bytes.items) × (length o.bytes.items - o.sent ≤ 1048576)
        × (96 ≤ vec_capacity o.bytes) };
}

impl<A: Allocator> Outbox<A> {
    /// No answers, and memory for the line of a reply. `AllocError` comes if a growth of memory is refused.
    pub(crate) fn new(alloc: A) -> Result<Outbox<A>, AllocError>
        ensures { IfOk result (λ outbox. outbox.unsent ≡ []) }
    {
        Ok(Outbox {
            bytes: Vec::with_capacity(alloc, REPLY_MOST)?,
            sent: 0,
        })
    }

    /// How many more bytes may be unsent.
    pub(crate) fn room(&self) -> usize
        ensures { result + length self.now.unsent ≡ 1048576 }
    {
        UNSENT_MOST - (self.bytes.len() - self.sent)
    }

    /// Takes memory for an answer of `count` bytes. `AllocError` comes if a growth of memory is refused; none is needed
    /// for the line of a reply while nothing is unsent.
    pub(crate) fn reserve(&mut self, count: usize) -> Result<(), AllocError>
        ensures same { self.new.unsent ≡ self.old.unsent }
        ensures spare { OnOk result (count ≤ self.new.spare) }
        ensures first { count ≤ 96 → self.old.unsent ≡ [] → IsOk result }
    {
        self.bytes.reserve(count)
    }

    /// Puts an answer after the others. It needs no memory.
    pub(crate) fn put(&mut self, answer: &[u8])
        requires spare { length answer.now ≤ self.old.spare }
        requires room { length self.old.unsent + length answer.now ≤ 1048576 }
        ensures { self.new.unsent ≡ self.old.unsent ++ answer.now }
    {
        let _ = self.bytes.extend_from_slice(answer);
    }

    /// The answers that are unsent.
    pub(crate) fn as_slice(&self) -> &[u8]
        ensures value { result.now ≡ self.now.unsent }
        ensures most { length result.now ≤ 1048576 }
    {
        &self.bytes.as_slice()[self.sent..]
    }

    /// `count` bytes were sent. What was sent is dropped once it is as much as what is unsent, so at most one byte is
    /// moved for each byte sent.
    pub(crate) fn pass(&mut self, count: usize)
        requires { count ≤ length self.old.unsent }
        ensures { self.new.unsent ≡ drop count self.old.unsent }
    {
        self.sent += count;
        if self.sent >= self.bytes.len() - self.sent {
            drop_front(&mut self.bytes, self.sent);
            self.sent = 0;
        }
    }
}
