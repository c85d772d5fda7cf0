//! The bytes of an answer to a browser that didn't go out yet.

ghost use Rattle.std.specs.Prelude.{◌≡◌, ◌≤◌, drop, length};

use std::alloc::Allocator;
use std::marker::Model;

/// An answer, of which `sent` bytes went out.
#[derive(Drop)]
pub(crate) struct Unsent<A: Allocator> {
    answer: Vec<u8, A>,
    sent: usize,
}

impl<A: Allocator> Model for Unsent<A> {
    ghost use Rattle.std.specs.Prelude.{◌≤◌, ℕ, List, drop, length};

    ghost Value = { List ℕ };

    ghost view = { λ u. drop u.sent u.answer.items };

    ghost invariant = { λ u. u.sent ≤ length u.answer.items };
}

impl<A: Allocator> Unsent<A> {
    /// The whole answer.
    pub(crate) fn new(answer: Vec<u8, A>) -> Unsent<A>
        ensures { result ≡ answer.items }
    {
        Unsent { answer, sent: 0 }
    }

    pub(crate) fn as_slice(&self) -> &[u8]
        ensures { result.now ≡ self.now }
    {
        &self.answer.as_slice()[self.sent..]
    }

    /// `count` more bytes went out.
    pub(crate) fn pass(&mut self, count: usize)
        requires { count ≤ length self.old }
        ensures { self.new ≡ drop count self.old }
    {
        self.sent += count;
    }
}
