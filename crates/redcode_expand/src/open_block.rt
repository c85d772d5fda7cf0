//! Blocks whose copies are being written.

use redcode_copies::Counter;
use std::marker::Model;

/// A block whose copies are being written.
#[derive(Drop)]
pub(crate) struct OpenBlock<'s> {
    /// The number of its `FOR` line.
    pub number: u32,
    pub counter: Counter<'s>,
    /// Copies after the one that is being written.
    pub left: u64,
    /// Lines counted before this copy.
    pub start: u32,
    /// The index of the first line of its body.
    pub body: usize,
}

impl<'s> Model for OpenBlock<'s> {
    ghost use Rattle.std.specs.Prelude.{◌+◌, ◌<◌, ◌^◌};
    ghost use Rattle.redcode_expand.specs.Rest.{OpenBlock, open_block};

    ghost Value = { OpenBlock };

    ghost view = { λ b. open_block b.number b.counter b.left b.start b.body };

    ghost invariant = { λ b. b.counter.number + b.left < 2 ^ 63 };
}

impl<'s> OpenBlock<'s> {
    ghost use Rattle.std.specs.{Prelude.{◌≡◌, ◌+◌, ◌-◌, ◌<◌, ◌^◌}, Str.bytes_eq};
    ghost use Rattle.{redcode_copies.specs.Counter.counter_of, redcode_expand.specs.Rest.open_block};

    /// The first copy of a block, with `left` copies after it.
    pub(crate) fn new(
        number: u32,
        name: &'s [u8],
        left: u64,
        start: u32,
        body: usize,
    ) -> OpenBlock<'s>
        requires { left + 1 < 2 ^ 63 }
        ensures { result ≡ open_block number (counter_of name.entry.now 1) left start body }
    {
        OpenBlock {
            number,
            counter: Counter::new(name, 1),
            left,
            start,
            body,
        }
    }

    /// The name of its counter.
    pub(crate) fn name(&self) -> &'s [u8]
        ensures name { result.now ≡ self.now.counter.name }
        ensures few { self.now.counter.number < 2 ^ 63 }
    {
        self.counter.name
    }

    /// Whether its counter has this name.
    pub(crate) fn is_named(&self, name: &[u8]) -> bool
        ensures { result ≡ bytes_eq name.now self.now.counter.name }
    {
        name == self.counter.name
    }

    /// The number of the copy that is being written.
    pub(crate) fn copy(&self) -> u64
        ensures number { result ≡ self.now.counter.number }
        ensures few { result < 2 ^ 63 }
    {
        self.counter.number
    }

    /// The next copy, with `start` lines counted before it.
    pub(crate) fn next_copy(self, start: u32) -> OpenBlock<'s>
        requires { 0 < self.left }
        ensures { result ≡ open_block self.entry.number (counter_of self.entry.counter.name (self.entry.counter.number + 1)) (self.entry.left - 1) start self.entry.body }
    {
        let number = self.counter.number + 1;
        OpenBlock {
            number: self.number,
            counter: Counter::new(self.counter.name, number),
            left: self.left - 1,
            start,
            body: self.body,
        }
    }
}
