//! A line that is built in place.

ghost use Rattle.std.specs.Prelude.{◌≡◌, ◌+◌, ◌≤◌, ◌++◌, [], length, codes, decimal, vec_capacity, vec_len};
ghost use Rattle.war_types.specs.Fault.{kind_name};

use arrayvec::ArrayVec;
use itoa::Buffer;
use std::alloc::Allocator;
use std::marker::Model;
use war_types::AsmKind;

/// The bytes of a line so far, at most 96. It needs no memory.
#[derive(Drop)]
pub struct Line {
    bytes: ArrayVec<u8, 96>,
}

impl Model for Line {
    ghost use Rattle.std.specs.Prelude.{ℕ, List};

    ghost Value = { List ℕ };

    ghost view = { λ l. l.bytes.items };
}

impl Line {
    /// A line without bytes.
    pub fn new() -> Line
        ensures { result ≡ [] }
    {
        Line {
            bytes: ArrayVec::new(),
        }
    }

    /// Writes bytes after those that are there.
    pub fn put(&mut self, bytes: &[u8])
        requires { length self.old + length bytes.now ≤ 96 }
        ensures value { self.new ≡ self.old ++ bytes.now }
        ensures len { length self.new ≡ length self.old + length bytes.now }
    {
        let _ = self.bytes.try_extend_from_slice(bytes);
    }

    /// Writes a number in decimal digits.
    pub fn put_number(&mut self, number: u64)
        requires { length self.old + 20 ≤ 96 }
        ensures value { self.new ≡ self.old ++ decimal number }
        ensures len { length self.new ≤ length self.old + 20 }
    {
        let mut buffer = Buffer::new();
        self.put(buffer.format(number).as_bytes());
    }

    /// Writes the name of a refusal.
    #[tactic(auto, using(crate::proofs::KindNames::kind_is_short))]
    pub(crate) fn put_kind(&mut self, kind: AsmKind)
        requires { length self.old + 20 ≤ 96 }
        ensures value { self.new ≡ self.old ++ kind_name kind }
        ensures len { length self.new ≤ length self.old + 20 }
    {
        self.put(kind.name().as_bytes());
    }

    /// Appends the line to a text that has room for any line.
    pub fn append_to<A: Allocator>(&self, text: &mut Vec<u8, A>)
        requires { vec_len text.old + 96 ≤ vec_capacity text.old }
        ensures { text.new.items ≡ text.old.items ++ self.now }
    {
        let _ = text.extend_from_slice(self.bytes.as_slice());
    }

    /// The bytes that were put.
    pub fn as_slice(&self) -> &[u8]
        ensures { result.now ≡ self.now }
    {
        self.bytes.as_slice()
    }
}
