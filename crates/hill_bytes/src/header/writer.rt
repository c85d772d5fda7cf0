//! A sector that is written from its beginning on.

ghost use Rattle.std.specs.{Prelude.{◌≡◌, ◌+◌, ◌≤◌, ◌++◌, ◌∷◌, [], length, replicate}, Int.bytes_high_first};

use byteorder::{BigEndian, ByteOrder};
use std::marker::Model;

/// The bytes that were written so far, at most 512.
#[derive(Debug, Drop)]
pub(crate) struct SectorWriter {
    bytes: [u8; 512],
    len: usize,
}

impl Model for SectorWriter {
    ghost use Rattle.std.specs.Prelude.{◌≤◌, ℕ, List, take};

    ghost Value = { List ℕ };

    ghost view = { λ w. take w.len w.bytes };

    ghost invariant = { λ w. w.len ≤ 512 };
}

impl SectorWriter {
    pub(crate) fn new() -> SectorWriter
        ensures { result ≡ [] }
    {
        SectorWriter {
            bytes: [0; 512],
            len: 0,
        }
    }

    /// Writes bytes after those that are there.
    pub(crate) fn put(&mut self, bytes: &[u8])
        requires { length self.old + length bytes.now ≤ 512 }
        ensures value { self.new ≡ self.old ++ bytes.now }
        ensures len { length self.new ≡ length self.old + length bytes.now }
    {
        let end = self.len + bytes.len();
        self.bytes[self.len..end].copy_from_slice(bytes);
        self.len = end;
    }

    pub(crate) fn put_u8(&mut self, number: u8)
        requires { length self.old + 1 ≤ 512 }
        ensures value { self.new ≡ self.old ++ number ∷ [] }
        ensures len { length self.new ≡ length self.old + 1 }
    {
        self.put(&[number]);
    }

    pub(crate) fn put_u16(&mut self, number: u16)
        requires { length self.old + 2 ≤ 512 }
        ensures value { self.new ≡ self.old ++ bytes_high_first 2 number }
        ensures len { length self.new ≡ length self.old + 2 }
    {
        let mut bytes = [0; 2];
        BigEndian::write_u16(&mut bytes, number);
        self.put(&bytes);
    }

    pub(crate) fn put_u32(&mut self, number: u32)
        requires { length self.old + 4 ≤ 512 }
        ensures value { self.new ≡ self.old ++ bytes_high_first 4 number }
        ensures len { length self.new ≡ length self.old + 4 }
    {
        let mut bytes = [0; 4];
        BigEndian::write_u32(&mut bytes, number);
        self.put(&bytes);
    }

    pub(crate) fn put_u64(&mut self, number: u64)
        requires { length self.old + 8 ≤ 512 }
        ensures value { self.new ≡ self.old ++ bytes_high_first 8 number }
        ensures len { length self.new ≡ length self.old + 8 }
    {
        let mut bytes = [0; 8];
        BigEndian::write_u64(&mut bytes, number);
        self.put(&bytes);
    }

    /// Writes this many zeros, at most 288.
    pub(crate) fn put_zeros(&mut self, count: usize)
        requires few { count ≤ 288 }
        requires room { length self.old + count ≤ 512 }
        ensures value { self.new ≡ self.old ++ replicate count 0 }
        ensures len { length self.new ≡ length self.old + count }
    {
        self.put(&[0; 288][..count]);
    }

    /// The sector, which is written to its end.
    pub(crate) fn into_sector(self) -> [u8; 512]
        requires { length self ≡ 512 }
        ensures { result ≡ self }
    {
        self.bytes
    }
}
