//! Numbers at a place of stored bytes: each is read back as it was written.

ghost use Rattle.std.specs.{Prelude.{◌≡◌, ◌+◌, ◌^◌, ◌≤◌, ◌<◌, ◌++◌, ◌∷◌, ℕ, List, length, drop}, Int.bytes_high_first};

use byteorder::{BigEndian, ByteOrder};

pub(crate) fn u16_at(bytes: &[u8], at: usize) -> u16
    requires { at + 2 ≤ length bytes.now }
    ensures { (n : ℕ) (rest : List ℕ) → n < 2 ^ 16 → drop at bytes.now ≡ bytes_high_first 2 n ++ rest → result ≡ n }
{
    BigEndian::read_u16(&bytes[at..])
}

pub(crate) fn u32_at(bytes: &[u8], at: usize) -> u32
    requires { at + 4 ≤ length bytes.now }
    ensures { (n : ℕ) (rest : List ℕ) → n < 2 ^ 32 → drop at bytes.now ≡ bytes_high_first 4 n ++ rest → result ≡ n }
{
    BigEndian::read_u32(&bytes[at..])
}

pub(crate) fn u64_at(bytes: &[u8], at: usize) -> u64
    requires { at + 8 ≤ length bytes.now }
    ensures { (n : ℕ) (rest : List ℕ) → n < 2 ^ 64 → drop at bytes.now ≡ bytes_high_first 8 n ++ rest → result ≡ n }
{
    BigEndian::read_u64(&bytes[at..])
}

pub(crate) fn u8_at(bytes: &[u8], at: usize) -> u8
    requires { at < length bytes.now }
    ensures { (n : ℕ) (rest : List ℕ) → drop at bytes.now ≡ n ∷ rest → result ≡ n }
{
    bytes[at]
}
