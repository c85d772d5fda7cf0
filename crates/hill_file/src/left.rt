//! Which hill a service goes on with after its device failed.

ghost use Rattle.std.specs.Prelude.{◌≡◌, ◌≢◌, true, false};

use crate::sector_file::Headers;
use hill_bytes::decode_header;

/// Whether a file with the headers `found` holds a hill, and not the one that was left with the headers `left`: neither
/// as it was left, nor with a submission more.
pub fn is_another_hill(left: &Headers, found: &Headers) -> bool
    ensures same { found.now ≡ left.now → result ≡ false }
{
    holds_a_hill(found) && !keeps_newest(left, found)
}

/// Whether one of these is a header.
fn holds_a_hill(headers: &Headers) -> bool {
    generation_at(0, &headers.even).is_some() || generation_at(1, &headers.odd).is_some()
}

/// Whether the newest of the headers that were left stands in its sector still. A submission writes the other one.
fn keeps_newest(left: &Headers, found: &Headers) -> bool
    ensures same { found.now ≡ left.now → result ≡ true }
    ensures other { found.now.even ≢ left.now.even → found.now.odd ≢ left.now.odd → result ≡ false }
{
    if is_odd_newest(left) {
        found.odd == left.odd
    } else {
        found.even == left.even
    }
}

/// Whether the second of these is the newest.
fn is_odd_newest(headers: &Headers) -> bool {
    match (
        generation_at(0, &headers.even),
        generation_at(1, &headers.odd),
    ) {
        (Some(even), Some(odd)) => even < odd,
        (None, odd) => odd.is_some(),
        (Some(_), None) => false,
    }
}

/// The generation of the header in this sector, if there is one of the sector's parity.
fn generation_at(n: u64, sector: &[u8; 512]) -> Option<u64> {
    let generation = decode_header(sector)?.generation();
    if generation % 2 == n {
        Some(generation)
    } else {
        None
    }
}
