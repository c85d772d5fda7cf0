//! The part of a line that is shown.

use redcode_lines::{Span, part_of};

/// Most characters of a line that are shown.
const MOST: u32 = 100;

/// Most of these that are shown before the place of a fault, unless the line ends soon after it.
const MOST_BEFORE: u32 = 40;

/// The part of a line that is shown around the byte after `from` others: all of it if it has 100 characters at most.
pub(crate) fn excerpt_of(line: &[u8], from: u32) -> Span {
    let before = part_of(
        line,
        Span {
            from: 0,
            width: from,
        },
    );
    let nearest = bytes_in(before).saturating_sub(last_bytes(before, MOST_BEFORE));
    let latest = bytes_in(line).saturating_sub(last_bytes(line, MOST));
    let from = nearest.min(latest);
    let rest = Span {
        from,
        width: u32::MAX,
    };
    Span {
        from,
        width: first_bytes(part_of(line, rest), MOST),
    }
}

/// The first characters of a text, and whether there are more.
pub(crate) fn beginning_of(text: &[u8]) -> (&[u8], bool) {
    let width = first_bytes(text, MOST);
    (
        part_of(text, Span { from: 0, width }),
        width < bytes_in(text),
    )
}

/// Whether a byte is the first of a character's UTF-8.
pub(crate) fn begins_character(byte: u8) -> bool {
    byte & 0xc0 != 0x80
}

/// Bytes of a text.
pub(crate) fn bytes_in(text: &[u8]) -> u32 {
    u32::try_from(text.len()).unwrap_or(u32::MAX)
}

/// Bytes of the first `most` characters of a text, or of all.
fn first_bytes(text: &[u8], most: u32) -> u32 {
    let mut bytes: u32 = 0;
    let mut characters: u32 = 0;
    for byte in text {
        if begins_character(*byte) {
            if characters >= most {
                return bytes;
            }
            characters = characters.saturating_add(1);
        }
        bytes = bytes.saturating_add(1);
    }
    bytes
}

/// Bytes of the last `most` characters of a text, or of all.
fn last_bytes(text: &[u8], most: u32) -> u32 {
    let mut bytes: u32 = 0;
    let mut characters: u32 = 0;
    for byte in text.iter().rev() {
        if characters >= most {
            return bytes;
        }
        bytes = bytes.saturating_add(1);
        if begins_character(*byte) {
            characters = characters.saturating_add(1);
        }
    }
    bytes
}
