//! A text as a terminal may have it.

ghost use Rattle.std.specs.Prelude.{◌≡◌, ◌≤◌, ◌++◌, length, OnOk};
ghost use Rattle.redcode_lines.specs.Shown.{acted_width, is_acted_on, is_acted_on_one, is_acted_on_three, is_acted_on_two, goes_on, shown_text};

use crate::source::behind;
use std::alloc::{AllocError, Allocator};

/// Whether a terminal acts upon the character of this number: a control character, U+0080 to U+009F included, or a mark or an override
/// of the direction in which a text is written.
pub fn is_acted_on(character: u32) -> bool
    ensures { result ≡ is_acted_on character }
{
    matches!(
        character,
        0..=0x1F | 0x7F..=0x9F | 0x200E..=0x200F | 0x202A..=0x202E | 0x2066..=0x2069
    )
}

/// Appends a text with a question mark for each character that a terminal acts upon, but for the tab.
pub fn append_shown<A: Allocator>(shown: &mut Vec<u8, A>, text: &[u8]) -> Result<(), AllocError>
    ensures { OnOk result (shown.new.items ≡ shown.old.items ++ shown_text text.now) }
{
    let mut rest = text;
    // For messages; no assembly comes here.
    while let [first, others @ ..] = rest {
        let width = acted_width(rest);
        if width == 0 {
            shown.push(*first)?;
            rest = others;
        } else {
            shown.push(b'?')?;
            rest = behind(width, rest);
        }
    }
    Ok(())
}

/// The bytes of the character at the front that a terminal acts upon; 0 if it acts upon none there, or upon a tab.
fn acted_width(text: &[u8]) -> usize
    ensures width { result ≡ acted_width text.now }
    ensures within { result ≤ length text.now }
{
    match text {
        [a, b, ..] if is_acted_on_two(*a, *b) => 2,
        [a, b, c, ..] if is_acted_on_three(*a, *b, *c) => 3,
        [a, ..] if is_acted_on_one(*a) => 1,
        _ => 0,
    }
}

/// Whether a byte is such a character: a control byte other than the tab.
fn is_acted_on_one(a: u8) -> bool
    ensures { result ≡ is_acted_on_one a }
{
    (a <= 31 || a == 127) && a != b'\t'
}

/// Whether two bytes spell such a character in UTF-8.
fn is_acted_on_two(a: u8, b: u8) -> bool
    ensures { result ≡ is_acted_on_two a b }
{
    if !(0xC0..=0xDF).contains(&a) || !goes_on(b) {
        return false;
    }
    is_acted_on(u32::from(a - 0xC0) * 64 + u32::from(b - 0x80))
}

/// Whether three bytes spell such a character in UTF-8.
fn is_acted_on_three(a: u8, b: u8, c: u8) -> bool
    ensures { result ≡ is_acted_on_three a b c }
{
    if !(0xE0..=0xEF).contains(&a) || !goes_on(b) || !goes_on(c) {
        return false;
    }
    is_acted_on(u32::from(a - 0xE0) * 4096 + u32::from(b - 0x80) * 64 + u32::from(c - 0x80))
}

/// Whether a byte goes on with a character in UTF-8.
fn goes_on(byte: u8) -> bool
    ensures { result ≡ goes_on byte }
{
    (0x80..=0xBF).contains(&byte)
}
