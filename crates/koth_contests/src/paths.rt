//! The paths of files in a folder, and names that are no text.

ghost use Rattle.std.specs.Prelude.{◌≡◌, ◌++◌, string_bytes, IfOk};
ghost use Rattle.koth_contests.specs.Opponents.{IsIn};

use std::alloc::{AllocError, Allocator};

/// The path of a name in a folder.
pub(crate) fn path_in<A: Allocator + Copy>(
    alloc: A,
    folder: &str,
    name: &str,
) -> Result<String<A>, AllocError>
    ensures { IfOk result (λ path. IsIn folder.now (string_bytes path)) }
{
    let between = if folder.ends_with('/') { "" } else { "/" };
    joined(alloc, folder, between, name)
}

fn joined<A: Allocator + Copy>(
    alloc: A,
    first: &str,
    second: &str,
    third: &str,
) -> Result<String<A>, AllocError>
    ensures { IfOk result (λ text. string_bytes text ≡ first.now ++ (second.now ++ third.now)) }
{
    let mut text = String::from_str(alloc, first)?;
    text.push_str(second)?;
    text.push_str(third)?;
    Ok(text)
}

/// Bytes as a text: those of ASCII as they are, and each other as `\x` and two digits.
pub(crate) fn shown_bytes<A: Allocator>(alloc: A, bytes: &[u8]) -> Result<String<A>, AllocError> {
    let mut text = String::new(alloc);
    for byte in bytes {
        put_shown(&mut text, *byte)?;
    }
    Ok(text)
}

fn put_shown<A: Allocator>(text: &mut String<A>, byte: u8) -> Result<(), AllocError> {
    if byte.is_ascii() {
        return text.push(char::from(byte));
    }
    text.push_str("\\x")?;
    text.push(hex_digit(byte / 16))?;
    text.push(hex_digit(byte % 16))
}

/// A digit in base 16.
fn hex_digit(digit: u8) -> char {
    char::from(if digit < 10 {
        b'0' + digit
    } else {
        b'a' + (digit - 10) % 6
    })
}
