//! A string of JSON for any bytes, in ASCII.

ghost use Rattle.std.specs.{Prelude.{◌≡◌, ◌/◌, ◌%◌, ◌++◌, ◌<◌, OnOk}, Char.digit_char, List.flat_map};
ghost use Rattle.koth_news.specs.Strings.{byte_text, string_text};

use std::alloc::{AllocError, Allocator};

/// Puts a string with a character for each of these bytes. The error is lack of memory.
pub(crate) fn put_string<A: Allocator>(
    line: &mut Vec<u8, A>,
    bytes: &[u8],
) -> Result<(), AllocError>
    ensures { OnOk result (line.new.items ≡ line.old.items ++ string_text bytes.now) }
{
    line.extend_from_slice(b"\"")?;
    put_bytes(line, bytes)?;
    line.extend_from_slice(b"\"")
}

fn put_bytes<A: Allocator>(line: &mut Vec<u8, A>, bytes: &[u8]) -> Result<(), AllocError>
    ensures { OnOk result (line.new.items ≡ line.old.items ++ flat_map byte_text bytes.now) }
{
    for byte in bytes {
        put_byte(line, *byte)?;
    }
    Ok(())
}

/// Puts the character of a byte, by its number unless it can be printed.
fn put_byte<A: Allocator>(line: &mut Vec<u8, A>, byte: u8) -> Result<(), AllocError>
    ensures { OnOk result (line.new.items ≡ line.old.items ++ byte_text byte) }
{
    match byte {
        b'"' | b'\\' => line.extend_from_slice(&[b'\\', byte]),
        0..32 | 127.. => {
            let digits = [hex_digit(byte / 16), hex_digit(byte % 16)];
            line.extend_from_slice(b"\\u00")?;
            line.extend_from_slice(&digits)
        }
        _ => line.extend_from_slice(&[byte]),
    }
}

/// A digit of base 16.
fn hex_digit(digit: u8) -> u8
    requires { digit < 16 }
    ensures { result ≡ digit_char digit }
{
    if digit < 10 { 48 + digit } else { 87 + digit }
}
