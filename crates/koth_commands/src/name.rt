//! The name of a file as messages have it, so that no name moves a terminal's cursor or begins another line.

ghost use Rattle.std.specs.{Prelude.{◌≡◌, ◌++◌, IfOk, OnOk}, List.flat_map};
ghost use Rattle.koth_commands.specs.Name.{byte_shown, hex_digit, shown_character, shown_in_lines, shown_lines, shown_name};

use redcode_lines::is_acted_on;
use std::alloc::{AllocError, Allocator};

/// A name: each byte of a character that a terminal acts upon as `\x` and two digits, and any other character as it is.
/// The error is lack of memory.
pub fn name_text<A: Allocator>(alloc: A, name: &str) -> Result<Vec<u8, A>, AllocError>
    ensures { IfOk result (λ text. text.items ≡ shown_name name.now) }
{
    let mut text = Vec::new(alloc);
    put_name(&mut text, name)?;
    Ok(text)
}

/// Puts a name. The error is lack of memory.
pub fn put_name<A: Allocator>(text: &mut Vec<u8, A>, name: &str) -> Result<(), AllocError>
    ensures { OnOk result (text.new.items ≡ text.old.items ++ shown_name name.now) }
{
    for character in name.chars() {
        put_character(text, character)?;
    }
    Ok(())
}

/// Lines that repeat what a user typed: as a name, but with their line feeds. The error is lack of memory.
pub fn lines_text<A: Allocator>(alloc: A, lines: &str) -> Result<Vec<u8, A>, AllocError>
    ensures { IfOk result (λ text. text.items ≡ shown_lines lines.now) }
{
    let mut text = Vec::new(alloc);
    for character in lines.chars() {
        put_in_lines(&mut text, character)?;
    }
    Ok(text)
}

fn put_in_lines<A: Allocator>(text: &mut Vec<u8, A>, character: char) -> Result<(), AllocError>
    ensures { OnOk result (text.new.items ≡ text.old.items ++ shown_in_lines character) }
{
    match character {
        '\n' => text.extend_from_slice(b"\n"),
        _ => put_character(text, character),
    }
}

fn put_character<A: Allocator>(text: &mut Vec<u8, A>, character: char) -> Result<(), AllocError>
    ensures { OnOk result (text.new.items ≡ text.old.items ++ shown_character character) }
{
    let mut buffer = [0; 4];
    let bytes = character.encode_utf8(&mut buffer).as_bytes();
    if is_acted_on(u32::from(character)) {
        return put_escaped(text, bytes);
    }
    text.extend_from_slice(bytes)
}

/// Puts bytes, each as `\x` and two digits.
fn put_escaped<A: Allocator>(text: &mut Vec<u8, A>, bytes: &[u8]) -> Result<(), AllocError>
    ensures { OnOk result (text.new.items ≡ text.old.items ++ flat_map byte_shown bytes.now) }
{
    for byte in bytes {
        put_byte(text, *byte)?;
    }
    Ok(())
}

fn put_byte<A: Allocator>(text: &mut Vec<u8, A>, byte: u8) -> Result<(), AllocError>
    ensures { OnOk result (text.new.items ≡ text.old.items ++ byte_shown byte) }
{
    text.extend_from_slice(&[b'\\', b'x', hex_digit(byte / 16), hex_digit(byte)])
}

/// The last digit of a number in base 16.
fn hex_digit(number: u8) -> u8
    ensures { result ≡ hex_digit number }
{
    let digit = number % 16;
    if digit < 10 { 48 + digit } else { 87 + digit }
}
