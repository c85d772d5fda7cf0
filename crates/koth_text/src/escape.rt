//! What others wrote, as it stands in a page.
//!
//! The names on a hill are printable ASCII already. This takes any bytes, so that a page asks nothing of them.

ghost use Rattle.std.specs.{Prelude.{◌≡◌, ◌+◌, ◌≤◌, ◌++◌, length, codes, decimal, OnOk}, List.flat_map, Str.{IsUtf8, chars}, Str.Chunks.utf8_chunk_valid};
ghost use Rattle.koth_text.specs.Escape.{character_text, chunk_characters, escaped, plain_text, reference};

use crate::line::Line;
use crate::lines::put_line;
use std::alloc::{AllocError, Allocator};
use std::str::Utf8Chunk;

/// Puts a text that is no part of the page itself.
pub fn put_escaped<A: Allocator>(page: &mut Vec<u8, A>, text: &[u8]) -> Result<(), AllocError>
    ensures { OnOk result (page.new.items ≡ page.old.items ++ escaped text.now) }
{
    for chunk in text.utf8_chunks() {
        put_chunk(page, &chunk)?;
    }
    Ok(())
}

fn put_chunk<A: Allocator>(page: &mut Vec<u8, A>, chunk: &Utf8Chunk<'_>) -> Result<(), AllocError>
    ensures put { OnOk result (page.new.items ≡ page.old.items ++ flat_map character_text (chunk_characters chunk.now)) }
    ensures text { IsUtf8 (utf8_chunk_valid chunk.now) }
{
    put_characters(page, chunk.valid())?;
    if chunk.invalid().is_empty() {
        return Ok(());
    }
    put_character(page, char::REPLACEMENT_CHARACTER)
}

fn put_characters<A: Allocator>(page: &mut Vec<u8, A>, text: &str) -> Result<(), AllocError>
    ensures { OnOk result (page.new.items ≡ page.old.items ++ flat_map character_text (chars text.now)) }
{
    for character in text.chars() {
        put_character(page, character)?;
    }
    Ok(())
}

fn put_character<A: Allocator>(page: &mut Vec<u8, A>, character: char) -> Result<(), AllocError>
    ensures { OnOk result (page.new.items ≡ page.old.items ++ character_text character) }
{
    match character {
        '<' => page.extend_from_slice(b"&lt;"),
        '>' => page.extend_from_slice(b"&gt;"),
        '&' => page.extend_from_slice(b"&amp;"),
        '"' => page.extend_from_slice(b"&quot;"),
        '\'' => page.extend_from_slice(b"&#39;"),
        _ => put_plain(page, character),
    }
}

/// Puts a character that HTML gives no meaning.
fn put_plain<A: Allocator>(page: &mut Vec<u8, A>, character: char) -> Result<(), AllocError>
    ensures { OnOk result (page.new.items ≡ page.old.items ++ plain_text character) }
{
    if character.is_control() {
        put_line(page, reference(char::REPLACEMENT_CHARACTER))
    } else if character <= '~' {
        page.push(character as u8)?;
        Ok(())
    } else {
        put_line(page, reference(character))
    }
}

/// A character by its number.
fn reference(character: char) -> Line
    ensures { result ≡ reference character }
{
    let mut line = Line::new();
    line.put(b"&#");
    line.put_number(u64::from(character));
    line.put(b";");
    line
}
