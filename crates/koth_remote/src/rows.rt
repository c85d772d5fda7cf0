//! The lines of a table that came.

ghost use Rattle.std.specs.Prelude.{◌<◌, ◌≤◌, ◌≡◌, length};

use std::alloc::{AllocError, Allocator};

/// A warrior of a table: its numbers, its name and its author.
#[derive(Clone, Copy)]
pub(crate) struct Row<'l> {
    pub rank: u64,
    pub entry: u64,
    pub points: u32,
    pub age: u64,
    pub name: &'l [u8],
    pub author: &'l [u8],
}

/// The bytes of a name at most.
const NAME_MOST: usize = 48;

/// The first 48 bytes of a name. A row has no longer one.
pub(crate) fn name_of(name: &[u8]) -> &[u8]
    ensures { length result.now ≤ 48 }
{
    &name[..name.len().min(NAME_MOST)]
}

/// The warrior of a line without its line feed, if it is one of a table. Of more than one ` by ` the last is before the
/// author.
pub(crate) fn row_of(line: &[u8]) -> Option<Row<'_>> {
    let (rank, rest) = number_before(line)?;
    let (entry, rest) = number_before(rest)?;
    let (points, rest) = number_before(rest)?;
    let (age, rest) = number_before(rest)?;
    let (name, author) = halves(rest)?;
    Some(Row {
        rank,
        entry,
        points: u32::try_from(points).ok()?,
        age,
        name,
        author,
    })
}

/// The number in front of the first blank, and what is after it.
fn number_before(line: &[u8]) -> Option<(u64, &[u8])> {
    let blank = line.iter().position(|byte| *byte == b' ')?;
    let number = str::from_utf8(&line[..blank]).ok()?.parse().ok()?;
    Some((number, &line[blank + 1..]))
}

/// The name and the author around the last ` by `.
fn halves(text: &[u8]) -> Option<(&[u8], &[u8])> {
    if !text.iter().all(|byte| is_shown(*byte)) {
        return None;
    }
    let shown = str::from_utf8(text).ok()?;
    let (name, author) = shown.rsplit_once(" by ")?;
    let (name, author) = (name.as_bytes(), author.as_bytes());
    if name.len() > NAME_MOST || author.len() > NAME_MOST {
        return None;
    }
    Some((name, author))
}

/// Whether a byte is as it is in a name: a character of ASCII that a terminal doesn't act upon.
fn is_shown(byte: u8) -> bool {
    byte >= 32 && byte < 127
}

/// Puts lines that came: line feeds and characters that a terminal doesn't act upon as they are, any other byte as `\x`
/// and two digits. A last line gets its line feed.
pub(crate) fn put_shown<A: Allocator>(
    text: &mut Vec<u8, A>,
    lines: &[u8],
) -> Result<(), AllocError> {
    for byte in lines {
        put_byte(text, *byte)?;
    }
    match lines.last() {
        Some(&b'\n') | None => Ok(()),
        Some(_) => text.extend_from_slice(b"\n"),
    }
}

fn put_byte<A: Allocator>(text: &mut Vec<u8, A>, byte: u8) -> Result<(), AllocError> {
    if byte == b'\n' || is_shown(byte) {
        return text.extend_from_slice(&[byte]);
    }
    text.extend_from_slice(&[b'\\', b'x', hex_digit(byte / 16), hex_digit(byte % 16)])
}

fn hex_digit(digit: u8) -> u8
    requires { digit < 16 }
{
    if digit < 10 { 48 + digit } else { 87 + digit }
}
