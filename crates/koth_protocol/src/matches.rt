//! Who won how many rounds against whom.

ghost use Rattle.std.specs.Prelude.{◌≡◌, ◌+◌, ◌++◌, length, codes, decimal, IfOk, OnOk};
ghost use Rattle.{koth_hill.specs.Rows.rows_parts, koth_protocol.specs.Matches.{cell, entries_shown, entry_line, entry_lines, matches_text, places_for, ranks_line, right, rounds_won, told_of}};

use itoa::Buffer;
use koth_hill::{Hill, Row};
use std::alloc::{AllocError, Allocator};

/// A line with the ranks, and then a line for each warrior on the hill, by rank: in the column of each other the rounds
/// that it won against that one, as the hill keeps them, and `-` in its own. No match is fought. A hill without
/// warriors has the first line alone.
pub fn matches_text<A: Allocator + Copy, B: Allocator>(
    alloc: A,
    hill: &Hill<B>,
) -> Result<Vec<u8, A>, AllocError>
    ensures { IfOk result (λ text. text.items ≡ matches_text hill.now) }
{
    let rows = hill.rows(alloc)?;
    let places = places_for(hill.settings().rounds());
    let mut text = Vec::new(alloc);
    put_ranks(&mut text, places, rows.len())?;
    put_lines(&mut text, places, hill, rows.as_slice())?;
    Ok(text)
}

/// The places of a cell.
fn places_for(rounds: u16) -> usize
    ensures { result ≡ places_for rounds }
{
    let mut buffer = Buffer::new();
    buffer.format(u64::from(rounds)).len().max(2)
}

/// The first line, with `count` ranks.
fn put_ranks<A: Allocator>(
    text: &mut Vec<u8, A>,
    places: usize,
    count: usize,
) -> Result<(), AllocError>
    ensures { OnOk result (text.new.items ≡ text.old.items ++ ranks_line places count) }
{
    text.extend_from_slice(b"  ")?;
    for place in 0..count {
        put_number(text, places, place as u64 + 1)?;
    }
    text.extend_from_slice(b"\n")
}

/// The lines of all that are in these rows.
fn put_lines<A: Allocator, B: Allocator>(
    text: &mut Vec<u8, A>,
    places: usize,
    hill: &Hill<B>,
    rows: &[Row<'_>],
) -> Result<(), AllocError>
    ensures { OnOk result (text.new.items ≡ text.old.items
        ++ entry_lines hill.now places (entries_shown (rows_parts rows.now))) }
{
    for place in 0..rows.len() {
        put_line(
            text,
            places,
            hill,
            rows,
            place as u64 + 1,
            rows[place].entry,
        )?;
    }
    Ok(())
}

/// The line of one entry, with a cell for each row.
fn put_line<A: Allocator, B: Allocator>(
    text: &mut Vec<u8, A>,
    places: usize,
    hill: &Hill<B>,
    rows: &[Row<'_>],
    rank: u64,
    one: u64,
) -> Result<(), AllocError>
    ensures { OnOk result (text.new.items ≡ text.old.items
        ++ entry_line hill.now places (entries_shown (rows_parts rows.now)) rank one) }
{
    let mut buffer = Buffer::new();
    put_right(text, 2, buffer.format(rank).as_bytes())?;
    for place in 0..rows.len() {
        put_told(text, places, hill, one, rows[place].entry)?;
    }
    text.extend_from_slice(b"\n")
}

/// What the line of one entry says of another, or of itself.
fn put_told<A: Allocator, B: Allocator>(
    text: &mut Vec<u8, A>,
    places: usize,
    hill: &Hill<B>,
    one: u64,
    other: u64,
) -> Result<(), AllocError>
    ensures { OnOk result (text.new.items ≡ text.old.items ++ cell places (told_of hill.now one other)) }
{
    if one == other {
        put_cell(text, places, b"-")
    } else {
        put_number(text, places, rounds_won(hill, one, other))
    }
}

/// The rounds that one entry won against another, by the result that the hill keeps of the two.
fn rounds_won<B: Allocator>(hill: &Hill<B>, one: u64, other: u64) -> u64
    ensures { result ≡ rounds_won hill.now one other }
{
    if one < other {
        match hill.bout(one, other) {
            Some(bout) => u64::from(bout.older_wins),
            None => 0,
        }
    } else {
        match hill.bout(other, one) {
            Some(bout) => u64::from(bout.younger_wins),
            None => 0,
        }
    }
}

fn put_number<A: Allocator>(
    text: &mut Vec<u8, A>,
    places: usize,
    number: u64,
) -> Result<(), AllocError>
    ensures { OnOk result (text.new.items ≡ text.old.items ++ cell places (decimal number)) }
{
    let mut buffer = Buffer::new();
    put_cell(text, places, buffer.format(number).as_bytes())
}

fn put_cell<A: Allocator>(
    text: &mut Vec<u8, A>,
    places: usize,
    part: &[u8],
) -> Result<(), AllocError>
    ensures { OnOk result (text.new.items ≡ text.old.items ++ cell places part.now) }
{
    text.extend_from_slice(b" ")?;
    put_right(text, places, part)
}

/// Puts a part at the right of `places` places; a longer part is as it is.
fn put_right<A: Allocator>(
    text: &mut Vec<u8, A>,
    places: usize,
    part: &[u8],
) -> Result<(), AllocError>
    ensures { OnOk result (text.new.items ≡ text.old.items ++ right places part.now) }
{
    for _ in 0..places.saturating_sub(part.len()) {
        text.push(b' ')?;
    }
    text.extend_from_slice(part)
}
