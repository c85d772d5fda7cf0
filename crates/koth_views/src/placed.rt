//! What became of a warrior that was submitted.

ghost use Rattle.std.specs.{Prelude.{◌≡◌, ◌+◌, ◌≤◌, ◌++◌, ◌∷◌, [], length, codes, decimal, IfOk, OnOk}, List.flat_map};
ghost use Rattle.{koth_hill.specs.Rows.{row_parts, rows_parts}, koth_text.specs.Bout.rounds_heading};
ghost use Rattle.koth_views.specs.Placed.{entry_text, fallen_line, fallen_lines, fell_text, is_on, opponent_cells, opponents_text, own_line, own_lines, place_text, placed_among};
ghost use Rattle.koth_views.specs.Placed.{placed_text, points_text, rank_text, who_text};

use crate::entrants::Entered;
use crate::tally::between;
use koth_hill::{Hill, Row};
use koth_text::cells::Cells;
use koth_text::columns::table_text;
use koth_text::counts::{SIDES, cells_of, heading};
use koth_text::{Line, put_line};
use std::alloc::{AllocError, Allocator};

/// The place of a warrior on a hill.
#[derive(Clone, Copy)]
pub struct Place {
    /// Counted from 1.
    pub entry: u64,
    /// 1 to the hill's capacity.
    pub rank: u32,
    /// Its points.
    pub score: u32,
}

/// What became of a warrior that was placed: its entry, rank and points; a line for each of `before`, the hill's
/// `roster` from before it, that isn't on the hill any more; and its matches by the rank of the opponent, each with the
/// rounds that it won, lost and tied. `hill` is the hill after it. No match is fought. The error is lack of memory.
pub fn placed_text<A: Allocator + Copy, B: Allocator>(
    alloc: A,
    before: &[Entered],
    hill: &Hill<B>,
    place: Place,
) -> Result<Vec<u8, A>, AllocError>
    ensures { IfOk result (λ text. text.items ≡ placed_text before.now hill.now place) }
{
    let rows = hill.rows(alloc)?;
    placed_among(alloc, before, hill, rows.as_slice(), place)
}

/// The same among these rows.
fn placed_among<A: Allocator + Copy, B: Allocator>(
    alloc: A,
    before: &[Entered],
    hill: &Hill<B>,
    rows: &[Row<'_>],
    place: Place,
) -> Result<Vec<u8, A>, AllocError>
    ensures { IfOk result (λ text. text.items ≡ placed_among before.now hill.now (rows_parts rows.now) place) }
{
    let mut text = Vec::new(alloc);
    put_own_lines(&mut text, place, rows)?;
    put_fallen_lines(&mut text, rows, before)?;
    put_opponents(alloc, &mut text, hill, place.entry, rows)?;
    Ok(text)
}

/// The line of an entry that fell at once, with its points. The error is lack of memory.
pub fn fell_text<A: Allocator>(alloc: A, entry: u64, score: u32) -> Result<Vec<u8, A>, AllocError>
    ensures { IfOk result (λ text. text.items ≡ fell_text entry score) }
{
    let mut text = Vec::new(alloc);
    put_line(&mut text, fell_line(entry, score))?;
    Ok(text)
}

fn fell_line(entry: u64, score: u32) -> Line
    ensures { result ≡ fell_text entry score }
{
    let mut line = Line::new();
    line.put(b"entry ");
    line.put_number(entry);
    line.put(b" with ");
    put_points(&mut line, u64::from(score));
    line.put(b" fell: it is not on the hill\n");
    line
}

fn put_own_lines<A: Allocator>(
    text: &mut Vec<u8, A>,
    place: Place,
    rows: &[Row<'_>],
) -> Result<(), AllocError>
    ensures { OnOk result (text.new.items ≡ text.old.items ++ own_lines place (rows_parts rows.now)) }
{
    for i in 0..rows.len() {
        put_own_line(text, place, rows.len() as u64, &rows[i])?;
    }
    Ok(())
}

/// The line of the warrior that was placed among `count`, if it is in this row.
fn put_own_line<A: Allocator>(
    text: &mut Vec<u8, A>,
    place: Place,
    count: u64,
    row: &Row<'_>,
) -> Result<(), AllocError>
    ensures { OnOk result (text.new.items ≡ text.old.items ++ own_line place count (row_parts row.now)) }
{
    if row.entry == place.entry {
        put_who(text, row.name.bytes(), row.author.bytes())?;
        put_place(text, place, count)
    } else {
        Ok(())
    }
}

/// Puts the place of a warrior among `count`.
fn put_place<A: Allocator>(
    text: &mut Vec<u8, A>,
    place: Place,
    count: u64,
) -> Result<(), AllocError>
    ensures { OnOk result (text.new.items ≡ text.old.items ++ place_text place count) }
{
    put_line(text, entry_line(place.entry))?;
    put_line(text, rank_line(place, count))
}

fn entry_line(entry: u64) -> Line
    ensures { result ≡ entry_text entry }
{
    let mut line = Line::new();
    line.put(b" is warrior ");
    line.put_number(entry);
    line.put(b" of this hill: ");
    line
}

/// A rank among `count`, and points.
fn rank_line(place: Place, count: u64) -> Line
    ensures { result ≡ rank_text place.rank count ++ codes ", " ++ points_text place.score ++ codes "\n" }
{
    let mut line = Line::new();
    line.put(b"rank ");
    line.put_number(u64::from(place.rank));
    line.put(b" of ");
    line.put_number(count);
    line.put(b", ");
    put_points(&mut line, u64::from(place.score));
    line.put(b"\n");
    line
}

fn put_fallen_lines<A: Allocator>(
    text: &mut Vec<u8, A>,
    rows: &[Row<'_>],
    before: &[Entered],
) -> Result<(), AllocError>
    ensures { OnOk result (text.new.items ≡ text.old.items ++ fallen_lines (rows_parts rows.now) before.now) }
{
    for i in 0..before.len() {
        put_fallen_line(text, rows, &before[i])?;
    }
    Ok(())
}

/// The line of a warrior that stood on the hill before, if it is in none of these rows.
fn put_fallen_line<A: Allocator>(
    text: &mut Vec<u8, A>,
    rows: &[Row<'_>],
    one: &Entered,
) -> Result<(), AllocError>
    ensures { OnOk result (text.new.items ≡ text.old.items ++ fallen_line (rows_parts rows.now) one.now) }
{
    if is_on(rows, one.entry) {
        return Ok(());
    }
    put_who(text, one.name.as_slice(), one.author.as_slice())?;
    put_line(text, fallen_line_end(one.entry))
}

/// What the line of an entry that fell ends with.
fn fallen_line_end(entry: u64) -> Line
    ensures { result ≡ codes " (entry " ++ decimal entry ++ codes ") fell\n" }
{
    let mut line = Line::new();
    line.put(b" (entry ");
    line.put_number(entry);
    line.put(b") fell\n");
    line
}

/// Whether an entry is in one of these rows.
fn is_on(rows: &[Row<'_>], entry: u64) -> bool
    ensures { result ≡ is_on (rows_parts rows.now) entry }
{
    for i in 0..rows.len() {
        if rows[i].entry == entry {
            return true;
        }
    }
    false
}

fn put_opponents<A: Allocator + Copy, B: Allocator>(
    alloc: A,
    text: &mut Vec<u8, A>,
    hill: &Hill<B>,
    entry: u64,
    rows: &[Row<'_>],
) -> Result<(), AllocError>
    ensures { OnOk result (text.new.items ≡ text.old.items ++ opponents_text hill.now entry (rows_parts rows.now)) }
{
    let opponents = opponents_text(alloc, hill, entry, rows)?;
    text.extend_from_slice(opponents.as_slice())
}

/// The matches of an entry against the warriors in these rows, from its side.
fn opponents_text<A: Allocator + Copy, B: Allocator>(
    alloc: A,
    hill: &Hill<B>,
    entry: u64,
    rows: &[Row<'_>],
) -> Result<Vec<u8, A>, AllocError>
    ensures { IfOk result (λ text. text.items ≡ opponents_text hill.now entry (rows_parts rows.now)) }
{
    let mut lines = Vec::new(alloc);
    lines.push(heading(alloc)?)?;
    push_opponents(alloc, &mut lines, hill, entry, rows)?;
    table_text(alloc, &SIDES, lines.as_slice())
}

fn push_opponents<A: Allocator + Copy, B: Allocator>(
    alloc: A,
    lines: &mut Vec<Cells<A>, A>,
    hill: &Hill<B>,
    entry: u64,
    rows: &[Row<'_>],
) -> Result<(), AllocError>
    ensures { OnOk result (lines.new.items ≡ lines.old.items
        ++ flat_map (opponent_cells hill.now entry) (rows_parts rows.now)) }
{
    for i in 0..rows.len() {
        push_opponent(alloc, lines, hill, entry, &rows[i])?;
    }
    Ok(())
}

/// Pushes the cells of the warrior in a row, unless it is this entry itself.
fn push_opponent<A: Allocator, B: Allocator>(
    alloc: A,
    lines: &mut Vec<Cells<A>, A>,
    hill: &Hill<B>,
    entry: u64,
    row: &Row<'_>,
) -> Result<(), AllocError>
    ensures { OnOk result (lines.new.items ≡ lines.old.items ++ opponent_cells hill.now entry (row_parts row.now)) }
{
    if row.entry != entry {
        let rounds = between(hill, entry, row.entry);
        lines.push(cells_of(alloc, row.name, row.author, rounds)?)?;
    }
    Ok(())
}

fn put_who<A: Allocator>(
    text: &mut Vec<u8, A>,
    name: &[u8],
    author: &[u8],
) -> Result<(), AllocError>
    ensures { OnOk result (text.new.items ≡ text.old.items ++ who_text name.now author.now) }
{
    text.extend_from_slice(name)?;
    text.extend_from_slice(b" by ")?;
    text.extend_from_slice(author)
}

pub(crate) fn put_points(line: &mut Line, points: u64)
    requires { length line.old + 27 ≤ 96 }
    ensures value { line.new ≡ line.old ++ points_text points }
    ensures len { length line.new ≤ length line.old + 27 }
{
    line.put_number(points);
    line.put(if points == 1 { b" point" } else { b" points" });
}
