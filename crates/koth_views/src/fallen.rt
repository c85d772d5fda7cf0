//! What a challenger that falls is told of those that stay.

ghost use Rattle.std.specs.Prelude.{◌≡◌, ◌+◌, ◌<◌, ◌≤◌, ◌^◌, ◌++◌, ◌∷◌, drop, nat_lt, if◌then◌else◌, length, map, IfOk, OnOk};
ghost use Rattle.koth_hill.specs.{Hill.older_points, Kept.entries_of, Rows.{row_parts, rows_parts}};
ghost use Rattle.koth_text.specs.{Bout.{rounds_heading, rounds_sides}, Columns.table_text};
ghost use Rattle.koth_views.specs.Fallen.{bout_of, bout_with, challenged_among, challenged_cells, challenged_view, first_bout};
ghost use Rattle.koth_views.specs.Fallen.{fallen_among, fallen_view, least_line};
ghost use Rattle.koth_views.specs.Fallen.{least_among, least_of, least_with, points_with};

use crate::placed::put_points;
use crate::tally::{NO_ROUNDS, entry_at};
use koth_hill::{Hill, Row};
use koth_match::Bout;
use koth_text::cells::Cells;
use koth_text::columns::table_text;
use koth_text::counts::{SIDES, cells_of, heading};
use koth_text::{Line, Tally, put_line};
use std::alloc::{AllocError, Allocator};

/// What a challenger that falls is told of those that stay, by the results of its matches with all on the hill, by
/// their rising entries: the least points of those that stay, and each match by the rank of the opponent, with the
/// rounds that the challenger won, lost and tied. No match is fought. The error is lack of memory.
pub fn fallen_view<A: Allocator + Copy, B: Allocator>(
    alloc: A,
    hill: &Hill<B>,
    bouts: &[Bout],
) -> Result<Vec<u8, A>, AllocError>
    ensures { IfOk result (λ text. text.items ≡ fallen_view hill.now bouts.now) }
{
    match hill.rows(alloc) {
        Ok(rows) => fallen_among(alloc, hill, bouts, rows.as_slice()),
        Err(error) => Err(error),
    }
}

/// The same of these rows.
fn fallen_among<A: Allocator + Copy, B: Allocator>(
    alloc: A,
    hill: &Hill<B>,
    bouts: &[Bout],
    rows: &[Row<'_>],
) -> Result<Vec<u8, A>, AllocError>
    ensures { IfOk result (λ text. text.items ≡ fallen_among hill.now bouts.now (rows_parts rows.now)) }
{
    match rows {
        [] => Ok(Vec::new(alloc)),
        [first, others @ ..] => {
            let least = least_with(hill, bouts, points_with(hill, bouts, first), others);
            told_text(alloc, hill, bouts, least, rows)
        }
    }
}

/// The least points, and the matches with the warriors in these rows.
fn told_text<A: Allocator + Copy, B: Allocator>(
    alloc: A,
    hill: &Hill<B>,
    bouts: &[Bout],
    least: u64,
    rows: &[Row<'_>],
) -> Result<Vec<u8, A>, AllocError>
    ensures { IfOk result (λ text. text.items
        ≡ least_line least ++ challenged_among hill.now bouts.now (rows_parts rows.now)) }
{
    let matches = challenged_among(alloc, hill, bouts, rows)?;
    let mut text = Vec::new(alloc);
    put_line(&mut text, least_line(least))?;
    text.extend_from_slice(matches.as_slice())?;
    Ok(text)
}

/// The matches of a challenger with all on the hill, by their results, which are by the rising entries of these: each
/// by the rank of the opponent, with the rounds that the challenger won, lost and tied. No match is fought. The error
/// is lack of memory.
pub fn challenged_view<A: Allocator + Copy, B: Allocator>(
    alloc: A,
    hill: &Hill<B>,
    bouts: &[Bout],
) -> Result<Vec<u8, A>, AllocError>
    ensures { IfOk result (λ text. text.items ≡ challenged_view hill.now bouts.now) }
{
    match hill.rows(alloc) {
        Ok(rows) => challenged_among(alloc, hill, bouts, rows.as_slice()),
        Err(error) => Err(error),
    }
}

/// The same with the warriors in these rows.
fn challenged_among<A: Allocator + Copy, B: Allocator>(
    alloc: A,
    hill: &Hill<B>,
    bouts: &[Bout],
    rows: &[Row<'_>],
) -> Result<Vec<u8, A>, AllocError>
    ensures { IfOk result (λ text. text.items ≡ challenged_among hill.now bouts.now (rows_parts rows.now)) }
{
    let mut lines = Vec::new(alloc);
    lines.push(heading(alloc)?)?;
    push_matches(alloc, &mut lines, hill, bouts, rows)?;
    table_text(alloc, &SIDES, lines.as_slice())
}

fn push_matches<A: Allocator, B: Allocator>(
    alloc: A,
    lines: &mut Vec<Cells<A>, A>,
    hill: &Hill<B>,
    bouts: &[Bout],
    rows: &[Row<'_>],
) -> Result<(), AllocError>
where
    A: Copy,
    ensures { OnOk result (lines.new.items
        ≡ lines.old.items ++ map (challenged_cells hill.now bouts.now) (rows_parts rows.now)) }
{
    for i in 0..rows.len() {
        lines.push(challenged_cells(alloc, hill, bouts, &rows[i])?)?;
    }
    Ok(())
}

fn challenged_cells<A: Allocator, B: Allocator>(
    alloc: A,
    hill: &Hill<B>,
    bouts: &[Bout],
    row: &Row<'_>,
) -> Result<Cells<A>, AllocError>
    ensures { IfOk result (λ cells. cells ≡ challenged_cells hill.now bouts.now (row_parts row.now)) }
{
    let rounds = Tally::of_younger(bout_with(hill, bouts, row.entry));
    cells_of(alloc, row.name, row.author, rounds)
}

/// The least points of those that stay when a challenger falls, against all others on the hill and against the
/// challenger, by the results of its matches with all on the hill, by their rising entries; `None` if no one is on it.
/// The error is lack of memory.
pub fn least_of<A: Allocator + Copy, B: Allocator>(
    alloc: A,
    hill: &Hill<B>,
    bouts: &[Bout],
) -> Result<Option<u64>, AllocError>
    ensures { IfOk result (λ least. least ≡ least_of hill.now bouts.now) }
{
    match hill.rows(alloc) {
        Ok(rows) => Ok(least_among(hill, bouts, rows.as_slice())),
        Err(error) => Err(error),
    }
}

/// The same of these rows.
fn least_among<B: Allocator>(hill: &Hill<B>, bouts: &[Bout], rows: &[Row<'_>]) -> Option<u64>
    ensures { result ≡ least_among hill.now bouts.now (rows_parts rows.now) }
{
    match rows {
        [] => None,
        [first, others @ ..] => Some(least_with(
            hill,
            bouts,
            points_with(hill, bouts, first),
            others,
        )),
    }
}

fn least_line(least: u64) -> Line
    ensures { result ≡ least_line least }
{
    let mut line = Line::new();
    line.put(b"the lowest that stays has ");
    put_points(&mut line, least);
    line.put(b"\n");
    line
}

/// The least of this number and the points of the warriors in these rows.
fn least_with<B: Allocator>(hill: &Hill<B>, bouts: &[Bout], first: u64, rows: &[Row<'_>]) -> u64
    ensures { result ≡ least_with hill.now bouts.now first (rows_parts rows.now) }
{
    let mut least = first;
    for i in 0..rows.len() {
        least = lesser(points_with(hill, bouts, &rows[i]), least);
    }
    least
}

fn lesser(one: u64, other: u64) -> u64
    ensures { result ≡ if nat_lt one other then one else other }
{
    if one < other { one } else { other }
}

/// The points of the warrior in a row against all others on the hill and against the challenger.
fn points_with<B: Allocator>(hill: &Hill<B>, bouts: &[Bout], row: &Row<'_>) -> u64
    ensures { result ≡ points_with hill.now bouts.now (row_parts row.now) }
{
    let bout = bout_with(hill, bouts, row.entry);
    u64::from(row.score) + Tally::of_older(bout).points()
}

/// The result of this entry, of those at their places.
fn bout_with<B: Allocator>(hill: &Hill<B>, bouts: &[Bout], entry: u64) -> Bout
    ensures { result ≡ bout_of (entries_of hill.now.members) bouts.now entry }
{
    for place in 0..hill.len() {
        if entry_at(hill, place) == entry {
            return bout_at(bouts, place);
        }
    }
    NO_ROUNDS
}

/// The result at a place, if there is one, and else no rounds.
fn bout_at(bouts: &[Bout], place: usize) -> Bout
    ensures { result ≡ first_bout (drop place bouts.now) }
{
    if place < bouts.len() {
        bouts[place]
    } else {
        NO_ROUNDS
    }
}
