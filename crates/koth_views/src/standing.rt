//! The table of a hill.

ghost use Rattle.std.specs.Prelude.{◌≡◌, ◌+◌, ◌<◌, ◌^◌, ◌++◌, ◌∷◌, [], length, IfOk, OnOk};
ghost use Rattle.{koth_hill.specs.Rows.{row_parts, rows_parts}, koth_text.specs.Columns.table_text};
ghost use Rattle.koth_views.specs.{Standing.{hill_cells, hill_heading, hill_rows, hill_view, note_of_none, standing_text}, Tally.against_all};

use crate::tally::against_all;
use koth_hill::{Hill, Row};
use koth_text::cells::{Cells, named, number, word};
use koth_text::columns::{Alignment, table_text};
use std::alloc::{AllocError, Allocator};

const SIDES: [Alignment; 9] = [
    Alignment::Right,
    Alignment::Right,
    Alignment::Right,
    Alignment::Right,
    Alignment::Right,
    Alignment::Right,
    Alignment::Right,
    Alignment::Left,
    Alignment::Left,
];

/// The table of a hill with headings: a line for each warrior by rank, with its entry, its points, the rounds that it
/// won, lost and tied against all others on the hill, its age, its name and its author. A hill without warriors has the
/// line `no warriors yet` alone. No match is fought. The error is lack of memory.
pub fn hill_view<A: Allocator + Copy, B: Allocator>(
    alloc: A,
    hill: &Hill<B>,
) -> Result<Vec<u8, A>, AllocError>
    ensures { IfOk result (λ text. text.items ≡ hill_view hill.now) }
{
    match hill.rows(alloc) {
        Ok(rows) => standing_text(alloc, hill, rows.as_slice()),
        Err(error) => Err(error),
    }
}

/// The table of these rows.
fn standing_text<A: Allocator + Copy, B: Allocator>(
    alloc: A,
    hill: &Hill<B>,
    rows: &[Row<'_>],
) -> Result<Vec<u8, A>, AllocError>
    ensures { IfOk result (λ text. text.items ≡ standing_text hill.now (rows_parts rows.now)) }
{
    let mut lines = Vec::new(alloc);
    match push_lines(alloc, &mut lines, hill, rows) {
        Ok(()) => noted_text(alloc, &SIDES, lines.as_slice(), rows),
        Err(error) => Err(error),
    }
}

/// Lines in columns, and what is under a table of these rows.
pub(crate) fn noted_text<A: Allocator + Copy>(
    alloc: A,
    sides: &[Alignment],
    lines: &[Cells<A>],
    rows: &[Row<'_>],
) -> Result<Vec<u8, A>, AllocError>
    ensures { IfOk result (λ text. text.items ≡ table_text sides.now lines.now ++ note_of_none (rows_parts rows.now)) }
{
    let mut text = match table_text(alloc, sides, lines) {
        Ok(text) => text,
        Err(error) => return Err(error),
    };
    match text.extend_from_slice(note_of_none(rows)) {
        Ok(()) => Ok(text),
        Err(error) => Err(error),
    }
}

/// What is under the table of these rows.
fn note_of_none(rows: &[Row<'_>]) -> &'static [u8]
    ensures { result.now ≡ note_of_none (rows_parts rows.now) }
{
    match rows {
        [] => b"no warriors yet\n",
        [_, ..] => b"",
    }
}

/// Pushes the headings, and the cells of each of these rows.
fn push_lines<A: Allocator + Copy, B: Allocator>(
    alloc: A,
    lines: &mut Vec<Cells<A>, A>,
    hill: &Hill<B>,
    rows: &[Row<'_>],
) -> Result<(), AllocError>
    ensures { OnOk result (lines.new.items ≡ lines.old.items ++ hill_heading
        ∷ hill_rows hill.now (rows_parts rows.now)) }
{
    lines.push(heading(alloc)?)?;
    push_rows(alloc, lines, hill, rows)
}

/// Pushes the cells of each of these rows.
fn push_rows<A: Allocator + Copy, B: Allocator>(
    alloc: A,
    lines: &mut Vec<Cells<A>, A>,
    hill: &Hill<B>,
    rows: &[Row<'_>],
) -> Result<(), AllocError>
    ensures { OnOk result (lines.new.items ≡ lines.old.items ++ hill_rows hill.now (rows_parts rows.now)) }
{
    for place in 0..rows.len() {
        lines.push(cells_of(alloc, hill, place as u64 + 1, &rows[place])?)?;
    }
    Ok(())
}

fn heading<A: Allocator>(alloc: A) -> Result<Cells<A>, AllocError>
    ensures { IfOk result (λ cells. cells ≡ hill_heading) }
{
    Cells::of(
        alloc,
        [
            word(b"rank"),
            word(b"entry"),
            word(b"points"),
            word(b"won"),
            word(b"lost"),
            word(b"tied"),
            word(b"age"),
            word(b"warrior"),
            word(b"author"),
        ],
    )
}

fn cells_of<A: Allocator, B: Allocator>(
    alloc: A,
    hill: &Hill<B>,
    rank: u64,
    row: &Row<'_>,
) -> Result<Cells<A>, AllocError>
    ensures { IfOk result (λ cells. cells ≡ hill_cells rank (row_parts row.now) (against_all hill.now row.now.entry)) }
{
    let rounds = against_all(hill, row.entry);
    Cells::of(
        alloc,
        [
            number(rank),
            number(row.entry),
            number(u64::from(row.score)),
            number(rounds.won),
            number(rounds.lost),
            number(rounds.tied),
            number(row.age),
            named(row.name),
            named(row.author),
        ],
    )
}
