//! The matches on a hill: who won, lost and tied how many rounds against whom.

ghost use Rattle.std.specs.{Prelude.{◌≡◌, ◌+◌, ◌≤◌, ◌++◌, ◌∷◌, [], length, map, codes, decimal, IfOk, OnOk}, List.range_with_len};
ghost use Rattle.{koth_hill.specs.Rows.{row_parts, rows_parts}, koth_views.specs.Matrix.{matches_view, matrix_cells, matrix_heading, matrix_rows, matrix_text, tally_text, told_of}};

use crate::standing::noted_text;
use crate::tally::between;
use koth_hill::{Hill, Row};
use koth_text::cells::{Cells, named, number, word};
use koth_text::columns::Alignment;
use koth_text::{Line, Tally};
use std::alloc::{AllocError, Allocator};

/// The sides of the first two columns. The columns of rounds after them are aligned at the right.
const SIDES: [Alignment; 2] = [Alignment::Right, Alignment::Left];

/// The matches on a hill with headings: a line for each warrior by rank with its name, and a column for each warrior by
/// rank. A cell has the rounds that the line's warrior won, lost and tied against the column's, as `45-10-7`, and a dot
/// if the two are one. A hill without warriors has the line `no warriors yet` alone. No match is fought. The error is
/// lack of memory.
pub fn matches_view<A: Allocator + Copy, B: Allocator>(
    alloc: A,
    hill: &Hill<B>,
) -> Result<Vec<u8, A>, AllocError>
    ensures { IfOk result (λ text. text.items ≡ matches_view hill.now) }
{
    let rows = hill.rows(alloc)?;
    matrix_text(alloc, hill, rows.as_slice())
}

/// The matches of these rows.
fn matrix_text<A: Allocator + Copy, B: Allocator>(
    alloc: A,
    hill: &Hill<B>,
    rows: &[Row<'_>],
) -> Result<Vec<u8, A>, AllocError>
    ensures { IfOk result (λ text. text.items ≡ matrix_text hill.now (rows_parts rows.now)) }
{
    let mut lines = Vec::new(alloc);
    lines.push(heading(alloc, rows.len())?)?;
    push_rows(alloc, &mut lines, hill, rows)?;
    noted_text(alloc, &SIDES, lines.as_slice(), rows)
}

/// Pushes the cells of each of these rows.
fn push_rows<A: Allocator + Copy, B: Allocator>(
    alloc: A,
    lines: &mut Vec<Cells<A>, A>,
    hill: &Hill<B>,
    rows: &[Row<'_>],
) -> Result<(), AllocError>
    ensures { OnOk result (lines.new.items ≡ lines.old.items
        ++ matrix_rows hill.now (rows_parts rows.now) (rows_parts rows.now)) }
{
    for place in 0..rows.len() {
        lines.push(cells_of(alloc, hill, rows, place as u64 + 1, &rows[place])?)?;
    }
    Ok(())
}

/// The headings of `count` ranks.
fn heading<A: Allocator>(alloc: A, count: usize) -> Result<Cells<A>, AllocError>
    ensures { IfOk result (λ cells. cells ≡ matrix_heading count) }
{
    let mut cells = Cells::of(alloc, [word(b"rank"), word(b"warrior")])?;
    for place in 0..count {
        cells.push(number(place as u64 + 1))?;
    }
    Ok(cells)
}

/// The cells of a warrior with its rank: one for each row.
fn cells_of<A: Allocator, B: Allocator>(
    alloc: A,
    hill: &Hill<B>,
    rows: &[Row<'_>],
    rank: u64,
    row: &Row<'_>,
) -> Result<Cells<A>, AllocError>
    ensures { IfOk result (λ cells. cells ≡ matrix_cells hill.now (rows_parts rows.now) rank (row_parts row.now)) }
{
    let mut cells = Cells::of(alloc, [number(rank), named(row.name)])?;
    for place in 0..rows.len() {
        cells.push(told_of(hill, row.entry, rows[place].entry))?;
    }
    Ok(cells)
}

/// What the line of one entry says of another, or of itself.
fn told_of<B: Allocator>(hill: &Hill<B>, one: u64, other: u64) -> Line
    ensures { result ≡ told_of hill.now one other }
{
    if one == other {
        word(b".")
    } else {
        tally_cell(between(hill, one, other))
    }
}

fn tally_cell(rounds: Tally) -> Line
    ensures { result ≡ tally_text rounds }
{
    let mut cell = number(rounds.won);
    cell.put(b"-");
    cell.put_number(rounds.lost);
    cell.put(b"-");
    cell.put_number(rounds.tied);
    cell
}
