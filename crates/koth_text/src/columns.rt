//! Rows of cells, laid out in columns. The words, numbers and names in cells are printable ASCII, so a byte takes one place.

ghost use Rattle.std.specs.Prelude.{◌≡◌, ◌+◌, ◌-◌, ◌<◌, ◌≤◌, ◌++◌, length, codes, replicate, IfOk, OnOk};
ghost use Rattle.koth_text.specs.Columns.{alignment_at, cell_text, cells_text, columns_text, gap, padded, row_text, table_text, width};

use crate::cells::Cells;
use std::alloc::{AllocError, Allocator};
use war_types::without_blanks_behind;

/// At which side of its column a cell stands.
#[derive(Clone, Copy, PartialEq, Eq)]
pub enum Alignment {
    /// At the left, with the blanks after it.
    Left,
    /// At the right, with the blanks before it.
    Right,
}

/// The lines of these rows: each column as wide as the longest of its cells, two blanks between columns, and no blanks at
/// a line's end. Columns past the last that has an alignment are aligned at the right. The error is lack of memory.
pub fn columns_text<A: Allocator + Copy>(
    alloc: A,
    alignments: &[Alignment],
    rows: &[Cells<A>],
) -> Result<Vec<u8, A>, AllocError>
    ensures { IfOk result (λ text. text.items ≡ columns_text alignments.now rows.now) }
{
    let mut text = Vec::new(alloc);
    for place in 0..rows.len() {
        put_row(alloc, &mut text, alignments, rows, &rows[place])?;
    }
    Ok(text)
}

/// The lines of a table, whose first row has the headings; no text if it has no other row. The error is lack of memory.
pub fn table_text<A: Allocator + Copy>(
    alloc: A,
    alignments: &[Alignment],
    rows: &[Cells<A>],
) -> Result<Vec<u8, A>, AllocError>
    ensures { IfOk result (λ text. text.items ≡ table_text alignments.now rows.now) }
{
    match rows {
        [] | [_] => Ok(Vec::new(alloc)),
        [_, _, ..] => columns_text(alloc, alignments, rows),
    }
}

fn put_row<A: Allocator + Copy>(
    alloc: A,
    text: &mut Vec<u8, A>,
    alignments: &[Alignment],
    rows: &[Cells<A>],
    row: &Cells<A>,
) -> Result<(), AllocError>
    ensures { OnOk result (text.new.items ≡ text.old.items ++ row_text alignments.now rows.now row.now) }
{
    let mut line = Vec::new(alloc);
    put_cells(&mut line, alignments, rows, row)?;
    text.extend_from_slice(without_blanks_behind(line.as_slice()))?;
    text.extend_from_slice(b"\n")
}

/// Puts the cells of a row side by side.
fn put_cells<A: Allocator>(
    line: &mut Vec<u8, A>,
    alignments: &[Alignment],
    rows: &[Cells<A>],
    row: &Cells<A>,
) -> Result<(), AllocError>
    ensures { OnOk result (line.new.items ≡ line.old.items ++ cells_text alignments.now rows.now row.now) }
{
    for column in 0..row.len() {
        put_cell(line, alignments, rows, row, column)?;
    }
    Ok(())
}

fn put_cell<A: Allocator>(
    line: &mut Vec<u8, A>,
    alignments: &[Alignment],
    rows: &[Cells<A>],
    row: &Cells<A>,
    column: usize,
) -> Result<(), AllocError>
    ensures { OnOk result (line.new.items ≡ line.old.items ++ cell_text alignments.now rows.now row.now column) }
{
    line.extend_from_slice(gap(column))?;
    put_padded(
        line,
        alignment_at(alignments, column),
        width(rows, column),
        row.cell(column),
    )
}

/// Puts a text at one side of `places` places; a longer text stands as it is. The error is lack of memory.
pub fn put_padded<A: Allocator>(
    line: &mut Vec<u8, A>,
    alignment: Alignment,
    places: usize,
    text: &[u8],
) -> Result<(), AllocError>
    ensures { OnOk result (line.new.items ≡ line.old.items ++ padded alignment places text.now) }
{
    let blanks = places.saturating_sub(text.len());
    match alignment {
        Alignment::Left => {
            line.extend_from_slice(text)?;
            put_blanks(line, blanks)
        }
        Alignment::Right => {
            put_blanks(line, blanks)?;
            line.extend_from_slice(text)
        }
    }
}

fn put_blanks<A: Allocator>(line: &mut Vec<u8, A>, count: usize) -> Result<(), AllocError>
    ensures { OnOk result (line.new.items ≡ line.old.items ++ replicate count 32) }
{
    for _ in 0..count {
        line.push(b' ')?;
    }
    Ok(())
}

/// What stands before a column.
fn gap(column: usize) -> &'static [u8]
    ensures { result.now ≡ gap column }
{
    if column == 0 { b"" } else { b"  " }
}

fn alignment_at(alignments: &[Alignment], column: usize) -> Alignment
    ensures { result ≡ alignment_at alignments.now column }
{
    match alignments.get(column) {
        Some(alignment) => *alignment,
        None => Alignment::Right,
    }
}

/// The greatest length of a cell in a column.
fn width<A: Allocator>(rows: &[Cells<A>], column: usize) -> usize
    ensures { result ≡ width rows.now column }
{
    let mut width = 0;
    for place in 0..rows.len() {
        width = rows[place].cell(column).len().max(width);
    }
    width
}
