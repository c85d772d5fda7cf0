//! The answer to `SHOW`.

ghost use Rattle.std.specs.Prelude.{◌≡◌, ◌+◌, ◌<◌, ◌^◌, ◌++◌, length, IfOk, OnOk};
ghost use Rattle.{koth_hill.specs.Rows.{row_parts, rows_parts}, koth_protocol.specs.Table.{row_line, row_numbers, show_text}};

use koth_hill::Row;
use koth_text::{Line, put_line};
use std::alloc::{AllocError, Allocator};

/// A line for each warrior on the hill, `rank entry score age name by author`, and then a line with a dot.
pub fn show_text<A: Allocator>(alloc: A, rows: &[Row<'_>]) -> Result<Vec<u8, A>, AllocError>
    ensures { IfOk result (λ text. text.items ≡ show_text (rows_parts rows.now)) }
{
    let mut text = Vec::new(alloc);
    for place in 0..rows.len() {
        put_row(&mut text, place as u64 + 1, &rows[place])?;
    }
    text.extend_from_slice(b".\n")?;
    Ok(text)
}

fn put_row<A: Allocator>(text: &mut Vec<u8, A>, rank: u64, row: &Row<'_>) -> Result<(), AllocError>
    ensures { OnOk result (text.new.items ≡ text.old.items ++ row_line rank (row_parts row.now)) }
{
    put_line(text, numbers_of(rank, row))?;
    text.extend_from_slice(row.name.bytes())?;
    text.extend_from_slice(b" by ")?;
    text.extend_from_slice(row.author.bytes())?;
    text.extend_from_slice(b"\n")
}

/// The numbers in a row, with a blank after each.
fn numbers_of(rank: u64, row: &Row<'_>) -> Line
    ensures { result ≡ row_numbers rank (row_parts row.now) }
{
    let mut line = Line::new();
    line.put_number(rank);
    line.put(b" ");
    line.put_number(row.entry);
    line.put(b" ");
    line.put_number(u64::from(row.score));
    line.put(b" ");
    line.put_number(row.age);
    line.put(b" ");
    line
}
