//! Who is on a hill.

ghost use Rattle.std.specs.Prelude.{◌≡◌, IfOk};
ghost use Rattle.{koth_hill.specs.Rows.{row_parts, rows_parts}, koth_views.specs.Roster.{entered_of, roster, roster_of}};

use koth_hill::{Hill, Row};
use koth_text::Line;
use koth_text::cells::named;
use std::alloc::{AllocError, Allocator};

/// A warrior that is on a hill, or stood there.
#[derive(Drop)]
pub struct Entered {
    /// The number of its entry, from 1 on.
    pub entry: u64,
    /// The warrior's name.
    pub name: Line,
    /// Its author's name.
    pub author: Line,
}

/// All on a hill, by rank. They stay as they are whatever becomes of the hill. The error is lack of memory.
pub fn roster<A: Allocator + Copy, B: Allocator>(
    alloc: A,
    hill: &Hill<B>,
) -> Result<Vec<Entered, A>, AllocError>
    ensures { IfOk result (λ entered. entered.items ≡ roster hill.now) }
{
    match hill.rows(alloc) {
        Ok(rows) => roster_of(alloc, rows.as_slice()),
        Err(error) => Err(error),
    }
}

fn roster_of<A: Allocator>(alloc: A, rows: &[Row<'_>]) -> Result<Vec<Entered, A>, AllocError>
    ensures { IfOk result (λ entered. entered.items ≡ roster_of (rows_parts rows.now)) }
{
    let mut entered = Vec::new(alloc);
    for place in 0..rows.len() {
        entered.push(entered_of(&rows[place]))?;
    }
    Ok(entered)
}

fn entered_of(row: &Row<'_>) -> Entered
    ensures { result ≡ entered_of (row_parts row.now) }
{
    Entered {
        entry: row.entry,
        name: named(row.name),
        author: named(row.author),
    }
}
