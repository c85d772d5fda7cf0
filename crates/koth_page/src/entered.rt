//! The rows of a hill, as its page shows them.

ghost use Rattle.std.specs.Prelude.{◌≡◌, ◌++◌, map, IfOk, OnOk};
ghost use Rattle.{koth_hill.specs.Rows.{row_parts, rows_parts}, koth_page.specs.{Entered.{entered, entered_rows}, Ranked.{all_parts, ranked_parts}}};

use crate::ranked::{Origin, Ranked};
use koth_hill::{Hill, Row};
use koth_views::against_all;
use std::alloc::{AllocError, Allocator};

/// These rows of a hill, each with its rounds. The error is lack of memory.
pub(crate) fn entered_rows<'r, A: Allocator, B: Allocator>(
    alloc: A,
    hill: &Hill<B>,
    rows: &[Row<'r>],
) -> Result<Vec<Ranked<'r>, A>, AllocError>
    ensures { IfOk result (λ all. all_parts all.items ≡ entered_rows hill.now (rows_parts rows.now)) }
{
    let mut all = Vec::new(alloc);
    push_rows(&mut all, hill, rows)?;
    Ok(all)
}

fn push_rows<'r, A: Allocator, B: Allocator>(
    all: &mut Vec<Ranked<'r>, A>,
    hill: &Hill<B>,
    rows: &[Row<'r>],
) -> Result<(), AllocError>
    ensures { OnOk result (all_parts all.new.items
        ≡ all_parts all.old.items ++ entered_rows hill.now (rows_parts rows.now)) }
{
    for place in 0..rows.len() {
        all.push(entered(hill, &rows[place]))?;
    }
    Ok(())
}

/// A row of a hill with its rounds.
fn entered<'r, B: Allocator>(hill: &Hill<B>, row: &Row<'r>) -> Ranked<'r>
    ensures { ranked_parts result ≡ entered hill.now (row_parts row.now) }
{
    Ranked {
        number: row.entry,
        name: row.name.bytes(),
        author: row.author.bytes(),
        points: u64::from(row.score),
        rounds: against_all(hill, row.entry),
        origin: Origin::Entered(row.age),
    }
}
