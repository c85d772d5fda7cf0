//! The two tables of a page: the warriors by rank, and their matches.

ghost use Rattle.std.specs.Prelude.{◌≡◌, ◌++◌, OnOk};
ghost use Rattle.{koth_hill.specs.Rows.rows_parts, koth_page.specs.{Page.hill_tables, Ranked.all_parts, Tables.tables_text}};

use crate::entered::entered_rows;
use crate::links::Links;
use crate::matches::put_matches;
use crate::ranked::Ranked;
use crate::results::Results;
use crate::standing::put_standing;
use koth_hill::{Hill, Row};
use std::alloc::{AllocError, Allocator};

/// Puts the tables of these rows of a hill. The error is lack of memory.
pub(crate) fn put_hill_tables<A: Allocator + Copy, B: Allocator>(
    alloc: A,
    page: &mut Vec<u8, A>,
    hill: &Hill<B>,
    links: Links,
    rows: &[Row<'_>],
) -> Result<(), AllocError>
    ensures { OnOk result (page.new.items ≡ page.old.items ++ hill_tables hill.now links (rows_parts rows.now)) }
{
    let entered = entered_rows(alloc, hill, rows)?;
    put_tables(page, hill, links, entered.as_slice())?;
    Ok(())
}

/// Puts the tables of these rows with these results, if there are any rows. The error is lack of memory.
pub(crate) fn put_tables<A: Allocator, R: Results>(
    page: &mut Vec<u8, A>,
    results: &R,
    links: Links,
    rows: &[Ranked<'_>],
) -> Result<(), AllocError>
    ensures { OnOk result (page.new.items
        ≡ page.old.items ++ tables_text (R.rounds results.now) links (all_parts rows.now)) }
{
    if rows.is_empty() {
        return Ok(());
    }
    put_standing(page, rows)?;
    put_matches(page, results, links, rows)
}
