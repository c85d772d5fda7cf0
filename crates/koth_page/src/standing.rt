//! The table of warriors by rank.

ghost use Rattle.std.specs.Prelude.{◌≡◌, ◌+◌, ◌<◌, ◌^◌, ◌++◌, ◌∷◌, [], length, codes, OnOk};
ghost use Rattle.koth_page.specs.{Ranked.{all_parts, origin_parts, ranked_parts}, Standing.{origin_cells, origin_headings, ranked_text, standing_heading, standing_row, standing_rows, standing_start, standing_text}};

use crate::cells::{number_cell, put_name_cell, put_name_heading, put_number_cells};
use crate::parts::{STANDING_START, TABLE_END};
use crate::ranked::{Origin, Ranked};
use koth_text::Piece::Text;
use koth_text::{put_all, put_line};
use std::alloc::{AllocError, Allocator};

/// Puts the table of these rows: by rank, with name, author, points, rounds won, lost and tied against all others, and
/// where each is from: of those on a hill age and entry, of others the file.
pub(crate) fn put_standing<A: Allocator>(
    page: &mut Vec<u8, A>,
    rows: &[Ranked<'_>],
) -> Result<(), AllocError>
    ensures { OnOk result (page.new.items ≡ page.old.items ++ standing_text (all_parts rows.now)) }
{
    page.extend_from_slice(STANDING_START)?;
    put_heading(page, rows)?;
    put_rows(page, rows)?;
    page.extend_from_slice(TABLE_END)?;
    Ok(())
}

fn put_heading<A: Allocator>(page: &mut Vec<u8, A>, rows: &[Ranked<'_>]) -> Result<(), AllocError>
    ensures { OnOk result (page.new.items ≡ page.old.items ++ standing_heading (all_parts rows.now)) }
{
    put_start(page)?;
    page.extend_from_slice(origin_headings(rows))?;
    page.extend_from_slice(b"</tr></thead>\n")?;
    Ok(())
}

/// Puts the headings that each table has.
#[tactic(auto, unfolding(crate::specs::Standing::standing_start))]
fn put_start<A: Allocator>(page: &mut Vec<u8, A>) -> Result<(), AllocError>
    ensures { OnOk result (page.new.items ≡ page.old.items ++ standing_start) }
{
    put_all(
        page,
        &[
            Text(
                b"<thead><tr><th scope=\"col\">rank</th><th scope=\"col\" class=\"name\">warrior</th>",
            ),
            Text(b"<th scope=\"col\" class=\"name\">author</th><th scope=\"col\">points</th>"),
            Text(
                b"<th scope=\"col\">won</th><th scope=\"col\">lost</th><th scope=\"col\">tied</th>",
            ),
        ],
    )
}

/// The headings of the last columns of these rows.
fn origin_headings(rows: &[Ranked<'_>]) -> &'static [u8]
    ensures { result.now ≡ origin_headings (all_parts rows.now) }
{
    match rows {
        [] => b"",
        [first, ..] => match first.origin {
            Origin::Entered(_) => b"<th scope=\"col\">age</th><th scope=\"col\">entry</th>",
            Origin::File(_) => b"<th scope=\"col\" class=\"name\">file</th>",
        },
    }
}

fn put_rows<A: Allocator>(page: &mut Vec<u8, A>, rows: &[Ranked<'_>]) -> Result<(), AllocError>
    ensures { OnOk result (page.new.items ≡ page.old.items ++ standing_rows (all_parts rows.now)) }
{
    for place in 0..rows.len() {
        let row = &rows[place];
        put_row(page, place as u64 + 1, row)?;
    }
    Ok(())
}

#[tactic(auto, unfolding(crate::specs::Standing::standing_row))]
fn put_row<A: Allocator>(
    page: &mut Vec<u8, A>,
    rank: u64,
    row: &Ranked<'_>,
) -> Result<(), AllocError>
    ensures { OnOk result (page.new.items ≡ page.old.items ++ standing_row rank (ranked_parts row.now)) }
{
    put_ranked(page, rank, row)?;
    let rounds = row.rounds;
    put_number_cells(page, &[row.points, rounds.won, rounds.lost, rounds.tied])?;
    put_origin(page, row)?;
    page.extend_from_slice(b"</tr>\n")
}

/// Puts the rank of a warrior, and whose it is.
#[tactic(auto, unfolding(crate::specs::Standing::ranked_text))]
fn put_ranked<A: Allocator>(
    page: &mut Vec<u8, A>,
    rank: u64,
    row: &Ranked<'_>,
) -> Result<(), AllocError>
    ensures { OnOk result (page.new.items ≡ page.old.items ++ ranked_text rank (ranked_parts row.now)) }
{
    page.extend_from_slice(b"<tr>")?;
    put_line(page, number_cell(rank))?;
    put_name_heading(page, row.name)?;
    put_name_cell(page, row.author)
}

/// Puts where a warrior is from.
fn put_origin<A: Allocator>(page: &mut Vec<u8, A>, row: &Ranked<'_>) -> Result<(), AllocError>
    ensures { OnOk result (page.new.items ≡ page.old.items ++ origin_cells (ranked_parts row.now)) }
{
    match row.origin {
        Origin::Entered(age) => put_number_cells(page, &[age, row.number]),
        Origin::File(file) => put_name_cell(page, file),
    }
}
