//! The matches of warriors: who won, lost and tied how many rounds against whom.

ghost use Rattle.std.specs.{Prelude.{◌≡◌, ◌+◌, ◌<◌, ◌^◌, ◌++◌, length, codes, decimal, OnOk}, List.{enumerate_from, flat_map}};
ghost use Rattle.koth_page.specs.Ranked.{all_parts, ranked_parts};
ghost use Rattle.koth_page.specs.Matches.{cell_start, fought_cell, fought_text, label_text, link_start, match_cell, matches_heading, matches_row, matches_rows, matches_text, pair_text, rank_heading, rounds_text, row_heading, sides_text};

use crate::cells::number_cell;
use crate::links::Links;
use crate::parts::{MATCHES_START, TABLE_END};
use crate::ranked::Ranked;
use crate::results::Results;
use crate::shade::put_shade;
use koth_text::Piece::{Escaped, Number, Text};
use koth_text::{Line, Tally, put_all, put_escaped, put_line, put_number};
use std::alloc::{AllocError, Allocator};

/// Puts the matches of these rows: a row for each warrior by rank, and a column for each other by rank.
pub(crate) fn put_matches<A: Allocator, R: Results>(
    page: &mut Vec<u8, A>,
    results: &R,
    links: Links,
    rows: &[Ranked<'_>],
) -> Result<(), AllocError>
    ensures { OnOk result (page.new.items
        ≡ page.old.items ++ matches_text (R.rounds results.now) links (all_parts rows.now)) }
{
    page.extend_from_slice(MATCHES_START)?;
    put_heading(page, rows)?;
    put_rows(page, results, links, rows)?;
    page.extend_from_slice(TABLE_END)?;
    Ok(())
}

fn put_heading<A: Allocator>(page: &mut Vec<u8, A>, rows: &[Ranked<'_>]) -> Result<(), AllocError>
    ensures { OnOk result (page.new.items ≡ page.old.items ++ matches_heading (all_parts rows.now)) }
{
    page.extend_from_slice(
        b"<thead><tr><th scope=\"col\">rank</th><th scope=\"col\" class=\"name\">warrior</th>",
    )?;
    put_rank_headings(page, rows)?;
    page.extend_from_slice(b"</tr></thead>\n")?;
    Ok(())
}

fn put_rank_headings<A: Allocator>(
    page: &mut Vec<u8, A>,
    rows: &[Ranked<'_>],
) -> Result<(), AllocError>
    ensures { OnOk result (page.new.items ≡ page.old.items
        ++ flat_map (λ (rank, row). rank_heading rank row) (enumerate_from 1 (all_parts rows.now))) }
{
    for place in 0..rows.len() {
        let row = &rows[place];
        put_rank_heading(page, place as u64 + 1, row)?;
    }
    Ok(())
}

/// Puts the heading of the column of a rank, which names the warrior.
fn put_rank_heading<A: Allocator>(
    page: &mut Vec<u8, A>,
    rank: u64,
    row: &Ranked<'_>,
) -> Result<(), AllocError>
    ensures { OnOk result (page.new.items ≡ page.old.items ++ rank_heading rank (ranked_parts row.now)) }
{
    page.extend_from_slice(b"<th scope=\"col\" title=\"")?;
    put_escaped(page, row.name)?;
    page.extend_from_slice(b"\">")?;
    put_number(page, rank)?;
    page.extend_from_slice(b"</th>")?;
    Ok(())
}

fn put_rows<A: Allocator, R: Results>(
    page: &mut Vec<u8, A>,
    results: &R,
    links: Links,
    rows: &[Ranked<'_>],
) -> Result<(), AllocError>
    ensures { OnOk result (page.new.items ≡ page.old.items
        ++ matches_rows (R.rounds results.now) links (all_parts rows.now) (all_parts rows.now)) }
{
    for place in 0..rows.len() {
        let row = &rows[place];
        put_row(page, results, links, rows, place as u64 + 1, row)?;
    }
    Ok(())
}

/// Puts the row of a warrior with its rank: a cell for each of these rows.
#[tactic(auto, unfolding(crate::specs::Matches::matches_row))]
fn put_row<A: Allocator, R: Results>(
    page: &mut Vec<u8, A>,
    results: &R,
    links: Links,
    rows: &[Ranked<'_>],
    rank: u64,
    row: &Ranked<'_>,
) -> Result<(), AllocError>
    ensures { OnOk result (page.new.items ≡ page.old.items
        ++ matches_row (R.rounds results.now) links (all_parts rows.now) rank (ranked_parts row.now)) }
{
    page.extend_from_slice(b"<tr>")?;
    put_line(page, number_cell(rank))?;
    put_row_heading(page, row)?;
    put_cells(page, results, links, row, rows)?;
    page.extend_from_slice(b"</tr>\n")
}

/// Puts the name of the warrior of a row, by which links name it too.
fn put_row_heading<A: Allocator>(page: &mut Vec<u8, A>, row: &Ranked<'_>) -> Result<(), AllocError>
    ensures { OnOk result (page.new.items ≡ page.old.items ++ row_heading (ranked_parts row.now)) }
{
    page.extend_from_slice(b"<th scope=\"row\" class=\"name\" id=\"w")?;
    put_number(page, row.number)?;
    page.extend_from_slice(b"\">")?;
    put_escaped(page, row.name)?;
    page.extend_from_slice(b"</th>")?;
    Ok(())
}

fn put_cells<A: Allocator, R: Results>(
    page: &mut Vec<u8, A>,
    results: &R,
    links: Links,
    row: &Ranked<'_>,
    rows: &[Ranked<'_>],
) -> Result<(), AllocError>
    ensures { OnOk result (page.new.items ≡ page.old.items
        ++ flat_map (match_cell (R.rounds results.now) links (ranked_parts row.now)) (all_parts rows.now)) }
{
    for place in 0..rows.len() {
        let other = &rows[place];
        put_cell(page, results, links, row, other)?;
    }
    Ok(())
}

/// Puts what the row of one warrior says of another, or of itself.
fn put_cell<A: Allocator, R: Results>(
    page: &mut Vec<u8, A>,
    results: &R,
    links: Links,
    row: &Ranked<'_>,
    other: &Ranked<'_>,
) -> Result<(), AllocError>
    ensures { OnOk result (page.new.items ≡ page.old.items
        ++ match_cell (R.rounds results.now) links (ranked_parts row.now) (ranked_parts other.now)) }
{
    if row.number == other.number {
        page.extend_from_slice(b"<td class=\"self\">&middot;</td>")
    } else {
        let rounds = results.against(row.number, other.number);
        put_fought_cell(page, links, rounds, row, other)
    }
}

/// Puts the cell of two that fought, from the side of the first.
#[tactic(auto, unfolding(crate::specs::Matches::fought_cell))]
fn put_fought_cell<A: Allocator>(
    page: &mut Vec<u8, A>,
    links: Links,
    rounds: Tally,
    row: &Ranked<'_>,
    other: &Ranked<'_>,
) -> Result<(), AllocError>
    ensures { OnOk result (page.new.items ≡ page.old.items
        ++ fought_cell links rounds (ranked_parts row.now) (ranked_parts other.now)) }
{
    put_cell_start(page, rounds, row, other)?;
    put_fought(page, links, rounds, row, other)?;
    page.extend_from_slice(b"</td>")
}

/// Puts what begins the cell of two that fought: its shade, and who they are.
fn put_cell_start<A: Allocator>(
    page: &mut Vec<u8, A>,
    rounds: Tally,
    row: &Ranked<'_>,
    other: &Ranked<'_>,
) -> Result<(), AllocError>
    ensures { OnOk result (page.new.items ≡ page.old.items
        ++ cell_start rounds (ranked_parts row.now) (ranked_parts other.now)) }
{
    page.extend_from_slice(b"<td class=\"")?;
    put_shade(page, rounds)?;
    page.extend_from_slice(b"\" title=\"")?;
    put_sides(page, row, other)?;
    page.extend_from_slice(b"\">")?;
    Ok(())
}

/// Puts who fought whom.
#[tactic(auto, unfolding(crate::specs::Matches::sides_text))]
fn put_sides<'r, A: Allocator>(
    page: &mut Vec<u8, A>,
    row: &'r Ranked<'r>,
    other: &'r Ranked<'r>,
) -> Result<(), AllocError>
    ensures { OnOk result (page.new.items
        ≡ page.old.items ++ sides_text (ranked_parts row.now) (ranked_parts other.now)) }
{
    put_all(
        page,
        &[Escaped(row.name), Text(b" against "), Escaped(other.name)],
    )
}

/// Puts the rounds of two that fought, in a link to the first round if rounds are linked.
#[tactic(auto, unfolding(crate::specs::Matches::fought_text))]
fn put_fought<A: Allocator>(
    page: &mut Vec<u8, A>,
    links: Links,
    rounds: Tally,
    row: &Ranked<'_>,
    other: &Ranked<'_>,
) -> Result<(), AllocError>
    ensures { OnOk result (page.new.items ≡ page.old.items
        ++ fought_text links rounds (ranked_parts row.now) (ranked_parts other.now)) }
{
    match links {
        Links::None => put_line(page, rounds_line(rounds)),
        Links::Rounds => {
            let older = row.number.min(other.number);
            let younger = row.number.max(other.number);
            put_line(page, link_start(older, younger))?;
            put_label(page, row.number, other.number)?;
            put_line(page, rounds_line(rounds))?;
            page.extend_from_slice(b"</a>")
        }
    }
}

/// What begins a link to the first round of a match.
#[tactic(auto, unfolding(crate::specs::Matches::link_start))]
fn link_start(older: u64, younger: u64) -> Line
    ensures { result ≡ link_start older younger }
{
    let mut line = Line::new();
    line.put(b"<a href=\"/replay/");
    line.put_number(older);
    line.put(b"/");
    line.put_number(younger);
    line.put(b"/1\"");
    line
}

/// Puts what a link is called: the names of the two in the headings of their rows, and then its own text.
#[tactic(auto, unfolding(crate::specs::Matches::label_text))]
fn put_label<A: Allocator>(page: &mut Vec<u8, A>, one: u64, other: u64) -> Result<(), AllocError>
    ensures { OnOk result (page.new.items ≡ page.old.items ++ label_text one other) }
{
    put_pair(page, b" id=\"m", one, b"-", other)?;
    put_pair(page, b"\" aria-labelledby=\"w", one, b" vs w", other)?;
    put_pair(page, b" m", one, b"-", other)?;
    page.extend_from_slice(b"\">")?;
    Ok(())
}

#[tactic(auto, unfolding(crate::specs::Matches::pair_text))]
fn put_pair<'t, A: Allocator>(
    page: &mut Vec<u8, A>,
    before: &'t [u8],
    one: u64,
    between: &'t [u8],
    other: u64,
) -> Result<(), AllocError>
    ensures { OnOk result (page.new.items ≡ page.old.items ++ pair_text before.now one between.now other) }
{
    put_all(
        page,
        &[Text(before), Number(one), Text(between), Number(other)],
    )
}

#[tactic(auto, unfolding(crate::specs::Matches::rounds_text))]
fn rounds_line(rounds: Tally) -> Line
    ensures { result ≡ rounds_text rounds }
{
    let mut line = Line::new();
    line.put_number(rounds.won);
    line.put(b"-");
    line.put_number(rounds.lost);
    line
}
