//! The page of a ranking.

ghost use Rattle.std.specs.{Prelude.{◌≡◌, ℕ, List, ◌++◌, map, IfOk, IsTrue, OnOk}, List.list_all};
ghost use Rattle.koth_text.specs.{Characters.{is_harmless, is_page_byte, markup_of}, Escape.escaped};
ghost use Rattle.koth_page.specs.{Laws.{another_seed, nameless_rows}, Ranked.all_parts, Ranking.{note_of, ranking_page}};

use crate::links::Links;
use crate::parts::{END, UNRANKED};
use crate::ranked::Ranked;
use crate::results::Results;
use crate::settings::put_ranking_settings;
use crate::tables::put_tables;
use crate::top::put_head;
use std::alloc::{AllocError, Allocator};
use war_types::Settings;

/// The title of a ranking's page.
pub const RANKING: &[u8] = b"Ranking";

/// The page of these warriors, the first with rank 1: the title, the settings without the seed, the table, and their
/// matches, by these results; without warriors a sentence in place of the tables. `both` says that each match is fought
/// in both orders. Numbers of warriors differ. The page is HTML in ASCII that loads nothing and has no script, and it
/// links to nothing. The error is lack of memory.
pub fn ranking_page<A: Allocator, R: Results>(
    alloc: A,
    title: &[u8],
    settings: &Settings,
    both: bool,
    rows: &[Ranked<'_>],
    results: &R,
) -> Result<Vec<u8, A>, AllocError>
    ensures page { IfOk result (λ page. page.items
        ≡ ranking_page title.now settings.now both (R.rounds results.now) (all_parts rows.now)) }

    // Whatever a name or a file is, what stands for it has no character that begins or ends a tag or the value of an
    // attribute ..
    ensures harmless { (text : List ℕ) → IsTrue (list_all is_harmless (escaped text)) }

    // .. so the page has all of those that it would have if no warrior had a name and a file, and no others.
    ensures markup { IfOk result (λ page. markup_of page.items ≡ markup_of
        (ranking_page title.now settings.now both (R.rounds results.now) (nameless_rows (all_parts rows.now)))) }
    ensures ascii { IfOk result (λ page. IsTrue (list_all is_page_byte page.items)) }

    // The page is the same under any other seed, but for what the seed does to the results of matches.
    ensures seed { (seed : ℕ) → IfOk result (λ page. page.items
        ≡ ranking_page title.now (another_seed seed settings.now) both (R.rounds results.now) (all_parts rows.now)) }
{
    page_of(alloc, title, settings, both, rows, results)
}

fn page_of<A: Allocator, R: Results>(
    alloc: A,
    title: &[u8],
    settings: &Settings,
    both: bool,
    rows: &[Ranked<'_>],
    results: &R,
) -> Result<Vec<u8, A>, AllocError>
    ensures { IfOk result (λ page. page.items
        ≡ ranking_page title.now settings.now both (R.rounds results.now) (all_parts rows.now)) }
{
    let mut page = Vec::new(alloc);
    put_page(&mut page, title, settings, both, rows, results)?;
    Ok(page)
}

fn put_page<A: Allocator, R: Results>(
    page: &mut Vec<u8, A>,
    title: &[u8],
    settings: &Settings,
    both: bool,
    rows: &[Ranked<'_>],
    results: &R,
) -> Result<(), AllocError>
    ensures { OnOk result (page.new.items ≡ page.old.items
        ++ ranking_page title.now settings.now both (R.rounds results.now) (all_parts rows.now)) }
{
    put_head(page, title)?;
    page.extend_from_slice(note_of(rows))?;
    put_ranking_settings(page, settings, both)?;
    put_tables(page, results, Links::None, rows)?;
    page.extend_from_slice(END)?;
    Ok(())
}

/// What is said of these rows if there are none.
fn note_of(rows: &[Ranked<'_>]) -> &'static [u8]
    ensures { result.now ≡ note_of (all_parts rows.now) }
{
    match rows {
        [] => UNRANKED,
        [_, ..] => b"",
    }
}
