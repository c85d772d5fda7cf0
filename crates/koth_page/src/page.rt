//! The page of a hill.

ghost use Rattle.std.specs.{Prelude.{◌≡◌, ℕ, List, ◌++◌, codes, IfOk, IsTrue, OnOk}, List.list_all};
ghost use Rattle.{koth_hill.specs.Rows.rows_parts, koth_text.specs.{Characters.{is_harmless, is_page_byte, markup_of}, Escape.escaped}};
ghost use Rattle.koth_page.specs.{Laws.{nameless, with_seed}, Page.{hill_page, page_of}, Sign.sign_parts};

use crate::links::Links;
use crate::parts::END;
use crate::settings::put_settings;
use crate::sign::Sign;
use crate::tables::put_hill_tables;
use crate::top::put_top;
use koth_hill::{Hill, Row};
use std::alloc::{AllocError, Allocator};

/// The page of a hill: its title and how to submit, as this sign says, its king with the lowest points, its settings
/// without the seed, its table, and its matches; a hill without warriors has a sentence instead of king and tables. It
/// is HTML in ASCII that loads nothing and has no script. No match is fought. The links say whether each result leads
/// to the first round of its match, which a service shows. The error is lack of memory.
pub fn hill_page<A: Allocator + Copy, B: Allocator>(
    alloc: A,
    hill: &Hill<B>,
    sign: &Sign<'_>,
    links: Links,
) -> Result<Vec<u8, A>, AllocError>
    ensures page { IfOk result (λ page. page.items ≡ hill_page hill.now (sign_parts sign.now) links) }

    // Whatever a name is, what stands for it has no character that begins or ends a tag or the value of an attribute ..
    ensures harmless { (text : List ℕ) → IsTrue (list_all is_harmless (escaped text)) }

    // .. so the page has all of those that it would have if no one on the hill had a name, and no others.
    ensures markup { IfOk result (λ page. markup_of page.items
        ≡ markup_of (hill_page (nameless hill.now) (sign_parts sign.now) links)) }
    ensures ascii { IfOk result (λ page. IsTrue (list_all is_page_byte page.items)) }

    // The page is the same under any other seed, but for what the seed does to the results of matches.
    ensures seed { (seed : ℕ) → IfOk result (λ page. page.items
        ≡ hill_page (with_seed seed hill.now) (sign_parts sign.now) links) }
{
    page_of(alloc, hill, sign, links)
}

fn page_of<A: Allocator + Copy, B: Allocator>(
    alloc: A,
    hill: &Hill<B>,
    sign: &Sign<'_>,
    links: Links,
) -> Result<Vec<u8, A>, AllocError>
    ensures { IfOk result (λ page. page.items ≡ hill_page hill.now (sign_parts sign.now) links) }
{
    let rows = hill.rows(alloc)?;
    page_with(alloc, hill, sign, links, rows.as_slice())
}

/// The page of a hill with these rows.
fn page_with<A: Allocator + Copy, B: Allocator>(
    alloc: A,
    hill: &Hill<B>,
    sign: &Sign<'_>,
    links: Links,
    rows: &[Row<'_>],
) -> Result<Vec<u8, A>, AllocError>
    ensures { IfOk result (λ page. page.items ≡ page_of hill.now (sign_parts sign.now) links (rows_parts rows.now)) }
{
    let mut page = Vec::new(alloc);
    put_page(alloc, &mut page, hill, sign, links, rows)?;
    Ok(page)
}

fn put_page<A: Allocator + Copy, B: Allocator>(
    alloc: A,
    page: &mut Vec<u8, A>,
    hill: &Hill<B>,
    sign: &Sign<'_>,
    links: Links,
    rows: &[Row<'_>],
) -> Result<(), AllocError>
    ensures { OnOk result (page.new.items
        ≡ page.old.items ++ page_of hill.now (sign_parts sign.now) links (rows_parts rows.now)) }
{
    put_top(page, sign, rows)?;
    put_settings(page, hill.settings())?;
    put_hill_tables(alloc, page, hill, links, rows)?;
    page.extend_from_slice(END)?;
    Ok(())
}
