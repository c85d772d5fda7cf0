//! The top of a page: the hill's title, its king, and how to submit.

ghost use Rattle.std.specs.Prelude.{◌≡◌, ◌<◌, ◌^◌, ◌++◌, ◌∷◌, [], nat_lt, if◌then◌else◌, option_map, OnOk};
ghost use Rattle.{koth_hill.specs.Rows.{row_parts, rows_parts}, koth_page.specs.Sign.{address_parts, sign_parts}};
ghost use Rattle.koth_page.specs.Top.{age_text, facts_text, head_text, king_text, lines_text, lowest_with, named_text, points_text, points_word, submit_text, top_text};

use crate::parts::{BODY_START, EMPTY, HEAD};
use crate::sign::{Address, Sign};
use koth_hill::Row;
use koth_text::Piece::{Number, Text};
use koth_text::{put_all, put_escaped, put_number};
use std::alloc::{AllocError, Allocator};

/// Puts the head of a page with this sign, and what is above the settings of a hill with these rows.
#[tactic(auto, unfolding(crate::specs::Top::top_text))]
pub(crate) fn put_top<A: Allocator>(
    page: &mut Vec<u8, A>,
    sign: &Sign<'_>,
    rows: &[Row<'_>],
) -> Result<(), AllocError>
    ensures { OnOk result (page.new.items ≡ page.old.items ++ top_text (sign_parts sign.now) (rows_parts rows.now)) }
{
    put_head(page, sign.title)?;
    put_king(page, rows)?;
    put_submit(page, &sign.address)?;
    Ok(())
}

/// Puts the head of a page with this title, and the title.
pub(crate) fn put_head<A: Allocator>(page: &mut Vec<u8, A>, title: &[u8]) -> Result<(), AllocError>
    ensures { OnOk result (page.new.items ≡ page.old.items ++ head_text title.now) }
{
    page.extend_from_slice(HEAD)?;
    put_escaped(page, title)?;
    page.extend_from_slice(BODY_START)?;
    put_escaped(page, title)?;
    page.extend_from_slice(b"</h1>\n")?;
    Ok(())
}

/// Puts who is the first of these, or how a warrior comes onto a hill without any.
fn put_king<A: Allocator>(page: &mut Vec<u8, A>, rows: &[Row<'_>]) -> Result<(), AllocError>
    ensures { OnOk result (page.new.items ≡ page.old.items ++ king_text (rows_parts rows.now)) }
{
    match rows {
        [] => put_empty(page),
        [king, others @ ..] => put_king_of(page, king, others),
    }
}

#[tactic(auto, unfolding(crate::specs::Top::king_text))]
fn put_empty<A: Allocator>(page: &mut Vec<u8, A>) -> Result<(), AllocError>
    ensures { OnOk result (page.new.items ≡ page.old.items ++ king_text []) }
{
    page.extend_from_slice(EMPTY)
}

/// Puts the king, above the others.
#[tactic(auto, unfolding(crate::specs::Top::king_text))]
fn put_king_of<A: Allocator>(
    page: &mut Vec<u8, A>,
    king: &Row<'_>,
    others: &[Row<'_>],
) -> Result<(), AllocError>
    ensures { OnOk result (page.new.items
        ≡ page.old.items ++ king_text (row_parts king.now ∷ rows_parts others.now)) }
{
    let lowest = lowest_with(u64::from(king.score), others);
    put_named(page, king)?;
    put_facts(page, king, lowest)?;
    Ok(())
}

fn put_named<A: Allocator>(page: &mut Vec<u8, A>, king: &Row<'_>) -> Result<(), AllocError>
    ensures { OnOk result (page.new.items ≡ page.old.items ++ named_text (row_parts king.now)) }
{
    page.extend_from_slice(b"<p class=\"king\">King: <b>")?;
    put_escaped(page, king.name.bytes())?;
    page.extend_from_slice(b"</b> by ")?;
    put_escaped(page, king.author.bytes())?;
    Ok(())
}

#[tactic(auto, unfolding(crate::specs::Top::facts_text))]
fn put_facts<A: Allocator>(
    page: &mut Vec<u8, A>,
    king: &Row<'_>,
    lowest: u64,
) -> Result<(), AllocError>
    ensures { OnOk result (page.new.items ≡ page.old.items ++ facts_text (row_parts king.now) lowest) }
{
    page.extend_from_slice(b" <span>")?;
    put_points(page, u64::from(king.score))?;
    put_age(page, king.age)?;
    put_points(page, lowest)?;
    page.extend_from_slice(b"</span></p>\n")
}

#[tactic(auto, unfolding(crate::specs::Top::age_text))]
fn put_age<A: Allocator>(page: &mut Vec<u8, A>, age: u64) -> Result<(), AllocError>
    ensures { OnOk result (page.new.items ≡ page.old.items ++ age_text age) }
{
    put_all(
        page,
        &[
            Text(b" &middot; age "),
            Number(age),
            Text(b"</span> <span>the lowest has "),
        ],
    )
}

#[tactic(auto, unfolding(crate::specs::Top::points_text))]
fn put_points<A: Allocator>(page: &mut Vec<u8, A>, points: u64) -> Result<(), AllocError>
    ensures { OnOk result (page.new.items ≡ page.old.items ++ points_text points) }
{
    put_number(page, points)?;
    page.extend_from_slice(points_word(points))
}

/// What a number of points is called.
fn points_word(points: u64) -> &'static [u8]
    ensures { result.now ≡ points_word points }
{
    if points == 1 { b" point" } else { b" points" }
}

/// The least of a number and the points in these rows.
fn lowest_with(first: u64, rows: &[Row<'_>]) -> u64
    ensures { result ≡ lowest_with first (rows_parts rows.now) }
{
    let mut lowest = first;
    for i in 0..rows.len() {
        lowest = lesser(u64::from(rows[i].score), lowest);
    }
    lowest
}

fn lesser(one: u64, other: u64) -> u64
    ensures { result ≡ if nat_lt one other then one else other }
{
    if one < other { one } else { other }
}

/// Puts how to submit, if the page says so.
#[tactic(auto, unfolding(crate::specs::Top::submit_text))]
fn put_submit<A: Allocator>(
    page: &mut Vec<u8, A>,
    address: &Option<Address<'_>>,
) -> Result<(), AllocError>
    ensures { OnOk result (page.new.items ≡ page.old.items ++ submit_text (option_map address_parts address.now)) }
{
    match address {
        None => Ok(()),
        Some(address) => put_lines(page, address),
    }
}

/// Puts how to submit there: by the client, and by `nc`.
fn put_lines<A: Allocator>(page: &mut Vec<u8, A>, address: &Address<'_>) -> Result<(), AllocError>
    ensures { OnOk result (page.new.items ≡ page.old.items ++ lines_text (address_parts address.now)) }
{
    page.extend_from_slice(b"<pre>koth submit --to ")?;
    put_escaped(page, address.joined)?;
    page.extend_from_slice(
        b" mine.red</pre>\n<pre>(echo SUBMIT; sed 's/^\\./../; $a\\' mine.red; echo .; echo QUIT) | nc ",
    )?;
    put_escaped(page, address.apart)?;
    page.extend_from_slice(b"</pre>\n")?;
    Ok(())
}
