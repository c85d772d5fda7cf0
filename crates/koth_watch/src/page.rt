//! The page of a round.

ghost use Rattle.std.specs.{Prelude.{◌≡◌, ◌++◌, codes, IfOk, IsTrue, OnOk}, List.list_all};
ghost use Rattle.{koth_text.specs.Characters.{is_page_byte, markup_of}, koth_watch.specs.{Data.data_text, Laws.{is_data_byte, unnamed}, Page.{heading_text, round_page, scripts_text}}};

use crate::data::put_data;
use crate::drawing::DRAWING_SCRIPT;
use crate::heading::{put_ending, put_sides, put_warriors};
use crate::parts::{CONTROLS, END, HEAD, STYLE};
use crate::script::ROUND_SCRIPT;
use crate::sentence::Told;
use koth_replay::Replay;
use std::alloc::{AllocError, Allocator};
use war_types::Warrior;

/// The page of a round of two warriors: who fights whom, how it ended, and why, and its turns, to be watched one by
/// one. It is HTML in ASCII that loads nothing. What is drawn are the events of the replay, and the page has them all.
/// The error is lack of memory.
pub fn round_page<A: Allocator, B: Allocator, C: Allocator, D: Allocator>(
    alloc: A,
    older: &Warrior<B>,
    younger: &Warrior<C>,
    told: &Told,
    replay: &Replay<D>,
) -> Result<Vec<u8, A>, AllocError>
    ensures page { IfOk result (λ page. page.items ≡ round_page older.now younger.now told.now replay.now) }

    // Nothing of the data ends the element that they are in.
    ensures contained { IsTrue (list_all is_data_byte (data_text replay.now)) }

    // The page has all that begins or ends a tag or the value of an attribute which it would have if no one had a name,
    // and no more.
    ensures markup { IfOk result (λ page. markup_of page.items
        ≡ markup_of (round_page (unnamed older.now) (unnamed younger.now) told.now replay.now)) }
    ensures ascii { IfOk result (λ page. IsTrue (list_all is_page_byte page.items)) }
{
    page_of(alloc, older, younger, told, replay)
}

#[tactic(auto, unfolding(crate::specs::Page::round_page))]
fn page_of<A: Allocator, B: Allocator, C: Allocator, D: Allocator>(
    alloc: A,
    older: &Warrior<B>,
    younger: &Warrior<C>,
    told: &Told,
    replay: &Replay<D>,
) -> Result<Vec<u8, A>, AllocError>
    ensures { IfOk result (λ page. page.items ≡ round_page older.now younger.now told.now replay.now) }
{
    let mut page = Vec::new(alloc);
    put_heading(&mut page, older, younger, told, replay)?;
    put_warriors(&mut page, older, younger)?;
    page.extend_from_slice(CONTROLS)?;
    put_data(&mut page, replay)?;
    put_scripts(&mut page)?;
    page.extend_from_slice(END)?;
    Ok(page)
}

#[tactic(auto, unfolding(crate::specs::Page::heading_text))]
fn put_heading<A: Allocator, B: Allocator, C: Allocator, D: Allocator>(
    page: &mut Vec<u8, A>,
    older: &Warrior<B>,
    younger: &Warrior<C>,
    told: &Told,
    replay: &Replay<D>,
) -> Result<(), AllocError>
    ensures { OnOk result (page.new.items ≡ page.old.items ++ heading_text older.now younger.now told.now replay.now) }
{
    page.extend_from_slice(HEAD)?;
    put_sides(page, older, younger)?;
    page.extend_from_slice(STYLE)?;
    put_sides(page, older, younger)?;
    page.extend_from_slice(b"</h1>\n")?;
    put_ending(page, older, younger, told, replay)
}

#[tactic(auto, unfolding(crate::specs::Page::scripts_text))]
fn put_scripts<A: Allocator>(page: &mut Vec<u8, A>) -> Result<(), AllocError>
    ensures { OnOk result (page.new.items ≡ page.old.items ++ scripts_text) }
{
    page.extend_from_slice(ROUND_SCRIPT)?;
    page.extend_from_slice(DRAWING_SCRIPT)
}
