//! What a page says of its round in words.

ghost use Rattle.std.specs.Prelude.{◌≡◌, ◌+◌, ◌≤◌, ◌++◌, length, codes, decimal, OnOk};
ghost use Rattle.koth_watch.specs.Heading.{cut_told, ending_text, outcome_text, round_told, sides_text, turns_told, warrior_text, warriors_text, whole_told, why_text, winner_text};

use crate::parts::{OLDER_START, WARRIORS_END, YOUNGER_START};
use crate::sentence::{Told, put_sentence};
use crate::shown::Form;
use koth_replay::Replay;
use koth_text::Piece::{Escaped, Text};
use koth_text::{Line, put_all, put_line};
use mars_core::Outcome;
use std::alloc::{AllocError, Allocator};
use war_types::Warrior;

/// Puts who fights whom.
#[tactic(auto, unfolding(crate::specs::Heading::sides_text))]
pub(crate) fn put_sides<'w, A: Allocator, B: Allocator, C: Allocator>(
    page: &mut Vec<u8, A>,
    older: &'w Warrior<B>,
    younger: &'w Warrior<C>,
) -> Result<(), AllocError>
    ensures { OnOk result (page.new.items ≡ page.old.items ++ sides_text older.now younger.now) }
{
    put_all(
        page,
        &[
            Escaped(older.name().bytes()),
            Text(b" against "),
            Escaped(younger.name().bytes()),
        ],
    )
}

/// Puts which round it is, how it ended, and why.
#[tactic(auto, unfolding(crate::specs::Heading::ending_text))]
pub(crate) fn put_ending<A: Allocator, B: Allocator, C: Allocator, D: Allocator>(
    page: &mut Vec<u8, A>,
    older: &Warrior<B>,
    younger: &Warrior<C>,
    told: &Told,
    replay: &Replay<D>,
) -> Result<(), AllocError>
    ensures { OnOk result (page.new.items ≡ page.old.items ++ ending_text older.now younger.now told.now replay.now) }
{
    put_line(page, round_line(told.round, replay.opening().core))?;
    put_outcome(page, older, younger, replay.outcome())?;
    put_line(page, turns_line(replay.is_cut(), replay.turns() as u64))?;
    put_why(page, older, younger, told)
}

/// Puts how the round ended, and why, as a sentence.
#[tactic(auto, unfolding(crate::specs::Heading::why_text))]
fn put_why<A: Allocator, B: Allocator, C: Allocator>(
    page: &mut Vec<u8, A>,
    older: &Warrior<B>,
    younger: &Warrior<C>,
    told: &Told,
) -> Result<(), AllocError>
    ensures { OnOk result (page.new.items ≡ page.old.items ++ why_text older.now younger.now told.now) }
{
    page.extend_from_slice(b"<p>")?;
    put_sentence(page, Form::Page, older, younger, told)?;
    page.extend_from_slice(b"</p>\n")
}

#[tactic(auto, unfolding(crate::specs::Heading::round_told))]
fn round_line(round: u16, core: u16) -> Line
    ensures { result ≡ round_told round core }
{
    let mut line = Line::new();
    line.put(b"<p>Round ");
    line.put_number(u64::from(round) + 1);
    line.put(b" in a core of ");
    line.put_number(u64::from(core));
    line.put(b" cells: ");
    line
}

fn put_outcome<A: Allocator, B: Allocator, C: Allocator>(
    page: &mut Vec<u8, A>,
    older: &Warrior<B>,
    younger: &Warrior<C>,
    outcome: Outcome,
) -> Result<(), AllocError>
    ensures { OnOk result (page.new.items ≡ page.old.items ++ outcome_text older.now younger.now outcome) }
{
    match outcome {
        Outcome::First => put_winner(page, older),
        Outcome::Second => put_winner(page, younger),
        Outcome::Tie => page.extend_from_slice(b"nobody won"),
    }
}

#[tactic(auto, unfolding(crate::specs::Heading::winner_text))]
fn put_winner<A: Allocator, B: Allocator>(
    page: &mut Vec<u8, A>,
    warrior: &Warrior<B>,
) -> Result<(), AllocError>
    ensures { OnOk result (page.new.items ≡ page.old.items ++ winner_text warrior.now) }
{
    put_all(page, &[Escaped(warrior.name().bytes()), Text(b" won")])
}

/// How many turns there are, or how many of them the page has.
#[tactic(auto, unfolding(crate::specs::Heading::cut_told, crate::specs::Heading::whole_told))]
fn turns_line(is_cut: bool, turns: u64) -> Line
    ensures { result ≡ turns_told is_cut turns }
{
    let mut line = Line::new();
    if is_cut {
        line.put(b". The first ");
        line.put_number(turns);
        line.put(b" turns are here.</p>\n");
    } else {
        line.put(b" after ");
        line.put_number(turns);
        line.put(b" turns.</p>\n");
    }
    line
}

/// Puts both warriors with their authors.
#[tactic(auto, unfolding(crate::specs::Heading::warriors_text))]
pub(crate) fn put_warriors<A: Allocator, B: Allocator, C: Allocator>(
    page: &mut Vec<u8, A>,
    older: &Warrior<B>,
    younger: &Warrior<C>,
) -> Result<(), AllocError>
    ensures { OnOk result (page.new.items ≡ page.old.items ++ warriors_text older.now younger.now) }
{
    page.extend_from_slice(OLDER_START)?;
    put_warrior(page, older)?;
    page.extend_from_slice(YOUNGER_START)?;
    put_warrior(page, younger)?;
    page.extend_from_slice(WARRIORS_END)
}

#[tactic(auto, unfolding(crate::specs::Heading::warrior_text))]
fn put_warrior<A: Allocator, B: Allocator>(
    page: &mut Vec<u8, A>,
    warrior: &Warrior<B>,
) -> Result<(), AllocError>
    ensures { OnOk result (page.new.items ≡ page.old.items ++ warrior_text warrior.now) }
{
    put_all(
        page,
        &[
            Escaped(warrior.name().bytes()),
            Text(b"</b> by "),
            Escaped(warrior.author().bytes()),
        ],
    )
}
