//! How a round ended, and why, in a sentence.

ghost use Rattle.std.specs.Prelude.{◌≡◌, ◌+◌, ◌≤◌, ◌++◌, length, codes, decimal, OnOk};
ghost use Rattle.koth_watch.specs.{Sentence.{end_text, fall_text, itself, left_text, loaded_text, place_named, processes_word, round_named}};
ghost use Rattle.koth_watch.specs.Sentence.{sentence_text, tie_named, tie_text, warrior_at, winner_at, won_text, writer_text, wrote_text};

use crate::shown::{Form, put_name, put_shown, put_turn};
use koth_replay::{Fall, Story, Writer};
use koth_text::{Line, put_line, put_number};
use mars_core::Side;
use std::alloc::{AllocError, Allocator};
use war_types::Warrior;

/// What a sentence says of a round: how it ended, and why.
#[derive(Clone, Copy)]
pub struct Told {
    /// The number of the round, counted from 0.
    pub round: u16,
    /// How many rounds the match has.
    pub rounds: u16,
    /// Cells of the core.
    pub core: u16,
    pub story: Story,
}

/// Puts the sentence of a round of two warriors. The error is lack of memory.
pub fn put_sentence<A: Allocator, B: Allocator, C: Allocator>(
    text: &mut Vec<u8, A>,
    form: Form,
    older: &Warrior<B>,
    younger: &Warrior<C>,
    told: &Told,
) -> Result<(), AllocError>
    ensures { OnOk result (text.new.items ≡ text.old.items ++ sentence_text form older.now younger.now told.now) }
{
    match told.story {
        Story::Fell(fall) => put_fall(text, form, older, younger, told, fall),
        Story::Tied(first, second) => put_tie(text, form, older, younger, told, first, second),
    }
}

/// Puts who won, and why.
#[tactic(auto, unfolding(crate::specs::Sentence::fall_text))]
fn put_fall<A: Allocator, B: Allocator, C: Allocator>(
    text: &mut Vec<u8, A>,
    form: Form,
    older: &Warrior<B>,
    younger: &Warrior<C>,
    told: &Told,
    fall: Fall,
) -> Result<(), AllocError>
    ensures { OnOk result (text.new.items ≡ text.old.items ++ fall_text form older.now younger.now told.now fall) }
{
    match fall.side {
        Side::First => {
            put_won(text, form, younger.name().bytes(), told)?;
            put_end(text, form, older.name().bytes(), told.core, fall)?;
        }
        Side::Second => {
            put_won(text, form, older.name().bytes(), told)?;
            put_end(text, form, younger.name().bytes(), told.core, fall)?;
        }
    }
    put_writer(text, form, fall.side, older, younger, fall.writer)?;
    text.extend_from_slice(b".\n")
}

/// Puts that this warrior won.
#[tactic(auto, unfolding(crate::specs::Sentence::won_text))]
fn put_won<A: Allocator>(
    text: &mut Vec<u8, A>,
    form: Form,
    winner: &[u8],
    told: &Told,
) -> Result<(), AllocError>
    ensures { OnOk result (text.new.items ≡ text.old.items ++ won_text form winner.now told.now) }
{
    put_name(text, form, winner)?;
    text.extend_from_slice(b" won ")?;
    put_line(text, round_line(told.round, told.rounds))?;
    text.extend_from_slice(b": ")
}

/// Puts where and when the last process of this warrior ended, and by executing what.
fn put_end<A: Allocator>(
    text: &mut Vec<u8, A>,
    form: Form,
    loser: &[u8],
    core: u16,
    fall: Fall,
) -> Result<(), AllocError>
    ensures { OnOk result (text.new.items ≡ text.old.items ++ end_text form loser.now core fall) }
{
    put_name(text, form, loser)?;
    text.extend_from_slice(b"'s last process executed ")?;
    put_shown(text, form, core, fall.instr)?;
    put_line(text, place_line(fall.at))?;
    put_turn(text, form, fall.turn)
}

/// Puts who wrote what that process executed. `loser` is its side.
fn put_writer<A: Allocator, B: Allocator, C: Allocator>(
    text: &mut Vec<u8, A>,
    form: Form,
    loser: Side,
    older: &Warrior<B>,
    younger: &Warrior<C>,
    writer: Writer,
) -> Result<(), AllocError>
    ensures { OnOk result (text.new.items ≡ text.old.items ++ writer_text form loser older.now younger.now writer) }
{
    match writer {
        Writer::Turn(side, turn) => {
            let name = name_of(side, older, younger);
            put_wrote(text, form, loser, side, name, turn)
        }
        Writer::Loaded(side) => {
            let name = name_of(side, older, younger);
            put_loaded(text, form, name)
        }
        Writer::Nobody => text.extend_from_slice(b", where nothing had been loaded or written"),
    }
}

/// The name of the warrior of a side.
fn name_of<'w, A: Allocator, B: Allocator>(
    side: Side,
    older: &'w Warrior<A>,
    younger: &'w Warrior<B>,
) -> &'w [u8]
    ensures { result.now ≡ (warrior_at side older.now younger.now).name }
{
    match side {
        Side::First => older.name().bytes(),
        Side::Second => younger.name().bytes(),
    }
}

/// Puts that the warrior of this side and this name wrote it in this turn. `loser` is the side that lost.
fn put_wrote<A: Allocator>(
    text: &mut Vec<u8, A>,
    form: Form,
    loser: Side,
    side: Side,
    name: &[u8],
    turn: u32,
) -> Result<(), AllocError>
    ensures { OnOk result (text.new.items ≡ text.old.items ++ wrote_text form loser side name.now turn) }
{
    let itself = itself(loser, side);
    text.extend_from_slice(b", which ")?;
    put_name(text, form, name)?;
    text.extend_from_slice(itself)?;
    put_turn(text, form, turn)
}

/// Whether the writer is the loser.
fn itself(loser: Side, writer: Side) -> &'static [u8]
    ensures { result.now ≡ itself loser writer }
{
    match (loser, writer) {
        (Side::First, Side::First) | (Side::Second, Side::Second) => b" itself had written in ",
        _ => b" had written in ",
    }
}

fn put_loaded<A: Allocator>(
    text: &mut Vec<u8, A>,
    form: Form,
    name: &[u8],
) -> Result<(), AllocError>
    ensures { OnOk result (text.new.items ≡ text.old.items ++ loaded_text form name.now) }
{
    text.extend_from_slice(b", with which ")?;
    put_name(text, form, name)?;
    text.extend_from_slice(b" was loaded")
}

/// Puts that no one won, and how many processes the sides had.
fn put_tie<A: Allocator, B: Allocator, C: Allocator>(
    text: &mut Vec<u8, A>,
    form: Form,
    older: &Warrior<B>,
    younger: &Warrior<C>,
    told: &Told,
    first: u32,
    second: u32,
) -> Result<(), AllocError>
    ensures { OnOk result (text.new.items ≡ text.old.items
        ++ tie_text form older.now younger.now told.now first second) }
{
    let older_name = name_of(Side::First, older, younger);
    let younger_name = name_of(Side::Second, older, younger);
    put_line(text, tie_line(told.round, told.rounds))?;
    put_left(text, form, older_name, first)?;
    text.extend_from_slice(b", ")?;
    put_left(text, form, younger_name, second)?;
    text.extend_from_slice(b" at its end.\n")
}

/// Puts how many processes this warrior had.
#[tactic(auto, unfolding(crate::specs::Sentence::left_text))]
fn put_left<A: Allocator>(
    text: &mut Vec<u8, A>,
    form: Form,
    name: &[u8],
    left: u32,
) -> Result<(), AllocError>
    ensures { OnOk result (text.new.items ≡ text.old.items ++ left_text form name.now left) }
{
    put_name(text, form, name)?;
    text.extend_from_slice(b" had ")?;
    put_number(text, u64::from(left))?;
    text.extend_from_slice(processes_word(left))
}

fn processes_word(number: u32) -> &'static [u8]
    ensures { result.now ≡ processes_word number }
{
    if number == 1 {
        b" process"
    } else {
        b" processes"
    }
}

/// Which round of how many.
#[tactic(auto, unfolding(crate::specs::Sentence::round_named))]
fn round_line(round: u16, rounds: u16) -> Line
    ensures { result ≡ round_named round rounds }
{
    let mut line = Line::new();
    line.put(b"round ");
    line.put_number(u64::from(round) + 1);
    line.put(b" of ");
    line.put_number(u64::from(rounds));
    line
}

/// That a round was a tie.
#[tactic(auto, unfolding(crate::specs::Sentence::tie_named))]
fn tie_line(round: u16, rounds: u16) -> Line
    ensures { result ≡ tie_named round rounds }
{
    let mut line = Line::new();
    line.put(b"Round ");
    line.put_number(u64::from(round) + 1);
    line.put(b" of ");
    line.put_number(u64::from(rounds));
    line.put(b" was a tie: ");
    line
}

#[tactic(auto, unfolding(crate::specs::Sentence::place_named))]
fn place_line(at: u16) -> Line
    ensures { result ≡ place_named at }
{
    let mut line = Line::new();
    line.put(b" at ");
    line.put_number(u64::from(at));
    line.put(b" in ");
    line
}
