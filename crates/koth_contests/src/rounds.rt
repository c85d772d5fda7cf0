//! The rounds of a match, one after the other: how each went, and the first that ended in some way.

ghost use Rattle.std.specs.{Prelude.{◌≡◌, ◌++◌, IfOk, OnOk}, List.flat_map};
ghost use Rattle.war_types.specs.Warrior.{Fits};
ghost use Rattle.koth_contests.specs.Rounds.{ends_columns, ends_told, outcome_name, round_columns, round_line, round_of, round_told, rounds_before, rounds_heading, side_name, IsEach, IsFirst};

use koth_json::Round;
use koth_match::{first_in, position, seed_of_round};
use koth_text::Piece::{Number, Padded, Right, Text};
use koth_text::columns::Alignment;
use koth_text::put_all;
use koth_words::View;
use mars_core::{Arena, Outcome, Side};
use std::alloc::{AllocError, Allocator};
use war_types::{Settings, Warrior};

/// A round that was played.
#[derive(Clone, Copy)]
pub struct Played {
    /// The first round is 1.
    pub number: u32,
    pub seed: u32,
    /// The address at which the younger warrior was loaded.
    pub position: u16,
    /// The side that moved first.
    pub first: Side,
    pub outcome: Outcome,
    /// How many turns were made.
    pub turns: u32,
}

/// Plays a round of a match, counted from 0. No memory is taken.
pub fn round_of<A: Allocator, B: Allocator, C: Allocator>(
    arena: &mut Arena<A>,
    older: &Warrior<B>,
    younger: &Warrior<C>,
    settings: &Settings,
    round: u16,
) -> Played
    requires settings { arena.old.settings ≡ settings.now }
    requires older { Fits settings.now older.now }
    requires younger { Fits settings.now younger.now }
    ensures played { result ≡ round_of settings.now older.now younger.now round }
    ensures settings { arena.new.settings ≡ arena.old.settings }
{
    let _core = settings.core();
    let seed = seed_of_round(settings, round);
    let position = position(seed, settings);
    let first = first_in(round);
    arena.begin(older, younger, position, first);
    let outcome = arena.play();
    Played {
        number: u32::from(round) + 1,
        seed,
        position,
        first,
        outcome,
        turns: arena.used(),
    }
}

/// Plays a match, and gives its text, a line for each round. The error is lack of memory.
pub fn rounds_text<A: Allocator + Copy, B: Allocator, C: Allocator>(
    alloc: A,
    settings: &Settings,
    older: &Warrior<B>,
    younger: &Warrior<C>,
    view: View,
) -> Result<Vec<u8, A>, AllocError>
    requires older { Fits settings.now older.now }
    requires younger { Fits settings.now younger.now }
    ensures { IfOk result (λ text. IsEach settings.now view older.now younger.now text.items) }
{
    let mut arena = Arena::new(alloc, settings)?;
    let mut text = Vec::new(alloc);
    put_rounds(&mut text, &mut arena, settings, older, younger, view)?;
    Ok(text)
}

/// Plays a match, and puts its lines.
fn put_rounds<A: Allocator, B: Allocator, C: Allocator>(
    text: &mut Vec<u8, A>,
    arena: &mut Arena<A>,
    settings: &Settings,
    older: &Warrior<B>,
    younger: &Warrior<C>,
    view: View,
) -> Result<(), AllocError>
    requires settings { arena.old.settings ≡ settings.now }
    requires older { Fits settings.now older.now }
    requires younger { Fits settings.now younger.now }
    ensures { OnOk result (text.new.items ≡ text.old.items
        ++ (rounds_heading view ++ flat_map (round_line view)
        (rounds_before settings.now older.now younger.now settings.now.rounds))) }
{
    text.extend_from_slice(rounds_heading(view).as_bytes())?;
    for round in 0..settings.rounds() {
        let played = round_of(arena, older, younger, settings, round);
        put_round(text, view, played)?;
    }
    Ok(())
}

/// The number of the first round of a match that ends like this, counted from 0. No memory is taken.
pub fn first_round<A: Allocator, B: Allocator, C: Allocator>(
    arena: &mut Arena<A>,
    older: &Warrior<B>,
    younger: &Warrior<C>,
    settings: &Settings,
    wanted: Outcome,
) -> Option<u16>
    requires settings { arena.old.settings ≡ settings.now }
    requires older { Fits settings.now older.now }
    requires younger { Fits settings.now younger.now }
    ensures first { IsFirst settings.now older.now younger.now wanted result }
    ensures settings { arena.new.settings ≡ arena.old.settings }
{
    for round in 0..settings.rounds() {
        let played = round_of(arena, older, younger, settings, round);
        if played.outcome == wanted {
            return Some(round);
        }
    }
    None
}

/// The heading of the rounds' lines, which is empty for programs.
fn rounds_heading(view: View) -> &'static str
    ensures { result.now ≡ rounds_heading view }
{
    match view {
        View::Table => "round        seed  position  first   won    turns\n",
        View::Plain | View::Json => "",
    }
}

fn put_round<A: Allocator>(
    text: &mut Vec<u8, A>,
    view: View,
    played: Played,
) -> Result<(), AllocError>
    ensures { OnOk result (text.new.items ≡ text.old.items ++ round_line view played) }
{
    match view {
        View::Plain => put_told(text, played),
        View::Table => put_columns(text, played),
        View::Json => put_object(text, played),
    }
}

/// Puts the line of JSON of a round.
fn put_object<A: Allocator>(text: &mut Vec<u8, A>, played: Played) -> Result<(), AllocError>
    ensures { OnOk result (text.new.items ≡ text.old.items ++ round_line View.Json played) }
{
    let round = Round {
        number: played.number,
        seed: played.seed,
        position: played.position,
        first: side_name(played.first),
        outcome: outcome_name(played.outcome),
        turns: played.turns,
    };
    koth_json::put_round(text, round)
}

fn put_told<A: Allocator>(text: &mut Vec<u8, A>, played: Played) -> Result<(), AllocError>
    ensures { OnOk result (text.new.items ≡ text.old.items ++ round_told played) }
{
    put_all(
        text,
        &[
            Number(u64::from(played.number)),
            Text(b" "),
            Number(u64::from(played.seed)),
            Text(b" "),
            Number(u64::from(played.position)),
            Text(b" "),
            Text(side_name(played.first).as_bytes()),
            Text(b" "),
            Text(outcome_name(played.outcome).as_bytes()),
            Text(b" "),
            Number(u64::from(played.turns)),
            Text(b"\n"),
        ],
    )
}

fn put_columns<A: Allocator>(text: &mut Vec<u8, A>, played: Played) -> Result<(), AllocError>
    ensures { OnOk result (text.new.items ≡ text.old.items ++ round_columns played) }
{
    let first = side_name(played.first).as_bytes();
    let outcome = outcome_name(played.outcome).as_bytes();
    put_all(
        text,
        &[
            Right(5, u64::from(played.number)),
            Right(12, u64::from(played.seed)),
            Right(10, u64::from(played.position)),
            Padded(Alignment::Right, 7, first),
            Padded(Alignment::Right, 6, outcome),
            Right(9, u64::from(played.turns)),
            Text(b"\n"),
        ],
    )
}

/// A side as the command line has it.
pub fn side_name(side: Side) -> &'static str
    ensures { result.now ≡ side_name side }
{
    match side {
        Side::First => "A",
        Side::Second => "B",
    }
}

/// Who won.
fn outcome_name(outcome: Outcome) -> &'static str
    ensures { result.now ≡ outcome_name outcome }
{
    match outcome {
        Outcome::First => "A",
        Outcome::Second => "B",
        Outcome::Tie => "tie",
    }
}
