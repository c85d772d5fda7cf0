//! Why a round of a match ended as it did.

ghost use Rattle.std.specs.Prelude.{◌≡◌, ◌*◌, ◌+◌, ◌<◌, ◌≤◌, ◌==◌, ◌||◌, true, false, None, Some, if◌then◌else◌, length, slice_get, MatchOption};
ghost use Rattle.war_types.specs.declared.instr.Modifier.TheVariants as modifiers;
ghost use Rattle.{war_types.specs.Warrior.Fits, koth_match.specs.Seeds.{position, seed_of_round}};
ghost use Rattle.mars_core.specs.{Cells.cell, Effect.are_equal, Round.{after_turn, is_over, queue_of, IsRound}};
ghost use Rattle.koth_replay.specs.{Replay.begun, Story.{end_of, round_before, IsStory, IsWriter}, Ending.{loader_of, told, writer_of, IsChange, IsFront, IsMade}};

use crate::changes::{BLANK, is_same};
use crate::story::{Fall, Story, Writer};
use crate::turns::{goes_on, other};
use koth_match::{first_in, position, seed_of_round};
use mars_core::{Arena, Side};
use std::alloc::Allocator;
use war_types::{Instr, Settings, Warrior};

/// A turn that was made: its number, counted from 1, its side, and what that executed.
#[derive(Clone, Copy)]
pub(crate) struct Made {
    turn: u32,
    side: Side,
    at: u16,
    instr: Instr,
}

/// A change of a cell: the number of its turn, counted from 1, and the side that made it.
#[derive(Clone, Copy)]
pub(crate) struct Change {
    turn: u32,
    side: Side,
}

/// How a round of a match, counted from 0, ended, and why. It is played twice: to its end, and again up to its last
/// turn, for who changed the cell last that its loser executed. No memory is taken.
pub fn story_of<A: Allocator, B: Allocator, C: Allocator>(
    arena: &mut Arena<A>,
    older: &Warrior<B>,
    younger: &Warrior<C>,
    settings: &Settings,
    round: u16,
) -> Story
    requires settings { arena.old.settings ≡ settings.now }
    requires older { Fits settings.now older.now }
    requires younger { Fits settings.now younger.now }
    requires round { round < settings.now.rounds }
    ensures story { IsStory settings.now older.now younger.now round result }
    ensures settings { arena.new.settings ≡ arena.old.settings }
{
    let _place = begin(arena, older, younger, settings, round);
    let last = last_turn(arena, first_in(round), 2 * settings.cycles());
    let older_left = arena.processes(Side::First);
    let younger_left = arena.processes(Side::Second);
    match only_if(is_lost(older_left, younger_left), last) {
        Some(made) => {
            let writer = writer(arena, older, younger, settings, round, made);
            fell(made, writer)
        }
        None => Story::Tied(older_left, younger_left),
    }
}

/// The story of a round that was lost in this turn.
fn fell(made: Made, writer: Writer) -> Story
    ensures { result ≡ told made writer }
{
    Story::Fell(Fall {
        side: made.side,
        turn: made.turn,
        at: made.at,
        instr: made.instr,
        writer,
    })
}

/// Whether one of two sides has no process left.
fn is_lost(older_left: u32, younger_left: u32) -> bool
    ensures { result ≡ (older_left == 0 || younger_left == 0) }
{
    older_left == 0 || younger_left == 0
}

fn only_if(is: bool, made: Option<Made>) -> Option<Made>
    ensures { result ≡ if is then made else None }
{
    if is { made } else { None }
}

/// Begins a round of a match, counted from 0, and answers where the younger warrior is.
fn begin<A: Allocator, B: Allocator, C: Allocator>(
    arena: &mut Arena<A>,
    older: &Warrior<B>,
    younger: &Warrior<C>,
    settings: &Settings,
    round: u16,
) -> u16
    requires settings { arena.old.settings ≡ settings.now }
    requires older { Fits settings.now older.now }
    requires younger { Fits settings.now younger.now }
    requires round { round < settings.now.rounds }
    ensures begun { arena.new ≡ begun settings.now older.now younger.now round }
    ensures round { IsRound arena.new }
    ensures place { result ≡ position settings.now (seed_of_round settings.now round) }
    ensures settings { arena.new.settings ≡ arena.old.settings }
{
    let _core = settings.core();
    let place = position(seed_of_round(settings, round), settings);
    arena.begin(older, younger, place, first_in(round));
    place
}

/// Makes turns until the round is over, `most` at most, and answers which was the last; `None` if none was made.
fn last_turn<A: Allocator>(arena: &mut Arena<A>, first: Side, most: u32) -> Option<Made>
    requires round { IsRound arena.old }
    requires first { first ≡ arena.old.to_move }
    requires used { arena.old.used ≡ 0 }
    requires most { most ≡ 2 * arena.old.settings.cycles }
    ensures end { arena.new ≡ end_of arena.old }
    ensures last { MatchOption result (arena.new ≡ arena.old) (IsMade arena.old arena.new) }
    ensures settings { arena.new.settings ≡ arena.old.settings }
{
    let mut side = first;
    let mut last = None;
    for turn in 0..most {
        match next_turn(arena, side, turn + 1) {
            None => return last,
            Some(made) => last = Some(made),
        }
        side = other(side);
    }
    last
}

/// Makes a turn of this side, and answers what it executed; `None` if the round was over.
fn next_turn<A: Allocator>(arena: &mut Arena<A>, side: Side, turn: u32) -> Option<Made>
    requires { side ≡ arena.old.to_move }
    ensures after { arena.new ≡ after_turn arena.old }
    ensures round { IsRound arena.new }
    ensures made { MatchOption result (is_over arena.old ≡ true)
        (λ made. (is_over arena.old ≡ false) × IsFront side arena.old turn made) }
{
    let front = front(arena, side, turn);
    let went = goes_on(arena);
    only_if(went, front)
}

/// The front process of a side as what the turn of this number would execute.
fn front<A: Allocator>(arena: &Arena<A>, side: Side, turn: u32) -> Option<Made>
    ensures { MatchOption result (slice_get (queue_of side arena.now) 0 ≡ None) (IsFront side arena.now turn) }
{
    match arena.process(side, 0) {
        None => None,
        Some(at) => Some(Made {
            turn,
            side,
            at,
            instr: held(arena, at),
        }),
    }
}

/// What the cell at an address holds.
fn held<A: Allocator>(arena: &Arena<A>, at: u16) -> Instr
    ensures { result ≡ cell arena.now.core at }
{
    match arena.cell(at) {
        Some(instr) => instr,
        None => BLANK,
    }
}

/// Who changed the cell last that this last turn of the round executed.
fn writer<A: Allocator, B: Allocator, C: Allocator>(
    arena: &mut Arena<A>,
    older: &Warrior<B>,
    younger: &Warrior<C>,
    settings: &Settings,
    round: u16,
    made: Made,
) -> Writer
    requires settings { arena.old.settings ≡ settings.now }
    requires older { Fits settings.now older.now }
    requires younger { Fits settings.now younger.now }
    requires round { round < settings.now.rounds }
    requires least { 1 ≤ made.turn }
    requires on { is_over (round_before made.turn (begun settings.now older.now younger.now round)) ≡ false }
    ensures writer { IsWriter (begun settings.now older.now younger.now round) older.now.code younger.now.code
        (position settings.now (seed_of_round settings.now round)) made.at made.turn result }
    ensures settings { arena.new.settings ≡ arena.old.settings }
{
    let place = begin(arena, older, younger, settings, round);
    let change = last_change(arena, made.at, first_in(round), made.turn);
    written(change, older, younger, place, made.at)
}

/// Makes the turns before turn `before`, and answers which was the last that changed the cell at an address.
fn last_change<A: Allocator>(
    arena: &mut Arena<A>,
    at: u16,
    first: Side,
    before: u32,
) -> Option<Change>
    requires first { first ≡ arena.old.to_move }
    requires least { 1 ≤ before }
    requires on { is_over (round_before before arena.old) ≡ false }
    ensures change { IsChange arena.old at before result }
    ensures settings { arena.new.settings ≡ arena.old.settings }
{
    let mut side = first;
    let mut change = None;
    for turn in 1..before {
        change = changed(arena, at, Change { turn, side }, change);
        side = other(side);
    }
    change
}

/// Makes this turn, and answers with it if it changed the cell at an address, else with the change before it.
fn changed<A: Allocator>(
    arena: &mut Arena<A>,
    at: u16,
    this: Change,
    earlier: Option<Change>,
) -> Option<Change>
    ensures after { arena.new ≡ after_turn arena.old }
    ensures change { result ≡ if are_equal modifiers.I (cell arena.old.core at) (cell arena.new.core at) then earlier
        else Some this }
{
    let before = held(arena, at);
    let _turned = arena.turn();
    let now = held(arena, at);
    latest(is_same(before, now), this, earlier)
}

fn latest(is_same: bool, this: Change, earlier: Option<Change>) -> Option<Change>
    ensures { result ≡ if is_same then earlier else Some this }
{
    if is_same { earlier } else { Some(this) }
}

/// Who changed a cell last, or whose instruction was loaded there if no one did. The older warrior is at 0, the younger
/// one at `place`.
fn written<A: Allocator, B: Allocator>(
    change: Option<Change>,
    older: &Warrior<A>,
    younger: &Warrior<B>,
    place: u16,
    at: u16,
) -> Writer
    ensures { result ≡ writer_of change (length older.now.code) place (length younger.now.code) at }
{
    match change {
        Some(change) => Writer::Turn(change.side, change.turn),
        None => loader(older.code().len(), place, younger.code().len(), at),
    }
}

fn loader(older: usize, place: u16, younger: usize, at: u16) -> Writer
    ensures { result ≡ loader_of older place younger at }
{
    if usize::from(at) < older {
        Writer::Loaded(Side::First)
    } else if at < place {
        Writer::Nobody
    } else if usize::from(at - place) < younger {
        Writer::Loaded(Side::Second)
    } else {
        Writer::Nobody
    }
}
