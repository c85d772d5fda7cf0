//! The turns of a round of a match, each with what it changed.

ghost use Rattle.std.specs.Prelude.{◌≡◌, ◌<◌, ◌≤◌, ◌++◌, true, Some, None, if◌then◌else◌, length, IfOk, OnOk};
ghost use Rattle.{war_types.specs.Warrior.Fits, mars_core.specs.{Cells.cell, Round.after_turns}, koth_replay.specs.Replay.begun};
ghost use Rattle.koth_rounds.specs.{Asked.has_round, Trace.{first_written, IsTraceText}, Turns.{executed, executed_at, turn_text, turns_text, writer_at}};

use crate::asked::place_of;
use crate::turns::put_turn;
use koth_match::{first_in, position, seed_of_round};
use koth_replay::{Event, Replay, Story, Writer, story_of};
use koth_words::Form;
use mars_core::Arena;
use std::alloc::{AllocError, Allocator};
use war_types::{Instr, Mode, Modifier, Op, Settings, Warrior};

/// What a cell holds if nothing was loaded into it.
const BLANK: Instr = Instr {
    op: Op::Dat,
    modifier: Modifier::F,
    a_mode: Mode::Direct,
    a: 0,
    b_mode: Mode::Direct,
    b: 0,
};

/// The turns of a round, counted from 1, of the match of two warriors: all, or the last ones. The error is lack of
/// memory.
pub fn trace_text<A: Allocator + Copy, B: Allocator, C: Allocator>(
    alloc: A,
    settings: &Settings,
    older: &Warrior<B>,
    younger: &Warrior<C>,
    round: u32,
    last: Option<u32>,
    form: Form,
) -> Result<Vec<u8, A>, AllocError>
    requires older { Fits settings.now older.now }
    requires younger { Fits settings.now younger.now }
    requires round { has_round settings.now round ≡ true }
    ensures { IfOk result (λ text. IsTraceText settings.now older.now younger.now round last form text.items) }
{
    let place = place_of(settings, round);
    let most = 2 * settings.cycles();
    let mut arena = Arena::new(alloc, settings)?;
    let replay = koth_replay::replay(alloc, &mut arena, older, younger, settings, place, most)?;
    let story = story_of(&mut arena, older, younger, settings, place);
    begin(&mut arena, older, younger, settings, place);
    let from = first_written(last, replay.turns());
    let mut text = Vec::new(alloc);
    put_turns(
        &mut text,
        &mut arena,
        &replay,
        form,
        settings.core(),
        story,
        from,
    )?;
    Ok(text)
}

/// Begins a round of a match, counted from 0.
fn begin<A: Allocator, B: Allocator, C: Allocator>(
    arena: &mut Arena<A>,
    older: &Warrior<B>,
    younger: &Warrior<C>,
    settings: &Settings,
    round: u16,
)
    requires settings { arena.old.settings ≡ settings.now }
    requires older { Fits settings.now older.now }
    requires younger { Fits settings.now younger.now }
    requires round { round < settings.now.rounds }
    ensures { arena.new ≡ begun settings.now older.now younger.now round }
{
    let _core = settings.core();
    let place = position(seed_of_round(settings, round), settings);
    arena.begin(older, younger, place, first_in(round));
}

/// The first turn that is written, of `count`, counted from 0: all are, or the last ones.
fn first_written(last: Option<u32>, count: usize) -> usize
    ensures first { result ≡ first_written last count }
    ensures within { result ≤ count }
{
    match last {
        None => 0,
        Some(last) => count.saturating_sub(last as usize),
    }
}

/// Puts the turns of a round that has begun, from this one on.
fn put_turns<A: Allocator, B: Allocator, C: Allocator>(
    text: &mut Vec<u8, A>,
    arena: &mut Arena<B>,
    replay: &Replay<C>,
    form: Form,
    core: u16,
    story: Story,
    from: usize,
) -> Result<(), AllocError>
    requires { from ≤ length replay.now.turns }
    ensures { OnOk result (text.new.items ≡ text.old.items
        ++ turns_text form core arena.old replay.now.turns story from) }
{
    skip(arena, from);
    for place in from..replay.turns() {
        let events = replay.events_of(place);
        put_next(text, arena, form, core, place as u64 + 1, events, story)?;
        let _turned = arena.turn();
    }
    Ok(())
}

/// Makes this number of turns.
fn skip<A: Allocator>(arena: &mut Arena<A>, count: usize)
    ensures { arena.new ≡ after_turns count arena.old }
{
    for _turn in 0..count {
        let _turned = arena.turn();
    }
}

/// Puts the next turn of a round, which has this number and these events.
fn put_next<A: Allocator, B: Allocator>(
    text: &mut Vec<u8, A>,
    arena: &Arena<B>,
    form: Form,
    core: u16,
    number: u64,
    events: &[Event],
    story: Story,
) -> Result<(), AllocError>
    ensures { OnOk result (text.new.items ≡ text.old.items
        ++ turn_text form core number (executed arena.now.core events.now) events.now (writer_at story number)) }
{
    let instr = executed(arena, events);
    let writer = writer_at(story, number);
    put_turn(text, form, core, number, instr, events, writer)
}

/// The instruction that a turn with these events executes.
fn executed<A: Allocator>(arena: &Arena<A>, events: &[Event]) -> Instr
    ensures { result ≡ executed arena.now.core events.now }
{
    executed_at(arena, events.first().copied())
}

/// What is at the address at which a turn begins.
fn executed_at<A: Allocator>(arena: &Arena<A>, begins: Option<Event>) -> Instr
    ensures { result ≡ executed_at arena.now.core begins }
{
    match begins {
        Some(Event::Turn(_, at)) => held(arena, at),
        Some(Event::Cell(..)) => BLANK,
        Some(Event::Process(_)) => BLANK,
        None => BLANK,
    }
}

/// What the cell at an address holds.
fn held<A: Allocator>(arena: &Arena<A>, at: u16) -> Instr
    ensures { result ≡ cell arena.now.core at }
{
    match arena.cell(at) {
        Some(instr) => instr,
        None => BLANK,
    }
}

/// Who wrote what the turn of this number executes, if a side lost in it.
fn writer_at(story: Story, number: u64) -> Option<Writer>
    ensures { result ≡ writer_at story number }
{
    match story {
        Story::Fell(fall) => only_if(u64::from(fall.turn) == number, fall.writer),
        Story::Tied(..) => None,
    }
}

fn only_if(is: bool, writer: Writer) -> Option<Writer>
    ensures { result ≡ if is then Some writer else None }
{
    if is { Some(writer) } else { None }
}
