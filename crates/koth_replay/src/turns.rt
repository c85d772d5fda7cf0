//! Turns and their events.

ghost use Rattle.std.specs.Prelude.{◌≡◌, ◌+◌, ◌<◌, ◌≤◌, ◌++◌, not, true, false, length, IfOk, OnOk, MatchOption};
ghost use Rattle.{mars_core.specs.{Round.{after_turn, after_turns, is_over, queue_of, IsRound}, Code.other}, koth_replay.specs.{Turn.{process_events, turn_events}, Code.{turns_of, AreTurns}}};

use crate::changes::{held_at, push_changes};
use crate::event::Event;
use mars_core::{Arena, Side, Turned};
use std::alloc::{AllocError, Allocator};

/// Makes the first `most` turns of a round, or fewer if it is over before, and keeps the events of each.
pub(crate) fn kept_turns<A: Allocator + Copy, B: Allocator>(
    alloc: A,
    arena: &mut Arena<B>,
    core: u16,
    most: u32,
    first: Side,
) -> Result<Vec<Vec<Event, A>, A>, AllocError>
    requires round { IsRound arena.old }
    requires core { core ≡ arena.old.settings.core }
    requires first { first ≡ arena.old.to_move }
    ensures turns { IfOk result (λ turns. AreTurns arena.old (turns_of turns.items)) }
    ensures after { IfOk result (λ turns. arena.new ≡ after_turns (length turns.items) arena.old) }
    ensures used { IfOk result (λ turns. arena.new.used ≡ arena.old.used + length turns.items) }
    ensures most { IfOk result (λ turns. length turns.items ≤ most) }
    ensures over { IfOk result (λ turns. length turns.items < most → is_over arena.new ≡ true) }
    ensures settings { arena.new.settings ≡ arena.old.settings }
{
    let mut turns = Vec::new(alloc);
    let mut side = first;
    for _turn in 0..most {
        match turn_events(alloc, arena, core, side)? {
            None => return Ok(turns),
            Some(events) => turns.push(events)?,
        }
        side = other(side);
    }
    Ok(turns)
}

/// Makes one turn, of this side, and gives its events; `None` if the round is over.
fn turn_events<A: Allocator + Copy, B: Allocator>(
    alloc: A,
    arena: &mut Arena<B>,
    core: u16,
    side: Side,
) -> Result<Option<Vec<Event, A>>, AllocError>
    requires round { IsRound arena.old }
    requires core { core ≡ arena.old.settings.core }
    requires side { side ≡ arena.old.to_move }
    ensures after { arena.new ≡ after_turn arena.old }
    ensures round { IsRound arena.new }
    ensures events { IfOk result (λ told. MatchOption told (is_over arena.old ≡ true)
        (λ events. (is_over arena.old ≡ false) × (events.items ≡ turn_events arena.old))) }
{
    let front = arena.process(side, 0);
    let waiting = arena.processes(side);
    let Some(addresses) = arena.touchable() else {
        return Ok(None);
    };
    let held = held_at(arena, &addresses);
    let _turned = arena.turn();
    let mut events = Vec::new(alloc);
    events.push(Event::Turn(side, front.unwrap()))?;
    push_changes(&mut events, &addresses, &held, arena, core)?;
    push_processes(&mut events, arena, side, waiting - 1)?;
    Ok(Some(events))
}

/// Makes one turn, and says whether there was one: there is none if the round is over.
pub(crate) fn goes_on<A: Allocator>(arena: &mut Arena<A>) -> bool
    ensures value { result ≡ not (is_over arena.old) }
    ensures after { arena.new ≡ after_turn arena.old }
    ensures round { IsRound arena.new }
{
    match arena.turn() {
        Turned::Over => false,
        Turned::Died | Turned::Went => true,
    }
}

/// Adds an event for each process of a side, from this index of its queue on.
fn push_processes<A: Allocator, B: Allocator>(
    events: &mut Vec<Event, A>,
    arena: &Arena<B>,
    side: Side,
    place: u32,
) -> Result<(), AllocError>
    ensures { OnOk result (events.new.items ≡ events.old.items ++ process_events place (queue_of side arena.now)) }
{
    for i in place..arena.processes(side) {
        events.push(Event::Process(arena.process(side, i).unwrap()))?;
    }
    Ok(())
}

/// The side that isn't this one.
pub(crate) fn other(side: Side) -> Side
    ensures { result ≡ other side }
{
    match side {
        Side::First => Side::Second,
        Side::Second => Side::First,
    }
}
