//! The data of a page, as JSON: the events of a round, each of them, in their order.

ghost use Rattle.std.specs.{Prelude.{◌≡◌, ◌+◌, ◌≤◌, ◌++◌, length, codes, decimal, OnOk}, List.{enumerate_from, flat_map}};
ghost use Rattle.koth_replay.specs.Replay.{ReplayParts};
ghost use Rattle.koth_watch.specs.Data.{cell_text, comma_before, data_text, event_at, event_text, events_text, opening_text, place_text, processes_text, side_text, start_text, turn_at};
ghost use Rattle.koth_watch.specs.Data.{turn_text, turns_text};

use crate::instruction::put_instruction;
use koth_replay::{Event, Opening, Replay};
use koth_text::{Line, put_line, put_number};
use mars_core::Side;
use std::alloc::{AllocError, Allocator};
use war_types::Instr;

/// Puts how a round begins, what is loaded, and its turns.
#[tactic(auto, unfolding(crate::specs::Data::data_text))]
pub(crate) fn put_data<A: Allocator, B: Allocator>(
    page: &mut Vec<u8, A>,
    replay: &Replay<B>,
) -> Result<(), AllocError>
    ensures { OnOk result (page.new.items ≡ page.old.items ++ data_text replay.now) }
{
    put_start(page, replay.opening(), replay.loaded())?;
    put_turns(page, replay.opening().core, replay)?;
    page.extend_from_slice(b"]}\n")
}

/// Puts what is before the turns.
fn put_start<A: Allocator>(
    page: &mut Vec<u8, A>,
    opening: Opening,
    loaded: &[Event],
) -> Result<(), AllocError>
    ensures { OnOk result (page.new.items ≡ page.old.items ++ start_text opening loaded.now) }
{
    put_opening(page, opening)?;
    page.extend_from_slice(b",\n\"loaded\":")?;
    put_events(page, opening.core, loaded)?;
    page.extend_from_slice(b",\n\"turns\":[")?;
    Ok(())
}

#[tactic(auto, unfolding(crate::specs::Data::opening_text))]
fn put_opening<A: Allocator>(page: &mut Vec<u8, A>, opening: Opening) -> Result<(), AllocError>
    ensures { OnOk result (page.new.items ≡ page.old.items ++ opening_text opening) }
{
    put_line(page, place_line(opening.core, opening.position))?;
    put_line(page, processes_line(opening.older, opening.younger))?;
    page.extend_from_slice(b"],\"first\":")?;
    page.extend_from_slice(side_text(opening.first))
}

/// The size of the core, and the address at which the younger warrior is loaded.
#[tactic(auto, unfolding(crate::specs::Data::place_text))]
fn place_line(core: u16, position: u16) -> Line
    ensures { result ≡ place_text core position }
{
    let mut line = Line::new();
    line.put(b"{\"core\":");
    line.put_number(u64::from(core));
    line.put(b",\"position\":");
    line.put_number(u64::from(position));
    line
}

/// The addresses at which the processes of both sides begin.
#[tactic(auto, unfolding(crate::specs::Data::processes_text))]
fn processes_line(older: u16, younger: u16) -> Line
    ensures { result ≡ processes_text older younger }
{
    let mut line = Line::new();
    line.put(b",\"processes\":[");
    line.put_number(u64::from(older));
    line.put(b",");
    line.put_number(u64::from(younger));
    line
}

fn put_turns<A: Allocator, B: Allocator>(
    page: &mut Vec<u8, A>,
    core: u16,
    replay: &Replay<B>,
) -> Result<(), AllocError>
    ensures { OnOk result (page.new.items ≡ page.old.items ++ turns_text core replay.now.turns) }
{
    for place in 0..replay.turns() {
        put_turn_at(page, core, place, replay.events_of(place))?;
    }
    Ok(())
}

#[tactic(auto, unfolding(crate::specs::Data::turn_at))]
fn put_turn_at<A: Allocator>(
    page: &mut Vec<u8, A>,
    core: u16,
    place: usize,
    turn: &[Event],
) -> Result<(), AllocError>
    ensures { OnOk result (page.new.items ≡ page.old.items ++ turn_at core place turn.now) }
{
    page.extend_from_slice(comma_before(place))?;
    page.extend_from_slice(b"\n")?;
    put_events(page, core, turn)
}

/// Puts a list of events.
#[tactic(auto, unfolding(crate::specs::Data::events_text))]
fn put_events<A: Allocator>(
    page: &mut Vec<u8, A>,
    core: u16,
    events: &[Event],
) -> Result<(), AllocError>
    ensures { OnOk result (page.new.items ≡ page.old.items ++ events_text core events.now) }
{
    page.extend_from_slice(b"[")?;
    put_each(page, core, events)?;
    page.extend_from_slice(b"]")
}

fn put_each<A: Allocator>(
    page: &mut Vec<u8, A>,
    core: u16,
    events: &[Event],
) -> Result<(), AllocError>
    ensures { OnOk result (page.new.items ≡ page.old.items
        ++ flat_map (λ (place, event). event_at core place event) (enumerate_from 0 events.now)) }
{
    for place in 0..events.len() {
        put_event_at(page, core, place, events[place])?;
    }
    Ok(())
}

fn put_event_at<A: Allocator>(
    page: &mut Vec<u8, A>,
    core: u16,
    place: usize,
    event: Event,
) -> Result<(), AllocError>
    ensures { OnOk result (page.new.items ≡ page.old.items ++ event_at core place event) }
{
    page.extend_from_slice(comma_before(place))?;
    put_event(page, core, event)
}

fn put_event<A: Allocator>(page: &mut Vec<u8, A>, core: u16, event: Event) -> Result<(), AllocError>
    ensures { OnOk result (page.new.items ≡ page.old.items ++ event_text core event) }
{
    match event {
        Event::Turn(side, at) => put_line(page, turn_line(side, at)),
        Event::Cell(at, instr) => put_cell(page, core, at, instr),
        Event::Process(at) => put_number(page, u64::from(at)),
    }
}

/// A turn of a side begins, at an address.
#[tactic(auto, unfolding(crate::specs::Data::turn_text))]
fn turn_line(side: Side, at: u16) -> Line
    ensures { result ≡ turn_text side at }
{
    let mut line = Line::new();
    line.put(b"[");
    line.put(side_text(side));
    line.put(b",");
    line.put_number(u64::from(at));
    line.put(b"]");
    line
}

/// Puts what the cell at an address holds.
#[tactic(auto, unfolding(crate::specs::Data::cell_text))]
fn put_cell<A: Allocator>(
    page: &mut Vec<u8, A>,
    core: u16,
    at: u16,
    instr: Instr,
) -> Result<(), AllocError>
    ensures { OnOk result (page.new.items ≡ page.old.items ++ cell_text core at instr) }
{
    put_line(page, cell_start(at))?;
    put_instruction(page, core, instr)?;
    page.extend_from_slice(b"\"]")
}

/// What is before the instruction of a cell.
fn cell_start(at: u16) -> Line
    ensures { result ≡ codes "[" ++ decimal at ++ codes ",\"" }
{
    let mut line = Line::new();
    line.put(b"[");
    line.put_number(u64::from(at));
    line.put(b",\"");
    line
}

/// What parts the element of this place from the one before it.
fn comma_before(place: usize) -> &'static [u8]
    ensures { result.now ≡ comma_before place }
{
    if place == 0 { b"" } else { b"," }
}

fn side_text(side: Side) -> &'static [u8]
    ensures value { result.now ≡ side_text side }
    ensures len { length result.now ≡ 1 }
{
    match side {
        Side::First => b"0",
        Side::Second => b"1",
    }
}
