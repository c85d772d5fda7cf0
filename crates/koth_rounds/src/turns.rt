//! The turns of a round: as text with a line for each turn, or as lines of JSON with one for each event.

ghost use Rattle.std.specs.Prelude.{◌≡◌, ◌++◌, OnOk};
ghost use Rattle.koth_rounds.specs.Turns.{adds_process, cell_told, end_told, event_text, event_told, events_text, is_process, loaded_told, process_told, turn_line, turn_objects, turn_text, turn_told};
ghost use Rattle.koth_rounds.specs.Turns.{writer_told, wrote_told};

use crate::objects::{put_event_object, put_writer_object};
use koth_contests::side_name;
use koth_replay::{Event, Writer};
use koth_text::Piece::{Number, Text};
use koth_text::{put_all, put_number};
use koth_watch::put_shown;
use koth_words::Form;
use mars_core::Side;
use std::alloc::{AllocError, Allocator};
use war_types::Instr;

/// Puts the turn of this number, counted from 1, with the instruction that it executes and its events, and who wrote
/// that instruction, if that is told.
pub(crate) fn put_turn<A: Allocator>(
    text: &mut Vec<u8, A>,
    form: Form,
    core: u16,
    number: u64,
    instr: Instr,
    events: &[Event],
    writer: Option<Writer>,
) -> Result<(), AllocError>
    ensures { OnOk result (text.new.items ≡ text.old.items ++ turn_text form core number instr events.now writer) }
{
    match form {
        Form::Text => put_turn_line(text, core, number, instr, events, writer),
        Form::Json => put_turn_objects(text, core, number, instr, events, writer),
    }
}

#[tactic(auto, unfolding(crate::specs::Turns::turn_line))]
fn put_turn_line<A: Allocator>(
    text: &mut Vec<u8, A>,
    core: u16,
    number: u64,
    instr: Instr,
    events: &[Event],
    writer: Option<Writer>,
) -> Result<(), AllocError>
    ensures { OnOk result (text.new.items ≡ text.old.items ++ turn_line core number instr events.now writer) }
{
    put_number(text, number)?;
    put_events(text, Form::Text, core, number, instr, events)?;
    text.extend_from_slice(end_told(events))?;
    put_writer(text, writer)?;
    text.extend_from_slice(b"\n")
}

#[tactic(auto, unfolding(crate::specs::Turns::turn_objects))]
fn put_turn_objects<A: Allocator>(
    text: &mut Vec<u8, A>,
    core: u16,
    number: u64,
    instr: Instr,
    events: &[Event],
    writer: Option<Writer>,
) -> Result<(), AllocError>
    ensures { OnOk result (text.new.items ≡ text.old.items ++ turn_objects core number instr events.now writer) }
{
    put_events(text, Form::Json, core, number, instr, events)?;
    put_writer_object(text, number, writer)
}

/// Puts the events of a turn, one after the other.
fn put_events<A: Allocator>(
    text: &mut Vec<u8, A>,
    form: Form,
    core: u16,
    number: u64,
    instr: Instr,
    events: &[Event],
) -> Result<(), AllocError>
    ensures { OnOk result (text.new.items ≡ text.old.items ++ events_text form core number instr events.now) }
{
    for place in 0..events.len() {
        put_event(text, form, core, number, instr, events[place])?;
    }
    Ok(())
}

fn put_event<A: Allocator>(
    text: &mut Vec<u8, A>,
    form: Form,
    core: u16,
    number: u64,
    instr: Instr,
    event: Event,
) -> Result<(), AllocError>
    ensures { OnOk result (text.new.items ≡ text.old.items ++ event_text form core number instr event) }
{
    match form {
        Form::Text => put_event_told(text, core, instr, event),
        Form::Json => put_event_object(text, core, number, instr, event),
    }
}

/// Puts an event of a turn that executes this instruction.
fn put_event_told<A: Allocator>(
    text: &mut Vec<u8, A>,
    core: u16,
    instr: Instr,
    event: Event,
) -> Result<(), AllocError>
    ensures { OnOk result (text.new.items ≡ text.old.items ++ event_told core instr event) }
{
    match event {
        Event::Turn(side, at) => put_turn_told(text, core, instr, side, at),
        Event::Cell(at, now) => put_cell_told(text, core, at, now),
        Event::Process(at) => put_process_told(text, at),
    }
}

/// Puts whose turn it is, and what it executes.
#[tactic(auto, unfolding(crate::specs::Turns::turn_told))]
fn put_turn_told<A: Allocator>(
    text: &mut Vec<u8, A>,
    core: u16,
    instr: Instr,
    side: Side,
    at: u16,
) -> Result<(), AllocError>
    ensures { OnOk result (text.new.items ≡ text.old.items ++ turn_told core instr side at) }
{
    let name = side_name(side).as_bytes();
    let at = Number(u64::from(at));
    put_all(text, &[Text(b" "), Text(name), Text(b" "), at, Text(b" ")])?;
    put_shown(text, koth_watch::Form::Plain, core, instr)
}

/// Puts what a cell holds now.
#[tactic(auto, unfolding(crate::specs::Turns::cell_told))]
fn put_cell_told<A: Allocator>(
    text: &mut Vec<u8, A>,
    core: u16,
    at: u16,
    now: Instr,
) -> Result<(), AllocError>
    ensures { OnOk result (text.new.items ≡ text.old.items ++ cell_told core at now) }
{
    put_all(
        text,
        &[Text(b"  writes "), Number(u64::from(at)), Text(b" ")],
    )?;
    put_shown(text, koth_watch::Form::Plain, core, now)
}

#[tactic(auto, unfolding(crate::specs::Turns::process_told))]
fn put_process_told<A: Allocator>(text: &mut Vec<u8, A>, at: u16) -> Result<(), AllocError>
    ensures { OnOk result (text.new.items ≡ text.old.items ++ process_told at) }
{
    put_all(text, &[Text(b"  goes to "), Number(u64::from(at))])
}

/// That the process of a turn has ended, if it has.
fn end_told(events: &[Event]) -> &'static [u8]
    ensures { result.now ≡ end_told events.now }
{
    if adds_process(events) { b"" } else { b"  dies" }
}

/// Whether a turn with these events adds a process: that is the last of them then.
fn adds_process(events: &[Event]) -> bool
    ensures { result ≡ adds_process events.now }
{
    is_process(events.last().copied())
}

fn is_process(event: Option<Event>) -> bool
    ensures { result ≡ is_process event }
{
    match event {
        Some(Event::Process(_)) => true,
        Some(Event::Turn(..)) => false,
        Some(Event::Cell(..)) => false,
        None => false,
    }
}

/// Puts who changed the cell last before, if that is told.
fn put_writer<A: Allocator>(text: &mut Vec<u8, A>, writer: Option<Writer>) -> Result<(), AllocError>
    ensures { OnOk result (text.new.items ≡ text.old.items ++ writer_told writer) }
{
    match writer {
        None => Ok(()),
        Some(Writer::Turn(side, turn)) => put_wrote_told(text, side, turn),
        Some(Writer::Loaded(side)) => put_loaded_told(text, side),
        Some(Writer::Nobody) => put_all(text, &[Text(b"; never written")]),
    }
}

#[tactic(auto, unfolding(crate::specs::Turns::wrote_told))]
fn put_wrote_told<A: Allocator>(
    text: &mut Vec<u8, A>,
    side: Side,
    turn: u32,
) -> Result<(), AllocError>
    ensures { OnOk result (text.new.items ≡ text.old.items ++ wrote_told side turn) }
{
    let name = side_name(side).as_bytes();
    let turn = Number(u64::from(turn));
    put_all(
        text,
        &[Text(b"; written by "), Text(name), Text(b" in "), turn],
    )
}

#[tactic(auto, unfolding(crate::specs::Turns::loaded_told))]
fn put_loaded_told<A: Allocator>(text: &mut Vec<u8, A>, side: Side) -> Result<(), AllocError>
    ensures { OnOk result (text.new.items ≡ text.old.items ++ loaded_told side) }
{
    let name = side_name(side).as_bytes();
    put_all(text, &[Text(b"; loaded by "), Text(name)])
}
