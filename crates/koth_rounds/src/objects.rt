//! The events of a turn as lines of JSON, and who wrote what it executed.

ghost use Rattle.std.specs.Prelude.{◌≡◌, ◌++◌, OnOk};
ghost use Rattle.koth_rounds.specs.Turns.{address_field, cell_object, event_object, instruction_field, line_start, nobody_object, process_object, side_field, turn_object, writer_object, written_field, wrote_object};

use koth_contests::side_name;
use koth_replay::{Event, Writer};
use koth_text::Piece::{Number, Text};
use koth_text::put_all;
use koth_watch::{Form, put_shown};
use mars_core::Side;
use std::alloc::{AllocError, Allocator};
use war_types::Instr;

/// Puts the line of an event of the turn of this number, counted from 1, which executes this instruction.
pub(crate) fn put_event_object<A: Allocator>(
    text: &mut Vec<u8, A>,
    core: u16,
    number: u64,
    instr: Instr,
    event: Event,
) -> Result<(), AllocError>
    ensures { OnOk result (text.new.items ≡ text.old.items ++ event_object core number instr event) }
{
    match event {
        Event::Turn(side, at) => put_turn_object(text, core, number, instr, side, at),
        Event::Cell(at, now) => put_cell_object(text, core, number, at, now),
        Event::Process(at) => put_process_object(text, number, at),
    }
}

#[tactic(auto, unfolding(crate::specs::Turns::turn_object))]
fn put_turn_object<A: Allocator>(
    text: &mut Vec<u8, A>,
    core: u16,
    number: u64,
    instr: Instr,
    side: Side,
    at: u16,
) -> Result<(), AllocError>
    ensures { OnOk result (text.new.items ≡ text.old.items ++ turn_object core number instr side at) }
{
    put_start(text, b"turn", number)?;
    put_side(text, b"side", side)?;
    put_address(text, at)?;
    put_instruction(text, core, instr)?;
    text.extend_from_slice(b"}\n")
}

#[tactic(auto, unfolding(crate::specs::Turns::cell_object))]
fn put_cell_object<A: Allocator>(
    text: &mut Vec<u8, A>,
    core: u16,
    number: u64,
    at: u16,
    now: Instr,
) -> Result<(), AllocError>
    ensures { OnOk result (text.new.items ≡ text.old.items ++ cell_object core number at now) }
{
    put_start(text, b"cell", number)?;
    put_address(text, at)?;
    put_instruction(text, core, now)?;
    text.extend_from_slice(b"}\n")
}

#[tactic(auto, unfolding(crate::specs::Turns::process_object))]
fn put_process_object<A: Allocator>(
    text: &mut Vec<u8, A>,
    number: u64,
    at: u16,
) -> Result<(), AllocError>
    ensures { OnOk result (text.new.items ≡ text.old.items ++ process_object number at) }
{
    put_start(text, b"process", number)?;
    put_address(text, at)?;
    text.extend_from_slice(b"}\n")
}

/// Puts the type of a line, and the number of its turn.
#[tactic(auto, unfolding(crate::specs::Turns::line_start))]
fn put_start<A: Allocator>(
    text: &mut Vec<u8, A>,
    kind: &[u8],
    number: u64,
) -> Result<(), AllocError>
    ensures { OnOk result (text.new.items ≡ text.old.items ++ line_start kind.now number) }
{
    text.extend_from_slice(b"{\"type\":\"")?;
    put_all(text, &[Text(kind), Text(b"\",\"turn\":"), Number(number)])
}

/// Puts a field for a side.
#[tactic(auto, unfolding(crate::specs::Turns::side_field))]
fn put_side<A: Allocator>(text: &mut Vec<u8, A>, key: &[u8], side: Side) -> Result<(), AllocError>
    ensures { OnOk result (text.new.items ≡ text.old.items ++ side_field key.now side) }
{
    let name = side_name(side).as_bytes();
    put_all(
        text,
        &[
            Text(b",\""),
            Text(key),
            Text(b"\":\""),
            Text(name),
            Text(b"\""),
        ],
    )
}

#[tactic(auto, unfolding(crate::specs::Turns::address_field))]
fn put_address<A: Allocator>(text: &mut Vec<u8, A>, at: u16) -> Result<(), AllocError>
    ensures { OnOk result (text.new.items ≡ text.old.items ++ address_field at) }
{
    put_all(text, &[Text(b",\"address\":"), Number(u64::from(at))])
}

#[tactic(auto, unfolding(crate::specs::Turns::instruction_field))]
fn put_instruction<A: Allocator>(
    text: &mut Vec<u8, A>,
    core: u16,
    instr: Instr,
) -> Result<(), AllocError>
    ensures { OnOk result (text.new.items ≡ text.old.items ++ instruction_field core instr) }
{
    text.extend_from_slice(b",\"instruction\":\"")?;
    put_shown(text, Form::Plain, core, instr)?;
    text.extend_from_slice(b"\"")
}

/// Puts the line of who changed the cell last before the turn of this number, if that is told.
pub(crate) fn put_writer_object<A: Allocator>(
    text: &mut Vec<u8, A>,
    number: u64,
    writer: Option<Writer>,
) -> Result<(), AllocError>
    ensures { OnOk result (text.new.items ≡ text.old.items ++ writer_object number writer) }
{
    match writer {
        None => Ok(()),
        Some(Writer::Turn(side, turn)) => put_wrote_object(text, number, side, turn),
        Some(Writer::Loaded(side)) => put_wrote_object(text, number, side, 0),
        Some(Writer::Nobody) => put_nobody_object(text, number),
    }
}

/// Puts the writer, and the turn in which it changed the cell; 0 if it was loaded so.
#[tactic(auto, unfolding(crate::specs::Turns::wrote_object))]
fn put_wrote_object<A: Allocator>(
    text: &mut Vec<u8, A>,
    number: u64,
    side: Side,
    turn: u32,
) -> Result<(), AllocError>
    ensures { OnOk result (text.new.items ≡ text.old.items ++ wrote_object number side turn) }
{
    put_start(text, b"writer", number)?;
    put_side(text, b"writer", side)?;
    put_written(text, turn)?;
    text.extend_from_slice(b"}\n")
}

#[tactic(auto, unfolding(crate::specs::Turns::written_field))]
fn put_written<A: Allocator>(text: &mut Vec<u8, A>, turn: u32) -> Result<(), AllocError>
    ensures { OnOk result (text.new.items ≡ text.old.items ++ written_field turn) }
{
    put_all(text, &[Text(b",\"written\":"), Number(u64::from(turn))])
}

#[tactic(auto, unfolding(crate::specs::Turns::nobody_object))]
fn put_nobody_object<A: Allocator>(text: &mut Vec<u8, A>, number: u64) -> Result<(), AllocError>
    ensures { OnOk result (text.new.items ≡ text.old.items ++ nobody_object number) }
{
    put_start(text, b"writer", number)?;
    text.extend_from_slice(b",\"writer\":\"none\",\"written\":0}\n")
}
