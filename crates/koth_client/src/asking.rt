//! One submission, or one look at the table.

ghost use Rattle.std.specs.{Prelude.{◌≡◌, [], IfOk, OnErr, OnOk}, Io.KnownBytes.{Consumes, Keeps}};
ghost use Rattle.koth_protocol.specs.{Commands.{Command, kept_source}, Written.WritesPart};
ghost use Rattle.koth_client.specs.Sending.{lines_taken, Asks, AsksAlone};

use crate::coming::{Asked, Ending, Told, read_answer, room};
use crate::sending::{TABLE_TEXT, submission_text};
use koth_protocol::{Counted, WriteFault, send};
use std::alloc::{AllocError, Allocator};
use std::io::{Read, Write};

/// Submits a source once, and reads what is answered. The error is lack of memory, and then nothing was written.
pub fn submit<R: Read, W: Write, A: Allocator + Copy>(
    alloc: A,
    source: &[u8],
    input: &mut Counted<R>,
    output: &mut Counted<W>,
) -> Result<Told<A>, AllocError>
    ensures asks { OnOk result (Asks (Command.Submit (kept_source (lines_taken source.now)))
        (W.contents output.old.stream) (W.contents output.new.stream)) }
    ensures kept { OnErr result (Keeps (W.contents output.old.stream) (W.contents output.new.stream)) }
    ensures told { IfOk result (λ told. Consumes (R.remaining input.old.stream) (R.remaining input.new.stream)
        told.bytes.items) }
{
    let room = room(alloc)?;
    let text = submission_text(alloc, source)?;
    Ok(ask(Asked::Reply, text.as_slice(), room, input, output))
}

/// Asks for the table, and reads what is answered. The error is lack of memory, and then nothing was written.
pub fn ask_table<R: Read, W: Write, A: Allocator>(
    alloc: A,
    input: &mut Counted<R>,
    output: &mut Counted<W>,
) -> Result<Told<A>, AllocError>
    ensures asks { OnOk result (Asks Command.Show
        (W.contents output.old.stream) (W.contents output.new.stream)) }
    ensures kept { OnErr result (Keeps (W.contents output.old.stream) (W.contents output.new.stream)) }
    ensures told { IfOk result (λ told. Consumes (R.remaining input.old.stream) (R.remaining input.new.stream)
        told.bytes.items) }
{
    let room = room(alloc)?;
    Ok(ask(Asked::Table, TABLE_TEXT, room, input, output))
}

/// Writes a text once, and reads what is answered into this room.
fn ask<R: Read, W: Write, A: Allocator>(
    asked: Asked,
    text: &[u8],
    room: Vec<u8, A>,
    input: &mut Counted<R>,
    output: &mut Counted<W>,
) -> Told<A>
    ensures written { WritesPart (W.contents output.old.stream) (W.contents output.new.stream) text.now }
    ensures told { Consumes (R.remaining input.old.stream) (R.remaining input.new.stream) result.bytes.items }
{
    match send(output, text) {
        Ok(()) => read_answer(room, asked, input),
        Err(WriteFault) => unsent(room),
    }
}

/// Nothing was read, since a write failed.
fn unsent<A: Allocator>(mut room: Vec<u8, A>) -> Told<A>
    ensures { result.bytes.items ≡ [] }
{
    room.clear();
    Told {
        bytes: room,
        ending: Ending::WriteFault,
    }
}
