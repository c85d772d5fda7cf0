//! Reading into a buffer and writing a text, with every byte in the contract.

ghost use Rattle.std.specs.{Prelude.{◌<◌, ◌≤◌, ℕ, List, length, take, IfOk, OnOk, OnErr}, Io.KnownBytes.{Appends, Consumes, IsAtEnd}};
ghost use Rattle.koth_text.specs.Written.{WritesPart};

use crate::cause::{Reason, reason_of};
use koth_text::{read_uninterrupted, write_uninterrupted};
use std::io;
use std::io::{ErrorKind, Read, Write};

/// A stream failed: a read or a write gave an error, or a write took no byte.
#[derive(Clone, Copy, PartialEq, Eq)]
pub struct StreamFault {
    pub reason: Reason,
}

fn fault_of(error: &io::Error) -> StreamFault {
    StreamFault {
        reason: reason_of(error.kind()),
    }
}

/// Reads until the buffer is full or the input is at its end, and says how many bytes came.
pub fn fill<I: Read>(input: &mut I, buffer: &mut [u8]) -> Result<usize, StreamFault>
    ensures within { IfOk result (λ count. count ≤ length buffer.new) }
    ensures taken { IfOk result (λ count.
        Consumes (I.remaining input.old) (I.remaining input.new) (take count buffer.new)) }
    ensures whole { IfOk result (λ count.
        count < length buffer.new → IsAtEnd (I.remaining input.new)) }
    ensures lost { OnErr result ((taken : List ℕ)
        × Consumes (I.remaining input.old) (I.remaining input.new) taken) }
{
    let mut filled = 0;
    while filled < buffer.len() {
        match read_uninterrupted(input, &mut buffer[filled..]) {
            Ok(0) => return Ok(filled),
            Ok(count) => filled += count,
            Err(error) => return Err(fault_of(&error)),
        }
    }
    Ok(filled)
}

/// Writes the whole text. If the output fails, a part of it is written.
pub fn write_whole<W: Write>(output: &mut W, text: &[u8]) -> Result<(), StreamFault>
    ensures whole { OnOk result (Appends (W.contents output.old) (W.contents output.new) text.now) }
    ensures part { OnErr result (WritesPart (W.contents output.old) (W.contents output.new) text.now) }
{
    let mut rest = text;
    while !rest.is_empty() {
        match write_uninterrupted(output, rest) {
            Ok(count) if count > 0 => rest = &rest[count..],
            Ok(_) => return Err(fault_of(&io::Error::from(ErrorKind::WriteZero))),
            Err(error) => return Err(fault_of(&error)),
        }
    }
    match output.flush() {
        Ok(()) => Ok(()),
        Err(error) => Err(fault_of(&error)),
    }
}
