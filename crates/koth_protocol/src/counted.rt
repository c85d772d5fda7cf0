//! A stream whose faults are counted.

ghost use Rattle.std.specs.{Prelude.{◌≡◌, ◌≢◌, ◌+◌, ◌-◌, ◌^◌, ◌<◌, ◌≤◌, min, [], length, IfOk, OnOk, OnErr}, Io.KnownBytes.{Appends, ReadConsumes, WriteAppends}};
ghost use Rattle.{koth_protocol.specs.Counted.{raised, Rose}, koth_text.specs.Written.WritesPart};

use koth_text::{read_uninterrupted, write_uninterrupted};
use std::io::{Read, Write};
use thiserror::Error;

/// A read gave an error.
#[derive(Clone, Copy, Debug, PartialEq, Eq, Error)]
#[error("a read failed")]
pub struct ReadFault;

/// A write gave an error, or took no byte.
#[derive(Clone, Copy, Debug, PartialEq, Eq, Error)]
#[error("a write failed")]
pub struct WriteFault;

/// A stream with the number of its faults, and of the bytes that were read from it. It needs no memory.
#[derive(Drop)]
pub struct Counted<S> {
    stream: S,
    faults: u64,
    taken: u64,
}

impl<S> Counted<S> {
    /// The stream, with no fault counted yet.
    pub fn new(stream: S) -> Counted<S>
        ensures stream { result.stream ≡ stream }
        ensures faults { result.faults ≡ 0 }
        ensures taken { result.taken ≡ 0 }
    {
        Counted {
            stream,
            faults: 0,
            taken: 0,
        }
    }

    /// How many calls were answered by a fault, up to the greatest `u64`.
    pub fn faults(&self) -> u64
        ensures { result ≡ self.now.faults }
    {
        self.faults
    }

    /// How many bytes were read, up to the greatest `u64`, also of a stream whose bytes no clause can name.
    pub fn taken(&self) -> u64
        ensures { result ≡ self.now.taken }
    {
        self.taken
    }

    /// The stream.
    pub fn into_inner(self) -> S
        ensures { result ≡ self.stream }
    {
        self.stream
    }
}

impl<S: Read> Counted<S> {
    /// Reads at least one byte, and says how many; 0 says that the input is at its end. `ReadFault` comes if the stream
    /// gives an error. A read that a signal interrupts is made again.
    pub fn read(&mut self, to: &mut [u8]) -> Result<usize, ReadFault>
        requires { length to.old ≢ 0 }
        ensures size { length to.new ≡ length to.old }
        ensures within { IfOk result (λ count. count ≤ length to.new) }
        ensures bytes { ReadConsumes (S.remaining self.old.stream) (S.remaining self.new.stream) result to.new }
        ensures ok { OnOk result (self.new.faults ≡ self.old.faults) }
        ensures err { OnErr result (self.new.faults ≡ raised self.old.faults) }
        ensures rose { OnErr result (Rose self.old.faults self.new.faults) }
        ensures counted { IfOk result (λ count. self.new.taken ≡ min (self.old.taken + count) (2 ^ 64 - 1)) }
        ensures uncounted { OnErr result (self.new.taken ≡ self.old.taken) }
    {
        match read_uninterrupted(&mut self.stream, to) {
            Ok(count) => {
                self.taken = self.taken.saturating_add(count as u64);
                Ok(count)
            }
            Err(_) => {
                self.faults = self.faults.saturating_add(1);
                Err(ReadFault)
            }
        }
    }
}

impl<S: Write> Counted<S> {
    /// Writes at least one byte, and says how many. `WriteFault` comes if the stream gives an error or takes no byte. A
    /// write that a signal interrupts is made again.
    pub fn write(&mut self, from: &[u8]) -> Result<usize, WriteFault>
        requires { length from.now ≢ 0 }
        ensures some { IfOk result (λ count. 0 < count) }
        ensures within { IfOk result (λ count. count ≤ length from.now) }
        ensures bytes { WriteAppends (S.contents self.old.stream) (S.contents self.new.stream) result from.now }
        ensures ok { OnOk result (self.new.faults ≡ self.old.faults) }
        ensures err { OnErr result (self.new.faults ≡ raised self.old.faults) }
        ensures rose { OnErr result (Rose self.old.faults self.new.faults) }
        ensures taken { self.new.taken ≡ self.old.taken }
    {
        match write_uninterrupted(&mut self.stream, from) {
            Ok(count) if count > 0 => Ok(count),
            _ => {
                self.faults = self.faults.saturating_add(1);
                Err(WriteFault)
            }
        }
    }
}

/// Writes a whole text. At a fault a part of it is written, from its beginning on.
pub fn send<W: Write>(output: &mut Counted<W>, text: &[u8]) -> Result<(), WriteFault>
    ensures whole { OnOk result (Appends (W.contents output.old.stream) (W.contents output.new.stream) text.now) }
    ensures part { OnErr result (WritesPart (W.contents output.old.stream) (W.contents output.new.stream) text.now) }
    ensures ok { OnOk result (output.new.faults ≡ output.old.faults) }
    ensures rose { OnErr result (Rose output.old.faults output.new.faults) }
{
    let mut rest = text;
    while !rest.is_empty() {
        match output.write(rest) {
            Ok(count) => rest = &rest[count..],
            Err(fault) => return Err(fault),
        }
    }
    Ok(())
}
