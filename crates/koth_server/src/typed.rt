//! Standard input that somebody types.

ghost use Rattle.std.specs.Prelude.{◌≡◌};

use koth_commands::write_whole;
use std::io;
use std::io::{ErrorKind, Read, Write};

/// What is written before a terminal is read.
const HINT: &[u8] = b"reading from standard input; Ctrl-D ends it\n";

/// An input that may be a terminal. If it is one, the first read is reported before it begins, since it waits for
/// somebody who types. An input that is a folder is told as one that isn't connected: the program has a folder in the
/// place of a closed one.
#[derive(Drop)]
pub struct Typed<I, E> {
    input: I,
    errors: E,
    is_due: bool,
}

impl<I, E> Typed<I, E> {
    /// This input, which reports on `errors`.
    pub fn new(input: I, errors: E, is_terminal: bool) -> Typed<I, E>
        ensures { result.input ≡ input }
    {
        Typed {
            input,
            errors,
            is_due: is_terminal,
        }
    }
}

impl<I, E: Write> Typed<I, E> {
    /// Reports that the input is read, if that is due.
    fn tell(&mut self)
        ensures { self.new.input ≡ self.old.input }
    {
        if self.is_due {
            self.is_due = false;
            let _ = write_whole(&mut self.errors, HINT);
        }
    }
}

impl<I: Read, E: Write> Read for Typed<I, E> {
    ghost remaining = { λ typed. I.remaining typed.input };

    fn read(&mut self, buf: &mut [u8]) -> io::Result<usize> {
        self.tell();
        match self.input.read(buf) {
            Ok(count) => Ok(count),
            Err(error) => Err(told_closed(error)),
        }
    }
}

/// The error of an input: of one that is a folder, that it isn't connected.
fn told_closed(error: io::Error) -> io::Error {
    match error.kind() {
        ErrorKind::IsADirectory => io::Error::from(ErrorKind::NotConnected),
        _ => error,
    }
}
