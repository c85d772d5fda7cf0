//! A stream whose calls signals interrupt.

use std::io;
use std::io::{ErrorKind, Read, Write};

/// A stream. If signals come, each of its calls is interrupted once before it is done.
#[derive(Drop)]
pub(crate) struct Signalled<S> {
    pub stream: S,
    signals: bool,
    was_interrupted: bool,
}

impl<S> Signalled<S> {
    pub(crate) fn new(stream: S, signals: bool) -> Signalled<S> {
        Signalled {
            stream,
            signals,
            was_interrupted: false,
        }
    }

    /// Fails at every other call, the first of them too, if signals come.
    fn call(&mut self) -> io::Result<()> {
        self.was_interrupted = self.signals && !self.was_interrupted;
        if self.was_interrupted {
            return Err(io::Error::from(ErrorKind::Interrupted));
        }
        Ok(())
    }
}

impl<S: Read> Read for Signalled<S> {
    fn read(&mut self, buf: &mut [u8]) -> io::Result<usize> {
        self.call()?;
        self.stream.read(buf)
    }
}

impl<S: Write> Write for Signalled<S> {
    fn write(&mut self, buf: &[u8]) -> io::Result<usize> {
        self.call()?;
        self.stream.write(buf)
    }

    fn flush(&mut self) -> io::Result<()> {
        Ok(())
    }
}
