//! A stream that signals interrupt.

use std::io;
use std::io::{ErrorKind, Read, Write};

/// A stream whose calls are interrupted by a signal, each of them once before it is done, with one byte at a time.
#[derive(Drop)]
pub struct Interrupted<'b> {
    left: &'b [u8],
    interrupts: bool,
    /// How many bytes were written.
    pub written: usize,
}

/// Such a stream, which has these bytes to read.
pub fn one_by_one(left: &[u8]) -> Interrupted<'_> {
    Interrupted {
        left,
        interrupts: false,
        written: 0,
    }
}

impl Interrupted<'_> {
    /// Fails at every other call.
    fn call(&mut self) -> io::Result<()> {
        self.interrupts = !self.interrupts;
        if self.interrupts {
            return Err(io::Error::from(ErrorKind::Interrupted));
        }
        Ok(())
    }
}

impl Read for Interrupted<'_> {
    fn read(&mut self, buf: &mut [u8]) -> io::Result<usize> {
        self.call()?;
        let Some((byte, left)) = self.left.split_first() else {
            return Ok(0);
        };
        let Some(place) = buf.first_mut() else {
            return Ok(0);
        };
        *place = *byte;
        self.left = left;
        Ok(1)
    }
}

impl Write for Interrupted<'_> {
    fn write(&mut self, buf: &[u8]) -> io::Result<usize> {
        self.call()?;
        let count = buf.len().min(1);
        self.written = self.written.saturating_add(count);
        Ok(count)
    }

    fn flush(&mut self) -> io::Result<()> {
        Ok(())
    }
}
