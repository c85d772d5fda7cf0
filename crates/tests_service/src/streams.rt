//! The streams of a session: what it reads, and what it writes.

use std::alloc::Global;
use std::cell::Cell;
use std::io;
use std::io::{ErrorKind, Read, Write};
use tests_fixtures::{FULL, Full, FullWriter, writer};

/// How streams behave: bytes of a read and of a write at most, the read that fails (the first is 1, none is 0), the
/// bytes that the output takes before it is full, what it does then, and whether a signal interrupts each call once.
#[derive(Clone, Copy)]
pub(crate) struct Manner {
    pub(crate) read: usize,
    pub(crate) written: usize,
    pub(crate) fails_at: u64,
    pub(crate) room: usize,
    pub(crate) full: Full,
    pub(crate) is_interrupted: bool,
}

/// All bytes at once, and no fault.
pub(crate) fn plain() -> Manner {
    Manner {
        read: usize::MAX,
        written: usize::MAX,
        fails_at: 0,
        room: usize::MAX,
        full: FULL[0],
        is_interrupted: false,
    }
}

/// Interrupts every other call, if calls are interrupted.
#[derive(Clone, Copy)]
struct Signals {
    come: bool,
    came: bool,
}

impl Signals {
    fn call(&mut self) -> io::Result<()> {
        self.came = self.come && !self.came;
        if self.came {
            return Err(io::Error::from(ErrorKind::Interrupted));
        }
        Ok(())
    }
}

/// An input that comes in pieces: each of them once as many lines were written as pieces came before it.
#[derive(Drop)]
pub(crate) struct Pieces<'c> {
    pieces: &'c [&'c [u8]],
    left: &'c [u8],
    came: usize,
    reads: u64,
    manner: Manner,
    signals: Signals,
    lines: &'c Cell<usize>,
}

impl<'c> Pieces<'c> {
    pub(crate) fn new(
        pieces: &'c [&'c [u8]],
        manner: Manner,
        lines: &'c Cell<usize>,
    ) -> Pieces<'c> {
        Pieces {
            pieces,
            left: &[],
            came: 0,
            reads: 0,
            manner,
            signals: Signals {
                come: manner.is_interrupted,
                came: false,
            },
            lines,
        }
    }

    /// The next piece comes, if there is one.
    fn turn(&mut self) -> io::Result<()> {
        let Some(piece) = self.pieces.get(self.came).copied() else {
            return Ok(());
        };
        if self.lines.get() < self.came {
            // It would wait for ever.
            return Err(io::Error::from(ErrorKind::TimedOut));
        }
        self.left = piece;
        self.came = self.came.saturating_add(1);
        Ok(())
    }
}

impl Read for Pieces<'_> {
    fn read(&mut self, buf: &mut [u8]) -> io::Result<usize> {
        self.signals.call()?;
        self.reads = self.reads.saturating_add(1);
        if self.reads == self.manner.fails_at {
            return Err(io::Error::from(ErrorKind::Other));
        }
        if self.left.is_empty() {
            self.turn()?;
        }
        let count = self.left.len().min(buf.len()).min(self.manner.read);
        let (given, left) = self.left.split_at(count);
        buf[..count].copy_from_slice(given);
        self.left = left;
        Ok(count)
    }
}

/// An output that counts its lines.
#[derive(Drop)]
pub(crate) struct Answers<'c> {
    inner: FullWriter,
    signals: Signals,
    lines: &'c Cell<usize>,
}

impl<'c> Answers<'c> {
    pub(crate) fn new(alloc: Global, manner: Manner, lines: &'c Cell<usize>) -> Answers<'c> {
        Answers {
            inner: writer(alloc, manner.written, manner.room, manner.full),
            signals: Signals {
                come: manner.is_interrupted,
                came: false,
            },
            lines,
        }
    }
}

/// An output that keeps what it takes.
pub(crate) trait Taking: Write + Drop {
    fn taken(&self) -> &[u8];
}

impl Taking for Answers<'_> {
    fn taken(&self) -> &[u8] {
        self.inner.taken.as_slice()
    }
}

impl Write for Answers<'_> {
    fn write(&mut self, buf: &[u8]) -> io::Result<usize> {
        self.signals.call()?;
        let count = self.inner.write(buf)?;
        for byte in buf.iter().take(count) {
            if *byte == b'\n' {
                self.lines.set(self.lines.get().saturating_add(1));
            }
        }
        Ok(count)
    }

    fn flush(&mut self) -> io::Result<()> {
        Ok(())
    }
}
