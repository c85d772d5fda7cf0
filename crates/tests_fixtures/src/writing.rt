//! Writers that are full.

ghost use Rattle.std.specs.Prelude.{◌≡◌, IfOk};

use std::alloc::Global;
use std::io;
use std::io::{ErrorKind, Write};

/// What a writer does once it is full: it answers with 0 or fails, at each call from then on, or at one, after which it has
/// room again.
#[derive(Clone, Copy, Debug, PartialEq, Eq)]
pub struct Full {
    fails: bool,
    recovers: bool,
}

/// All that a writer can do once it is full.
pub const FULL: [Full; 4] = [
    Full {
        fails: false,
        recovers: false,
    },
    Full {
        fails: false,
        recovers: true,
    },
    Full {
        fails: true,
        recovers: false,
    },
    Full {
        fails: true,
        recovers: true,
    },
];

/// A writer that takes some bytes, a few at a time, and then is full.
#[derive(Drop)]
pub struct FullWriter {
    /// The bytes that it took.
    pub taken: Vec<u8>,
    most: usize,
    room: usize,
    full: Full,
}

/// Such a writer that takes `most` bytes at a time, and `room` in all.
pub fn writer(alloc: Global, most: usize, room: usize, full: Full) -> FullWriter {
    FullWriter {
        taken: Vec::new(alloc),
        most,
        room,
        full,
    }
}

impl Write for FullWriter {
    fn write(&mut self, buf: &[u8]) -> io::Result<usize> {
        if self.room == 0 {
            return self.refuse();
        }
        let count = self.room.min(self.most).min(buf.len());
        self.room -= count;
        self.taken.write(&buf[..count])
    }

    fn flush(&mut self) -> io::Result<()> {
        Ok(())
    }
}

impl FullWriter {
    /// What it answers once it is full.
    fn refuse(&mut self) -> io::Result<usize>
        ensures { IfOk result (λ count. count ≡ 0) }
    {
        if self.full.recovers {
            self.room = usize::MAX;
        }
        if self.full.fails {
            return Err(io::Error::from(ErrorKind::Other));
        }
        Ok(0)
    }
}
