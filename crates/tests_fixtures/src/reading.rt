//! Readers that fail.

ghost use Rattle.std.specs.Prelude.{Some};

use std::io;
use std::io::{ErrorKind, Read};

/// A reader that gives a few bytes at a time, one at least, and fails at one of its reads, the first being 1.
#[derive(Drop)]
pub struct FailingReader<'b> {
    left: &'b [u8],
    most: usize,
    /// How many reads there were.
    pub reads: u64,
    fails_at: u64,
}

/// Such a reader that gives `most` bytes at a time. It never fails if `fails_at` is 0.
pub fn reader(left: &[u8], most: usize, fails_at: u64) -> FailingReader<'_> {
    FailingReader {
        left,
        most,
        reads: 0,
        fails_at,
    }
}

impl Read for FailingReader<'_> {
    ghost remaining = { λ r. Some r.left.now };

    fn read(&mut self, buf: &mut [u8]) -> io::Result<usize> {
        self.reads = self.reads.saturating_add(1);
        if self.reads == self.fails_at {
            return Err(io::Error::from(ErrorKind::Other));
        }
        let count = self.left.len().min(buf.len()).min(self.most.max(1));
        let (given, left) = self.left.split_at(count);
        buf[..count].copy_from_slice(given);
        self.left = left;
        Ok(count)
    }
}
