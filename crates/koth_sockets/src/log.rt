//! An output of the system that takes a log without waiting.

ghost use Rattle.std.specs.Prelude.{◌≡◌, ◌≤◌};

use koth_service::LogWrite;
use mio::unix::SourceFd;
use mio::{Events, Interest, Poll, Token};
use std::alloc::Allocator;
use std::io;
use std::io::{ErrorKind, Write};
use std::net::Net;
use std::os::fd::{AsRawFd, RawFd};
use std::time::Duration;

/// Most bytes of one write. A pipe that takes any bytes takes so many at once.
const PIECE: usize = 4096;

/// The same of a terminal.
const TYPED: usize = 128;

/// An output of the system, such as standard error, and a poll of it once a line of a log was begun: then it is written
/// to only if it takes bytes at once. No flag of the descriptor is changed, since other programs may have it too.
#[derive(Drop)]
pub struct PolledLog<'r, R, A: Allocator, W> {
    rt: &'r R,
    alloc: A,
    output: W,
    is_terminal: bool,
    has_begun: bool,
    /// Whether what was written last doesn't end a line.
    is_cut: bool,
    poll: Option<(Poll, Events<A>)>,
}

impl<'r, R: Net, A: Allocator + Copy, W: Write + AsRawFd> PolledLog<'r, R, A, W> {
    /// A log on this output.
    pub fn new(rt: &'r R, alloc: A, output: W, is_terminal: bool) -> PolledLog<'r, R, A, W> {
        PolledLog {
            rt,
            alloc,
            output,
            is_terminal,
            has_begun: false,
            is_cut: false,
            poll: None,
        }
    }

    /// Whether the output takes bytes at once.
    fn is_ready(&mut self) -> bool
        ensures { self.new.output ≡ self.old.output }
    {
        let output = self.output.as_raw_fd();
        if self.poll.is_none() {
            self.poll = new_poll(self.rt, self.alloc).ok();
        }
        match &mut self.poll {
            Some((poll, events)) => takes_bytes(poll, events, output),
            None => false,
        }
    }

    /// How many of `left` bytes are written at once. The last one that goes to a terminal, a line feed, goes alone: a
    /// terminal that takes any bytes takes a piece without a line feed.
    fn piece(&self, left: usize) -> usize
        ensures { result ≤ left }
    {
        match left.checked_sub(1) {
            Some(text) if self.is_terminal && text > 0 => text.min(TYPED),
            _ => left.min(PIECE),
        }
    }
}

/// A poll of one output.
fn new_poll<A: Allocator + Copy>(rt: &impl Net, alloc: A) -> io::Result<(Poll, Events<A>)> {
    let events = Events::with_capacity(alloc, 1)?;
    Ok((Poll::new(rt)?, events))
}

/// Whether an output takes bytes at once. It is registered anew each time, since a poll reports changes only.
fn takes_bytes<A: Allocator>(poll: &mut Poll, events: &mut Events<A>, output: RawFd) -> bool {
    let mut source = SourceFd(&output);
    match poll
        .registry()
        .register(&mut source, Token(0), Interest::WRITABLE)
    {
        Ok(()) => {
            let _ = poll.poll(events, Some(Duration::ZERO));
            let _ = poll.registry().deregister(&mut source);
            !events.is_empty()
        }
        // A file can't be polled, and never waits.
        Err(error) => error.kind() == ErrorKind::PermissionDenied,
    }
}

impl<R: Net, A: Allocator + Copy, W: Write + AsRawFd> Write for PolledLog<'_, R, A, W> {
    ghost contents = { λ log. W.contents log.output };

    fn write(&mut self, buf: &[u8]) -> io::Result<usize> {
        if !self.has_begun {
            return self.output.write(buf);
        }
        if !self.is_ready() {
            return Err(io::Error::from(ErrorKind::WouldBlock));
        }
        let piece = self.piece(buf.len());
        let count = self.output.write(&buf[..piece])?;
        self.is_cut = !buf[..count].ends_with(b"\n");
        Ok(count)
    }

    fn flush(&mut self) -> io::Result<()> {
        self.output.flush()
    }
}

impl<R: Net, A: Allocator + Copy, W: Write + AsRawFd> LogWrite for PolledLog<'_, R, A, W> {
    fn begin_line(&mut self) -> bool {
        self.has_begun = true;
        !self.is_cut || self.write(b"\n").is_ok()
    }
}
