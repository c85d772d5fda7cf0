//! One peer's socket.

ghost use Rattle.{std.specs.Prelude.[], koth_service.specs.Noted.{CameWithin, WentWithin}};

use koth_service::{Came, Drained, Went};
use mio::event::Event;
use mio::net::TcpStream;
use mio::{Interest, Registry, Token};
use std::io;
use std::io::{ErrorKind, Read, Write};
use std::net::Shutdown;

/// Most bytes that are thrown away at once.
const CHUNK: usize = 4096;

/// A peer's socket, and whether a read or a write may give something: a poll reports changes only.
#[derive(Drop)]
pub(crate) struct Line {
    stream: TcpStream,
    /// Whether a read may give bytes: until one gives none, and again after the next event.
    can_read: bool,
    /// Whether a write may take bytes.
    can_write: bool,
    /// Whether the connection was reset, or both sides were closed: then nothing more comes or goes out.
    is_gone: bool,
}

impl Line {
    /// The socket of a peer, whose events have this token from now on, unless that fails.
    pub(crate) fn new(mut stream: TcpStream, registry: &Registry, token: Token) -> Option<Line> {
        // If this fails, answers still arrive, but later.
        let _ = stream.set_nodelay(true);
        let interests = Interest::READABLE | Interest::WRITABLE;
        match registry.register(&mut stream, token, interests) {
            Ok(()) => Some(Line {
                stream,
                can_read: true,
                can_write: true,
                is_gone: false,
            }),
            Err(_) => None,
        }
    }

    /// Takes note of an event that a poll reported.
    pub(crate) fn take_event(&mut self, event: &Event) {
        let failed = event.is_error();
        if failed || (event.is_read_closed() && event.is_write_closed()) {
            self.is_gone = true;
        }
        if failed || event.is_readable() || event.is_read_closed() {
            self.can_read = true;
        }
        if failed || event.is_writable() || event.is_write_closed() {
            self.can_write = true;
        }
    }

    pub(crate) fn is_gone(&self) -> bool {
        self.is_gone
    }

    pub(crate) fn read(&mut self, bytes: &mut [u8]) -> Came
        ensures { CameWithin result bytes.new }
    {
        if !self.can_read {
            return Came::Nothing;
        }
        match self.stream.read(bytes) {
            Ok(0) => Came::End,
            Ok(count) => Came::Bytes(count),
            Err(error) => self.unread(&error),
        }
    }

    /// What a failed read says.
    fn unread(&mut self, error: &io::Error) -> Came
        ensures { CameWithin result [] }
    {
        match error.kind() {
            ErrorKind::WouldBlock => {
                self.can_read = false;
                Came::Nothing
            }
            ErrorKind::Interrupted => Came::Bytes(0),
            _ => Came::Gone,
        }
    }

    pub(crate) fn write(&mut self, bytes: &[u8]) -> Went
        ensures { WentWithin result bytes.now }
    {
        if !self.can_write {
            return Went::Nothing;
        }
        match self.stream.write(bytes) {
            Ok(0) => Went::Gone,
            Ok(count) => Went::Bytes(count),
            Err(error) => self.unwritten(&error),
        }
    }

    /// What a failed write says.
    fn unwritten(&mut self, error: &io::Error) -> Went
        ensures { WentWithin result [] }
    {
        match error.kind() {
            ErrorKind::WouldBlock => {
                self.can_write = false;
                Went::Nothing
            }
            ErrorKind::Interrupted => Went::Bytes(0),
            _ => Went::Gone,
        }
    }

    /// Tells the peer that no more will go out. A peer that is gone need not be told.
    pub(crate) fn shut(&self) {
        let _ = self.stream.shutdown(Shutdown::Write);
    }

    /// Throws away what is there.
    pub(crate) fn drain(&mut self) -> Drained {
        let mut chunk = [0; CHUNK];
        match self.read(&mut chunk) {
            Came::Bytes(count) => Drained::Bytes(count),
            Came::Nothing => Drained::Nothing,
            Came::End | Came::Gone => Drained::End,
        }
    }
}
