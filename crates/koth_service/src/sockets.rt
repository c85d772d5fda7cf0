//! What sockets may say.

ghost use Rattle.{std.specs.Prelude.{ℕ, List}, koth_service.specs.Noted.{Adds, Arrives, Asks, Noted, Reads, ReadsBrowser, Stays, Visits, Writes, WritesBrowser}};

use std::net::SocketAddr;

/// What came of an accept.
#[derive(Clone, Copy)]
pub enum Arrival {
    /// A peer or a browser, with its address: it is seated or refused next.
    Peer(SocketAddr),
    /// No one waits.
    Nobody,
    /// It failed for now, and may be tried again.
    Failed,
}

/// What came of a read.
#[derive(Clone, Copy)]
pub enum Came {
    /// This many bytes came; none if a signal came first, and the read is tried again.
    Bytes(usize),
    /// The peer's bytes are at their end.
    End,
    /// No bytes are there now.
    Nothing,
    /// The peer is gone: nothing more comes from it, or goes out to it.
    Gone,
}

/// What came of a write.
#[derive(Clone, Copy)]
pub enum Went {
    /// This many of the bytes went out; none if a signal came first, and the write is tried again.
    Bytes(usize),
    /// There is no room for any now.
    Nothing,
    /// The peer is gone: nothing more comes from it, or goes out to it.
    Gone,
}

/// What came of throwing away.
#[derive(Clone, Copy)]
pub enum Drained {
    /// This many bytes were thrown away.
    Bytes(usize),
    /// No bytes are there now.
    Nothing,
    /// The peer's bytes are at their end, or it is gone.
    End,
}

/// Sockets of peers by their numbers, and of browsers by numbers of their own, none of whose calls but `wait` waits.
pub trait Sockets {
    // What happened on the sockets, with peers and with browsers, the latest first, as far as they keep it. A history
    // that is true of them stays true of them as it goes on.
    ghost happened: { Self → List Noted → Type 0 };

    /// Milliseconds since some moment in the past. They don't go back.
    fn now(&mut self) -> u64
        ensures { Adds Self.happened (Noted.Clock result) self.old self.new };

    /// Waits until a peer can be accepted, read from or written to, and no longer than `most` milliseconds. It returns
    /// the time then, as `now`.
    fn wait(&mut self, most: u64) -> u64
        ensures { Adds Self.happened (Noted.Waited result) self.old self.new };

    /// Takes a connection that waits.
    fn accept(&mut self) -> Arrival
        ensures { Arrives Self.happened self.old result self.new };

    /// Puts the peer that was accepted last under this number. It sends small answers at once.
    fn seat(&mut self, number: usize)
        ensures { Adds Self.happened (Noted.Seated number) self.old self.new };

    /// Closes the connection that was accepted last.
    fn refuse(&mut self)
        ensures { Adds Self.happened Noted.Refused self.old self.new };

    /// Reads from the peer of this number.
    fn read(&mut self, number: usize, bytes: &mut [u8]) -> Came
        ensures { Reads Self.happened number self.old bytes.new result self.new };

    /// Writes to the peer of this number.
    fn write(&mut self, number: usize, bytes: &[u8]) -> Went
        ensures { Writes Self.happened number self.old bytes.now result self.new };

    /// Whether the peer of this number is known to be gone, though nothing is read from it: its connection was reset.
    fn is_gone(&mut self, number: usize) -> bool
        ensures { Asks Self.happened number self.old result self.new };

    /// Shuts the writing side of the peer of this number: no more goes out to it. What went out still reaches it.
    fn shut(&mut self, number: usize)
        ensures { Adds Self.happened (Noted.Shut number) self.old self.new };

    /// Throws away what still comes from the peer of this number.
    fn drain(&mut self, number: usize) -> Drained
        ensures { Stays Self.happened self.old self.new };

    /// Closes the socket of this number.
    fn close(&mut self, number: usize)
        ensures { Adds Self.happened (Noted.Closed number) self.old self.new };

    /// Takes a connection of a browser that waits.
    fn accept_browser(&mut self) -> Arrival
        ensures { Visits Self.happened self.old result self.new };

    /// Puts the browser that was accepted last under this number of the browsers'.
    fn seat_browser(&mut self, number: usize)
        ensures { Adds Self.happened (Noted.Admitted number) self.old self.new };

    /// Closes the connection of the browser that was accepted last.
    fn refuse_browser(&mut self)
        ensures { Adds Self.happened Noted.TurnedAway self.old self.new };

    /// Reads from the browser of this number.
    fn read_browser(&mut self, number: usize, bytes: &mut [u8]) -> Came
        ensures { ReadsBrowser Self.happened number self.old bytes.new result self.new };

    /// Writes to the browser of this number.
    fn write_browser(&mut self, number: usize, bytes: &[u8]) -> Went
        ensures { WritesBrowser Self.happened number self.old bytes.now result self.new };

    /// Shuts the writing side of the browser of this number: no more goes out to it. What went out still reaches it.
    fn shut_browser(&mut self, number: usize)
        ensures { Stays Self.happened self.old self.new };

    /// Closes the socket of the browser of this number.
    fn close_browser(&mut self, number: usize)
        ensures { Adds Self.happened (Noted.Left number) self.old self.new };
}
