//! Sockets of the system, over a poll.

ghost use Rattle.{std.specs.Prelude.⊤, koth_service.specs.Noted.Noted};

use crate::door::Door;
use crate::line::Line;
use koth_service::{Arrival, Came, Drained, Sockets, Went};
use mio::net::TcpStream;
use mio::{Events, Poll, Token};
use std::alloc::{AllocError, Allocator};
use std::io;
use std::net::{Net, SocketAddr};
use std::rt::Clock;
use std::time::{Duration, Instant};

/// Most events that one wait gives, one a socket at most. They are more than the program's sockets: 1,024 peers, 16
/// browsers and two listeners. A peer of which a wait didn't tell would count as silent.
const EVENTS: usize = 2_048;

/// The token of the listener. The tokens of peers are their numbers, and the tokens of browsers follow them.
const LISTENER: Token = Token(usize::MAX);

/// The token of the listener of browsers.
const PAGES: Token = Token(usize::MAX - 1);

/// Listeners, and the sockets of peers and of browsers by their numbers. No call on a socket waits.
#[derive(Drop)]
pub struct PolledSockets<'r, R, A: Allocator> {
    clock: &'r R,
    start: Instant,
    latest: u64,
    poll: Poll,
    events: Events<A>,
    door: Door,
    lines: Vec<Option<Line>, A>,
    pages: Option<Door>,
    browsers: Vec<Option<Line>, A>,
}

impl<'r, R: Net + Clock, A: Allocator + Copy> PolledSockets<'r, R, A> {
    /// A listener at this address, or at a port that the system chooses if its port is 0, with room for `most` peers at
    /// once. It fails as the system's calls do, with `AddrInUse` and `PermissionDenied` among others, and with
    /// `OutOfMemory` if memory runs out.
    pub fn bind(
        rt: &'r R,
        alloc: A,
        address: SocketAddr,
        most: usize,
    ) -> io::Result<PolledSockets<'r, R, A>> {
        let start = Instant::now(rt)?;
        let poll = Poll::new(rt)?;
        let door = Door::bind(rt, address, poll.registry(), LISTENER)?;
        Ok(PolledSockets {
            clock: rt,
            start,
            latest: 0,
            poll,
            events: Events::with_capacity(alloc, EVENTS)?,
            door,
            lines: no_lines(alloc, most)?,
            pages: None,
            browsers: Vec::new(alloc),
        })
    }

    /// Listens for browsers too, at this address, with room for `most` of them at once. It fails as `bind` does.
    pub fn listen_to_browsers(
        &mut self,
        rt: &'r R,
        alloc: A,
        address: SocketAddr,
        most: usize,
    ) -> io::Result<()> {
        let pages = Door::bind(rt, address, self.poll.registry(), PAGES)?;
        self.browsers = no_lines(alloc, most)?;
        self.pages = Some(pages);
        Ok(())
    }
}

impl<'r, R, A: Allocator> PolledSockets<'r, R, A> {
    /// The address that peers connect to.
    pub fn local_addr(&self) -> io::Result<SocketAddr> {
        self.door.local_addr()
    }

    /// The address that browsers connect to, if they can.
    pub fn pages_addr(&self) -> Option<SocketAddr> {
        match &self.pages {
            Some(pages) => pages.local_addr().ok(),
            None => None,
        }
    }

    /// Waits for events for at most this many milliseconds. There are none if that fails.
    fn poll_for(&mut self, most: u64) {
        let most = Duration::from_millis(most);
        let _ = self.poll.poll(&mut self.events, Some(most));
    }

    /// Takes note of the events of the last wait.
    fn take_events(&mut self) {
        for event in self.events.iter() {
            let token = event.token();
            if token == LISTENER {
                self.door.take_event();
            } else if token == PAGES {
                if let Some(pages) = &mut self.pages {
                    pages.take_event();
                }
            } else if let Some(Some(line)) = self.lines.get_mut(token.0) {
                line.take_event(event);
            } else if let Some(line) = browser_at(&mut self.browsers, self.lines.len(), token) {
                line.take_event(event);
            }
        }
    }

    /// The browser's connection that was accepted last.
    fn take_browser(&mut self) -> Option<TcpStream> {
        self.pages.as_mut()?.take()
    }

    fn put(&mut self, number: usize, line: Option<Line>) {
        if let Some(place) = self.lines.get_mut(number) {
            *place = line;
        }
    }

    fn put_browser(&mut self, number: usize, line: Option<Line>) {
        if let Some(place) = self.browsers.get_mut(number) {
            *place = line;
        }
    }
}

/// The line of the browser with this token. The first `peers` tokens are those of peers.
fn browser_at<A: Allocator>(
    browsers: &mut Vec<Option<Line>, A>,
    peers: usize,
    token: Token,
) -> Option<&mut Line> {
    let number = token.0.checked_sub(peers)?;
    browsers.get_mut(number)?.as_mut()
}

/// A line for each number below `most`, all of them free.
fn no_lines<A: Allocator + Copy>(
    alloc: A,
    most: usize,
) -> Result<Vec<Option<Line>, A>, AllocError> {
    let mut lines = Vec::with_capacity(alloc, most)?;
    for _number in 0..most {
        lines.push(None)?;
    }
    Ok(lines)
}

impl<'r, R: Clock, A: Allocator> Sockets for PolledSockets<'r, R, A> {
    // What the system did is not recorded.
    ghost happened = { λ _ _. ⊤ };

    /// By the system's clock. If that can't be read, the time is the same as at the last call.
    fn now(&mut self) -> u64 {
        if let Ok(passed) = self.start.elapsed(self.clock) {
            let milliseconds = u64::try_from(passed.as_millis()).unwrap_or(u64::MAX);
            self.latest = self.latest.max(milliseconds);
        }
        self.latest
    }

    /// A signal ends a poll without events, though bytes may have come while it stopped the program. So they are looked
    /// for once more.
    fn wait(&mut self, most: u64) -> u64 {
        self.poll_for(most);
        if self.events.is_empty() {
            self.poll_for(0);
        }
        self.take_events();
        self.now()
    }

    fn accept(&mut self) -> Arrival {
        self.door.accept()
    }

    fn seat(&mut self, number: usize) {
        if let Some(stream) = self.door.take() {
            let line = Line::new(stream, self.poll.registry(), Token(number));
            self.put(number, line);
        }
    }

    fn refuse(&mut self) {
        drop(self.door.take());
    }

    fn read(&mut self, number: usize, bytes: &mut [u8]) -> Came {
        match self.lines.get_mut(number) {
            Some(Some(line)) => line.read(bytes),
            _ => Came::Gone,
        }
    }

    fn write(&mut self, number: usize, bytes: &[u8]) -> Went {
        match self.lines.get_mut(number) {
            Some(Some(line)) => line.write(bytes),
            _ => Went::Gone,
        }
    }

    fn is_gone(&mut self, number: usize) -> bool {
        match self.lines.get(number) {
            Some(Some(line)) => line.is_gone(),
            _ => true,
        }
    }

    fn shut(&mut self, number: usize) {
        if let Some(Some(line)) = self.lines.get(number) {
            line.shut();
        }
    }

    fn drain(&mut self, number: usize) -> Drained {
        match self.lines.get_mut(number) {
            Some(Some(line)) => line.drain(),
            _ => Drained::End,
        }
    }

    fn close(&mut self, number: usize) {
        self.put(number, None);
    }

    fn accept_browser(&mut self) -> Arrival {
        match &mut self.pages {
            Some(pages) => pages.accept(),
            None => Arrival::Nobody,
        }
    }

    fn seat_browser(&mut self, number: usize) {
        if let Some(stream) = self.take_browser() {
            let token = Token(self.lines.len().saturating_add(number));
            let line = Line::new(stream, self.poll.registry(), token);
            self.put_browser(number, line);
        }
    }

    fn refuse_browser(&mut self) {
        drop(self.take_browser());
    }

    fn read_browser(&mut self, number: usize, bytes: &mut [u8]) -> Came {
        match self.browsers.get_mut(number) {
            Some(Some(line)) => line.read(bytes),
            _ => Came::Gone,
        }
    }

    fn write_browser(&mut self, number: usize, bytes: &[u8]) -> Went {
        match self.browsers.get_mut(number) {
            Some(Some(line)) => line.write(bytes),
            _ => Went::Gone,
        }
    }

    fn shut_browser(&mut self, number: usize) {
        if let Some(Some(line)) = self.browsers.get(number) {
            line.shut();
        }
    }

    fn close_browser(&mut self, number: usize) {
        self.put_browser(number, None);
    }
}
