//! What peers and browsers do, and those that call at sockets of no system.

ghost use Rattle.koth_service.specs.Noted.{CameWithin, WentWithin};

use koth_service::{Came, Drained, Went};
use std::alloc::Global;

/// At which millisecond something is done, and what.
pub(crate) type Cue = (u64, Deed);

/// What peers do. Each of them is named by the port that it calls from.
#[derive(Clone, Copy)]
pub(crate) enum Deed {
    /// It connects.
    Calls(u16),
    /// It connects as a browser.
    Visits(u16),
    /// Bytes of it come.
    Says(u16, &'static str),
    /// It says the same this number of times.
    Repeats(u16, &'static str, u32),
    /// Its bytes are at their end.
    Ends(u16),
    /// It takes this number of bytes more of its answers.
    Takes(u16, usize),
    /// The work on what is read next takes this number of milliseconds.
    Lasts(u64),
    /// The next accept of a peer fails.
    Fails,
    /// The next accept of a browser fails.
    FailsBrowser,
}

/// Bytes that a read takes at most.
const PIECE: usize = 4096;

/// A peer or a browser, from its call on.
#[derive(Drop)]
pub(crate) struct Caller {
    pub(crate) port: u16,
    pub(crate) is_browser: bool,
    pub(crate) number: Option<usize>,
    pub(crate) waits: bool,
    coming: Vec<u8>,
    /// How many of these bytes were read.
    read: usize,
    has_ended: bool,
    /// How many bytes it takes still.
    takes: usize,
    /// What went out to it.
    pub(crate) heard: Vec<u8>,
    /// When its connection was closed.
    pub(crate) closed: Option<u64>,
}

impl Caller {
    /// One that waits and has sent nothing yet.
    pub(crate) fn new(alloc: Global, port: u16, is_browser: bool) -> Caller {
        Caller {
            port,
            is_browser,
            number: None,
            waits: true,
            coming: Vec::new(alloc),
            read: 0,
            has_ended: false,
            takes: 0,
            heard: Vec::new(alloc),
            closed: None,
        }
    }

    /// It does this. What is done before it is there is no deed of it.
    pub(crate) fn act(&mut self, deed: Deed) {
        match deed {
            Deed::Says(_, text) => self.say(text, 1),
            Deed::Repeats(_, text, times) => self.say(text, times),
            Deed::Ends(_) => self.has_ended = true,
            Deed::Takes(_, count) => self.takes = self.takes.saturating_add(count),
            Deed::Calls(_) | Deed::Visits(_) | Deed::Lasts(_) | Deed::Fails | Deed::FailsBrowser =>
                {}
        }
    }

    fn say(&mut self, text: &str, times: u32) {
        for _ in 0..times {
            let _ = self.coming.extend_from_slice(text.as_bytes());
        }
    }

    pub(crate) fn give(&mut self, bytes: &mut [u8]) -> Came
        ensures { CameWithin result bytes.new }
    {
        let Some(coming) = self.coming.get(self.read..) else {
            return Came::Gone;
        };
        let count = coming.len().min(PIECE).min(bytes.len());
        if count > 0 {
            bytes[..count].copy_from_slice(&coming[..count]);
            self.read = self.read.saturating_add(count);
            return Came::Bytes(count);
        }
        if self.has_ended {
            Came::End
        } else {
            Came::Nothing
        }
    }

    pub(crate) fn hear(&mut self, bytes: &[u8]) -> Went
        ensures { WentWithin result bytes.now }
    {
        let count = self.takes.min(bytes.len());
        if count == 0 {
            return Went::Nothing;
        }
        self.takes = self.takes.saturating_sub(count);
        let _ = self.heard.extend_from_slice(&bytes[..count]);
        Went::Bytes(count)
    }

    pub(crate) fn waste(&mut self) -> Drained {
        let mut chunk = [0; 4096];
        match self.give(&mut chunk) {
            Came::Bytes(count) => Drained::Bytes(count),
            Came::Nothing => Drained::Nothing,
            Came::End | Came::Gone => Drained::End,
        }
    }
}
