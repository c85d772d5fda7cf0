//! Sockets of no system: what peers do is written down beforehand, and what is done to them is kept.

ghost use Rattle.std.specs.Prelude.{⊤};

use crate::callers::{Caller, Cue, Deed};
use koth_service::{Arrival, Came, Drained, Sockets, Went};
use std::alloc::Global;
use std::net::{Ipv4Addr, SocketAddr};

/// Sockets on which these cues happen.
#[derive(Drop)]
pub(crate) struct Fakes<'c> {
    alloc: Global,
    time: u64,
    cues: &'c [Cue],
    /// How long the work on what is read next takes.
    lasts: u64,
    fails: usize,
    browser_fails: usize,
    accepted: usize,
    callers: Vec<Caller>,
}

impl<'c> Fakes<'c> {
    pub(crate) fn new(alloc: Global, cues: &'c [Cue]) -> Fakes<'c> {
        Fakes {
            alloc,
            time: 0,
            cues,
            lasts: 0,
            fails: 0,
            browser_fails: 0,
            accepted: 0,
            callers: Vec::new(alloc),
        }
    }

    /// The peer or the browser that is there under this number.
    fn seated(&mut self, is_browser: bool, number: usize) -> Option<&mut Caller> {
        let place = self.callers.iter().position(|caller| {
            caller.is_browser == is_browser
                && caller.number == Some(number)
                && caller.closed.is_none()
        })?;
        self.callers.get_mut(place)
    }

    /// What is due by now happens.
    fn happen(&mut self) {
        for _ in 0..self.cues.len() {
            let Some((cue, rest)) = self.cues.split_first() else {
                return;
            };
            let (at, deed) = *cue;
            if at > self.time {
                return;
            }
            self.cues = rest;
            self.act(deed);
        }
    }

    fn act(&mut self, deed: Deed) {
        match deed {
            Deed::Calls(port) => self.call(port, false),
            Deed::Visits(port) => self.call(port, true),
            Deed::Lasts(time) => self.lasts = time,
            Deed::Fails => self.fails = self.fails.saturating_add(1),
            Deed::FailsBrowser => self.browser_fails = self.browser_fails.saturating_add(1),
            Deed::Says(port, _)
            | Deed::Repeats(port, _, _)
            | Deed::Ends(port)
            | Deed::Takes(port, _) => self.act_as(port, deed),
        }
    }

    /// The caller from this port does this.
    fn act_as(&mut self, port: u16, deed: Deed) {
        let Some(place) = self.callers.iter().position(|caller| caller.port == port) else {
            return;
        };
        if let Some(caller) = self.callers.get_mut(place) {
            caller.act(deed);
        }
    }

    fn take_call(&mut self, place: usize) -> Arrival {
        self.accepted = place;
        match self.callers.get_mut(place) {
            Some(caller) => {
                caller.waits = false;
                Arrival::Peer(SocketAddr::from((Ipv4Addr::LOCALHOST, caller.port)))
            }
            None => Arrival::Nobody,
        }
    }

    fn call(&mut self, port: u16, is_browser: bool) {
        let _ = self.callers.push(Caller::new(self.alloc, port, is_browser));
    }

    /// The place of the first one that waits, among peers or among browsers.
    fn waiting(&self, is_browser: bool) -> Option<usize> {
        self.callers
            .iter()
            .position(|caller| caller.waits && caller.is_browser == is_browser)
    }
}

/// Sockets that keep what became of those that called.
pub(crate) trait Called: Sockets + Drop {
    /// What the one heard that called from this port, if one did.
    fn heard(&self, port: u16) -> Option<&[u8]>;

    /// When its connection was closed, if it was.
    fn closed(&self, port: u16) -> Option<u64>;
}

impl Called for Fakes<'_> {
    fn heard(&self, port: u16) -> Option<&[u8]> {
        let caller = self.callers.iter().find(|caller| caller.port == port)?;
        Some(caller.heard.as_slice())
    }

    fn closed(&self, port: u16) -> Option<u64> {
        let caller = self.callers.iter().find(|caller| caller.port == port)?;
        caller.closed
    }
}

impl Sockets for Fakes<'_> {
    ghost happened = { λ _ _. ⊤ };

    fn now(&mut self) -> u64 {
        self.time
    }

    /// The time goes on to the next cue, or by as much as may be waited.
    fn wait(&mut self, most: u64) -> u64 {
        let until = match self.cues.first() {
            Some((at, _)) => at.saturating_sub(self.time),
            None => most,
        };
        self.time = self.time.saturating_add(most.min(until));
        self.happen();
        self.time
    }

    fn accept(&mut self) -> Arrival {
        if self.fails > 0 {
            self.fails = self.fails.saturating_sub(1);
            return Arrival::Failed;
        }
        match self.waiting(false) {
            Some(place) => self.take_call(place),
            None => Arrival::Nobody,
        }
    }

    fn seat(&mut self, number: usize) {
        if let Some(caller) = self.callers.get_mut(self.accepted) {
            caller.number = Some(number);
        }
    }

    fn refuse(&mut self) {
        let time = self.time;
        if let Some(caller) = self.callers.get_mut(self.accepted) {
            caller.closed = Some(time);
        }
    }

    fn read(&mut self, number: usize, bytes: &mut [u8]) -> Came {
        let came = match self.seated(false, number) {
            Some(caller) => caller.give(bytes),
            None => Came::Gone,
        };
        if let Came::Bytes(_) = came {
            // the work on what was read is done, and what is due by then happens
            self.time = self.time.saturating_add(self.lasts);
            self.lasts = 0;
            self.happen();
        }
        came
    }

    fn write(&mut self, number: usize, bytes: &[u8]) -> Went {
        match self.seated(false, number) {
            Some(caller) => caller.hear(bytes),
            None => Went::Gone,
        }
    }

    fn is_gone(&mut self, number: usize) -> bool {
        self.seated(false, number).is_none()
    }

    fn shut(&mut self, _number: usize) {}

    fn drain(&mut self, number: usize) -> Drained {
        match self.seated(false, number) {
            Some(caller) => caller.waste(),
            None => Drained::End,
        }
    }

    fn close(&mut self, number: usize) {
        let time = self.time;
        if let Some(caller) = self.seated(false, number) {
            caller.closed = Some(time);
        }
    }

    fn accept_browser(&mut self) -> Arrival {
        if self.browser_fails > 0 {
            self.browser_fails = self.browser_fails.saturating_sub(1);
            return Arrival::Failed;
        }
        match self.waiting(true) {
            Some(place) => self.take_call(place),
            None => Arrival::Nobody,
        }
    }

    fn seat_browser(&mut self, number: usize) {
        self.seat(number);
    }

    fn refuse_browser(&mut self) {
        self.refuse();
    }

    fn read_browser(&mut self, number: usize, bytes: &mut [u8]) -> Came {
        match self.seated(true, number) {
            Some(caller) => caller.give(bytes),
            None => Came::Gone,
        }
    }

    fn write_browser(&mut self, number: usize, bytes: &[u8]) -> Went {
        match self.seated(true, number) {
            Some(caller) => caller.hear(bytes),
            None => Went::Gone,
        }
    }

    fn shut_browser(&mut self, _number: usize) {}

    fn close_browser(&mut self, number: usize) {
        let time = self.time;
        if let Some(caller) = self.seated(true, number) {
            caller.closed = Some(time);
        }
    }
}
