//! Connections of browsers, and how long each is waited for.

ghost use Rattle.std.specs.Prelude.{◌≡◌, ℕ, ◌<◌, None, Some, length, IfOk, IfSome};
ghost use Rattle.koth_service.specs.Connections.{ComesTo, LosesSlotSince, MayGiveSlot, StaysAt, longer_if, stage_at, stage_in};

use crate::unsent::Unsent;
use koth_http::Visit;
use koth_seats::{ANSWERING, ASKING, DRAIN, Keeping, UNASKED, UNHEARD, longer};
use std::alloc::{AllocError, Allocator};
use std::net::{IpAddr, SocketAddr};

/// How long a browser keeps its slot until its request is whole.
const SLOTS: Keeping = Keeping {
    unspoken: UNHEARD,
    unused: UNASKED,
};

/// A connection of a browser.
#[derive(Drop)]
pub(crate) struct Connection<A: Allocator> {
    pub(crate) address: SocketAddr,
    pub(crate) stage: Stage<A>,
    /// When it is closed if it is at this stage still, in milliseconds.
    pub(crate) until: u64,
}

/// How far a connection has come.
#[derive(Drop)]
pub(crate) enum Stage<A: Allocator> {
    /// Its request comes, since this time in milliseconds.
    Asking(Visit<A>, u64),
    /// Its request is whole, and waits for the share of browsers.
    Asked(Visit<A>),
    /// Its answer goes out.
    Answering(Unsent<A>),
    /// The answer went out whole, and what still comes is thrown away.
    Parting,
}

/// Connections of browsers by their numbers.
#[derive(Drop)]
pub(crate) struct Browsers<A: Allocator> {
    pub(crate) alloc: A,
    connections: Vec<Option<Connection<A>>, A>,
    /// The number after the one that was answered last.
    turn: usize,
}

impl<A: Allocator + Copy> Browsers<A> {
    /// No connections yet, and room for `most` at once. `AllocError` comes if the growth of memory is refused.
    pub(crate) fn new(alloc: A, most: usize) -> Result<Browsers<A>, AllocError>
        ensures nobody { IfOk result (λ browsers. (p : ℕ) → stage_at browsers.connections.items p ≡ None) }
        ensures slots { IfOk result (λ browsers. length browsers.connections.items ≡ most) }
    {
        let mut connections = Vec::with_capacity(alloc, most)?;
        for _number in 0..most {
            connections.push(None)?;
        }
        Ok(Browsers {
            alloc,
            connections,
            turn: 0,
        })
    }
}

impl<A: Allocator> Browsers<A> {
    pub(crate) fn len(&self) -> usize
        ensures { result ≡ length self.now.connections.items }
    {
        self.connections.len()
    }

    /// The number `place` places after the turn.
    pub(crate) fn number(&self, place: usize) -> usize {
        let number = self.turn.saturating_add(place);
        if number < self.len() {
            number
        } else {
            number.saturating_sub(self.len())
        }
    }

    /// The turn is the next number's.
    pub(crate) fn pass_turn(&mut self)
        ensures { self.new.connections ≡ self.old.connections }
    {
        self.turn = self.number(1);
    }

    /// Takes a connection away from its number.
    pub(crate) fn take(&mut self, number: usize) -> Option<Connection<A>>
        ensures taken { stage_in result ≡ stage_at self.old.connections.items number }
        ensures comes { ComesTo number None self.old.connections.items self.new.connections.items }
        ensures within { IfSome result (λ _. number < length self.new.connections.items) }
    {
        if number < self.connections.len() {
            self.connections[number].take()
        } else {
            None
        }
    }

    /// Puts a connection under a number.
    pub(crate) fn put(&mut self, number: usize, connection: Connection<A>)
        requires { number < length self.old.connections.items }
        ensures { ComesTo number (Some connection.stage) self.old.connections.items self.new.connections.items }
    {
        self.connections[number] = Some(connection);
    }

    /// The number that one more browser would be given: the least that no connection has, or if none is free, that of
    /// the connection that has waited longest for its request, of those that may lose their slots.
    pub(crate) fn slot_for_one(&self, now: u64) -> Option<usize>
        ensures { MayGiveSlot result now self.now.connections.items }
    {
        let mut longest = None;
        for number in 0..self.connections.len() {
            let Some(connection) = &self.connections[number] else {
                return Some(number);
            };
            longest = longer_if(longest, number, connection.loses_since(now));
        }
        match longest {
            Some((number, _)) => Some(number),
            None => None,
        }
    }

    /// How many connections have an address of this host.
    pub(crate) fn count_of(&self, host: IpAddr) -> u32 {
        let mut count: u32 = 0;
        for connection in &self.connections {
            if let Some(connection) = connection {
                if connection.address.ip() == host {
                    count = count.saturating_add(1);
                }
            }
        }
        count
    }

    /// Milliseconds until the first connection has been waited for as long as it may be. If no slot is free, it is no
    /// longer than until the first one may be given to another.
    pub(crate) fn until(&self, now: u64) -> u64 {
        let mut least = ANSWERING;
        let mut first_lost = ANSWERING;
        let mut is_full = true;
        for connection in &self.connections {
            match connection {
                Some(connection) => {
                    least = least.min(connection.until.saturating_sub(now));
                    first_lost = first_lost.min(connection.until_lost(now));
                }
                None => is_full = false,
            }
        }
        if is_full {
            least.min(first_lost)
        } else {
            least
        }
    }
}

/// Of two with their numbers the one that made use of its slot longer ago, if this one may lose its slot.
fn longer_if(
    longest: Option<(usize, u64)>,
    number: usize,
    since: Option<u64>,
) -> Option<(usize, u64)>
    ensures { result ≡ longer_if longest number since }
{
    match since {
        Some(since) => longer(longest, number, since),
        None => longest,
    }
}

impl<A: Allocator> Connection<A> {
    /// A connection that begins this stage now.
    pub(crate) fn begun(address: SocketAddr, stage: Stage<A>, now: u64) -> Connection<A>
        ensures { result.stage ≡ stage }
    {
        Connection {
            address,
            until: now.saturating_add(stage.patience()),
            stage,
        }
    }

    /// The same connection, unless it has been at its stage for too long.
    pub(crate) fn in_time(self, now: u64) -> Option<Connection<A>>
        ensures { StaysAt self.stage result }
    {
        if now < self.until { Some(self) } else { None }
    }

    /// Since when its request comes, if its slot may be given to another.
    fn loses_since(&self, now: u64) -> Option<u64>
        ensures { LosesSlotSince now self.now.stage result }
    {
        match &self.stage {
            Stage::Asking(visit, since) if SLOTS.is_over(now, !visit.is_empty(), *since) => {
                Some(*since)
            }
            _ => None,
        }
    }

    /// Milliseconds until its slot may be given to another.
    fn until_lost(&self, now: u64) -> u64 {
        match &self.stage {
            Stage::Asking(visit, since) => SLOTS.until(now, !visit.is_empty(), *since),
            Stage::Asked(_) | Stage::Answering(_) | Stage::Parting => ANSWERING,
        }
    }
}

impl<A: Allocator> Stage<A> {
    /// Milliseconds that it may last.
    pub(crate) fn patience(&self) -> u64 {
        match self {
            Stage::Asking(_, _) => ASKING,
            Stage::Asked(_) | Stage::Answering(_) => ANSWERING,
            Stage::Parting => DRAIN,
        }
    }
}
