//! What is kept of each peer next to its session. Times are in milliseconds, by the clock of the sockets.

ghost use Rattle.std.specs.Prelude.{◌≡◌, ◌↔◌, ◌-◌, ◌≤◌, ◌<◌, ℕ, IsTrue, IfOk, None, Some, length, option_copied};
ghost use Rattle.koth_seats.specs.Seats.{seat_at, seat_drained, seat_heard, seat_map, seat_new, seat_served, seat_told, IsPatienceOver, IsUnused, OnlySeat, SeatMoves};
ghost use Rattle.koth_seats.specs.declared.times.TheConstants.{UNSPOKEN, UNUSED};

use crate::places::Keeping;
use crate::times::{DRAIN, PATIENCE, UNSPOKEN, UNUSED};
use std::alloc::{AllocError, Allocator};
use std::net::{IpAddr, SocketAddr};

/// How long a peer keeps its place.
const PLACES: Keeping = Keeping {
    unspoken: UNSPOKEN,
    unused: UNUSED,
};

/// What is known of a peer.
#[derive(Clone, Copy)]
pub struct Seat {
    pub address: SocketAddr,
    /// When it was seated, a byte of it came or went, or a command of it was carried out, whichever was last.
    pub active: u64,
    /// When it was seated, a whole line of it came, or a command of it was carried out, whichever was last.
    pub useful: u64,
    /// Whether a byte of it came.
    pub has_spoken: bool,
    /// What is thrown away, if the writing side is shut.
    pub draining: Option<Draining>,
}

/// What still comes from a peer whose writing side is shut.
#[derive(Clone, Copy)]
pub struct Draining {
    /// When the writing side was shut.
    pub since: u64,
    /// How many bytes were thrown away.
    pub count: usize,
}

impl Seat {
    /// Whether no byte came or went, and no command was carried out, for as long as a peer may be silent.
    pub fn is_patience_over(&self, now: u64) -> bool
        ensures { IsTrue result ↔ IsPatienceOver now self.now.active }
    {
        now.saturating_sub(self.active) >= PATIENCE
    }

    /// Whether the peer may be disconnected for another, if no command of it is pending.
    pub fn is_unused(&self, now: u64) -> bool
        ensures { IsTrue result ↔ IsUnused UNSPOKEN UNUSED now self.now.has_spoken self.now.useful }
    {
        PLACES.is_over(now, self.has_spoken, self.useful)
    }

    /// Milliseconds until the peer has been waited for as long as it may be.
    fn until(&self, now: u64) -> u64 {
        let (since, most) = match self.draining {
            Some(draining) => (draining.since, DRAIN),
            None => (self.active, PATIENCE),
        };
        most.saturating_sub(now.saturating_sub(since))
    }

    /// Milliseconds until the peer may be disconnected for another; `UNUSED` if it may be already.
    fn until_unused(&self, now: u64) -> u64 {
        PLACES.until(now, self.has_spoken, self.useful)
    }
}

/// Seats by the numbers of the peers.
#[derive(Drop)]
pub struct Seats<A: Allocator> {
    seats: Vec<Option<Seat>, A>,
}

impl<A: Allocator> Seats<A> {
    /// `most` free seats. `AllocError` comes if the growth of memory is refused.
    pub fn new(alloc: A, most: usize) -> Result<Seats<A>, AllocError>
        ensures free { IfOk result (λ seats. (p : ℕ) → seat_at seats.seats.items p ≡ None) }
        ensures most { IfOk result (λ seats. length seats.seats.items ≡ most) }
    {
        Ok(Seats {
            seats: Vec::from_elem(alloc, None, most)?,
        })
    }

    /// How many seats there are.
    pub fn len(&self) -> usize
        ensures { result ≡ length self.now.seats.items }
    {
        self.seats.len()
    }

    /// The seat of this number, if a peer has it.
    pub fn at(&self, number: usize) -> Option<Seat>
        ensures { result ≡ seat_at self.now.seats.items number }
    {
        if number < self.seats.len() {
            self.seats[number]
        } else {
            None
        }
    }

    /// How many peers have an address of this host.
    pub fn count_of(&self, host: IpAddr) -> u32 {
        let mut count: u32 = 0;
        for seat in &self.seats {
            if let Some(seat) = seat {
                if seat.address.ip() == host {
                    count = count.saturating_add(1);
                }
            }
        }
        count
    }

    /// Puts a peer on a seat, if there is one of this number.
    pub fn sit(&mut self, number: usize, address: SocketAddr, now: u64)
        ensures only { OnlySeat number self.old.seats.items self.new.seats.items }
        ensures at { number < length self.old.seats.items
            → seat_at self.new.seats.items number ≡ Some (seat_new address now) }
    {
        if number < self.seats.len() {
            self.seats[number] = Some(Seat {
                address,
                active: now,
                useful: now,
                has_spoken: false,
                draining: None,
            });
        }
    }

    /// The seat is free.
    pub fn leave(&mut self, number: usize)
        ensures only { OnlySeat number self.old.seats.items self.new.seats.items }
        ensures at { seat_at self.new.seats.items number ≡ None }
    {
        if number < self.seats.len() {
            self.seats[number] = None;
        }
    }

    /// These bytes of this peer came.
    pub fn hear(&mut self, number: usize, bytes: &[u8], now: u64)
        ensures { SeatMoves (seat_heard bytes.now now) number self.old.seats.items self.new.seats.items }
    {
        if number < self.seats.len() {
            hear_in(&mut self.seats[number], bytes, now);
        }
    }

    /// Answers went out to this peer.
    pub fn tell(&mut self, number: usize, now: u64)
        ensures { SeatMoves (seat_told now) number self.old.seats.items self.new.seats.items }
    {
        if number < self.seats.len() {
            tell_in(&mut self.seats[number], now);
        }
    }

    /// A command of this peer was carried out, or ended its session.
    pub fn serve(&mut self, number: usize, now: u64)
        ensures { SeatMoves (seat_served now) number self.old.seats.items self.new.seats.items }
    {
        if number < self.seats.len() {
            serve_in(&mut self.seats[number], now);
        }
    }

    /// What still comes of this peer is thrown away.
    pub fn drain(&mut self, number: usize, draining: Draining)
        ensures { SeatMoves (seat_drained draining) number self.old.seats.items self.new.seats.items }
    {
        if number < self.seats.len() {
            drain_in(&mut self.seats[number], draining);
        }
    }

    /// Milliseconds until the first peer has been waited for as long as it may be, and no more than a peer may be
    /// silent. If no seat is free, it is no longer than until the first peer may be disconnected for another.
    pub fn until(&self, now: u64) -> u64 {
        let mut least = PATIENCE;
        let mut first_unused = PATIENCE;
        let mut is_full = true;
        for seat in &self.seats {
            match seat {
                Some(seat) => {
                    least = least.min(seat.until(now));
                    first_unused = first_unused.min(seat.until_unused(now));
                }
                None => is_full = false,
            }
        }
        if is_full {
            least.min(first_unused)
        } else {
            least
        }
    }
}

fn hear_in(seat: &mut Option<Seat>, bytes: &[u8], now: u64)
    ensures { seat.new ≡ seat_map (seat_heard bytes.now now) seat.old }
{
    if let Some(seat) = seat {
        seat.active = now;
        seat.has_spoken = seat.has_spoken || !bytes.is_empty();
        if bytes.contains(&b'\n') {
            seat.useful = now;
        }
    }
}

fn tell_in(seat: &mut Option<Seat>, now: u64)
    ensures { seat.new ≡ seat_map (seat_told now) seat.old }
{
    if let Some(seat) = seat {
        seat.active = now;
    }
}

fn serve_in(seat: &mut Option<Seat>, now: u64)
    ensures { seat.new ≡ seat_map (seat_served now) seat.old }
{
    if let Some(seat) = seat {
        seat.active = now;
        seat.useful = now;
    }
}

fn drain_in(seat: &mut Option<Seat>, draining: Draining)
    ensures { seat.new ≡ seat_map (seat_drained draining) seat.old }
{
    if let Some(seat) = seat {
        seat.draining = Some(draining);
    }
}
