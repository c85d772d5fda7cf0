//! Peers that arrive.
#![tactic(auto, using(crate::proofs::Told::stays))]

ghost use Rattle.std.specs.Prelude.{◌≡◌, ◌↔◌, ◌+◌, IsTrue, Some};
ghost use Rattle.koth_seats.specs.Seats.{seat_at};
ghost use Rattle.koth_service.specs.{Places.{IsLongestUpTo, MayGive, MayLeave, MayLeaveSince}, Standing.{KeepsOn, KeepsOnArrived}, Told.Grows};

use crate::desk::{Desk, are_enough, let_go};
use crate::host::{Event, Host, HowEnded};
use crate::log::LogWrite;
use crate::sockets::{Arrival, Sockets};
use koth_seats::{Seat, longer};
use koth_session::NotConnected;
use sector_disk::Device;
use std::alloc::Allocator;
use std::net::SocketAddr;

/// The most connections that are taken in a round.
const ARRIVALS: usize = 16;

/// The place that a peer would be given.
#[derive(Clone, Copy)]
pub(crate) enum Place {
    /// One that is free.
    Free,
    /// That of the peer of this number, which is disconnected for it.
    Of(usize),
    /// None.
    Nowhere,
}

/// Takes the connections that wait, unless there is no place for one more, or as many sessions have begun as are asked
/// for: then they wait on.
pub(crate) fn take_arrivals<S: Sockets, D: Device, A: Allocator + Copy, H: Host<D, A>, E: LogWrite>(
    desk: &mut Desk<D, A>,
    sockets: &mut S,
    host: &H,
    errors: &mut E,
)
    ensures served { KeepsOn S.happened D.facts (H.shows host.now) sockets.old desk.old sockets.new desk.new }
    ensures told { Grows (E.contents errors.old) (E.contents errors.new) }
{
    for _arrival in 0..ARRIVALS {
        if are_enough(desk.sessions.begun, desk.limits.connections) {
            return;
        }
        let place = place_for_one(desk);
        if matches!(place, Place::Nowhere) {
            return;
        }
        match sockets.accept() {
            Arrival::Peer(address) => take_in_one(desk, sockets, host, errors, address, place),
            Arrival::Nobody => return,
            Arrival::Failed => {
                desk.retries = true;
                return;
            }
        }
    }
}

/// The place that one more peer would be given: if none is free, that of the peer that has gone longest without a whole
/// line, of those that have no command due and may be disconnected for another.
fn place_for_one<D: Device, A: Allocator + Copy>(desk: &Desk<D, A>) -> Place
    ensures { MayGive result desk.now }
{
    let mut longest = None;
    for number in 0..desk.seats.len() {
        let Some(seat) = desk.seats.at(number) else {
            return Place::Free;
        };
        longest = with_longest(desk, longest, number, seat);
    }
    match longest {
        Some((number, _)) => Place::Of(number),
        None => Place::Nowhere,
    }
}

/// Of the peers below a number, and of this one, which has it, the one that may leave and was of use longest ago.
fn with_longest<D: Device, A: Allocator + Copy>(
    desk: &Desk<D, A>,
    longest: Option<(usize, u64)>,
    number: usize,
    seat: Seat,
) -> Option<(usize, u64)>
    requires { seat_at desk.now.seats.seats.items number ≡ Some seat }
    ensures { IsLongestUpTo (MayLeaveSince desk.now) number longest
        → IsLongestUpTo (MayLeaveSince desk.now) (number + 1) result }
{
    if may_leave(desk, number, seat) {
        longer(longest, number, seat.useful)
    } else {
        longest
    }
}

/// Whether a peer may be disconnected for another: its session goes on or answers to it are unsent, no command of it is
/// pending, and it is of no use.
fn may_leave<D: Device, A: Allocator + Copy>(desk: &Desk<D, A>, number: usize, seat: Seat) -> bool
    ensures { IsTrue result ↔ MayLeave number seat desk.now }
{
    seat.is_unused(desk.clock) && !desk.peers.is_due(number) && !desk.peers.is_finished(number)
}

/// Begins a session with the peer that was accepted, at this place. It is refused if as many peers of its host are
/// there as may be.
fn take_in_one<S: Sockets, D: Device, A: Allocator + Copy, H: Host<D, A>, E: LogWrite>(
    desk: &mut Desk<D, A>,
    sockets: &mut S,
    host: &H,
    errors: &mut E,
    address: SocketAddr,
    place: Place,
)
    requires { MayGive place desk.old }
    ensures served { KeepsOnArrived S.happened D.facts (H.shows host.now) sockets.old desk.old sockets.new desk.new }
    ensures told { Grows (E.contents errors.old) (E.contents errors.new) }
{
    desk.is_busy = true;
    let most = desk.limits.peers_per_address;
    if most.is_some_and(|most| desk.seats.count_of(address.ip()) >= most) {
        sockets.refuse();
        host.tell(address, Event::Refused, errors);
        return;
    }
    match place {
        Place::Of(number) => {
            let_go(desk, sockets, host, errors, number, HowEnded::Displaced);
            admit(desk, sockets, host, errors, address);
        }
        Place::Free | Place::Nowhere => admit(desk, sockets, host, errors, address),
    }
}

/// Begins a session with the peer that was accepted. It is refused if there is no place, or no memory for it.
fn admit<S: Sockets, D: Device, A: Allocator + Copy, H: Host<D, A>, E: LogWrite>(
    desk: &mut Desk<D, A>,
    sockets: &mut S,
    host: &H,
    errors: &mut E,
    address: SocketAddr,
)
    ensures served { KeepsOn S.happened D.facts (H.shows host.now) sockets.old desk.old sockets.new desk.new }
    ensures told { Grows (E.contents errors.old) (E.contents errors.new) }
{
    match desk.peers.connect() {
        Ok(number) => {
            sockets.seat(number);
            desk.seats.sit(number, address, desk.clock);
            desk.sessions.begun = desk.sessions.begun.saturating_add(1);
            host.tell(address, Event::Connected, errors);
        }
        Err(NotConnected::Full | NotConnected::Memory) => sockets.refuse(),
    }
}
