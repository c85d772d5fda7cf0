//! Peers whose sessions have ended, or that were silent for too long.
#![tactic(auto, using(crate::proofs::Told::stays))]

ghost use Rattle.std.specs.Prelude.{◌≡◌, true, Some, IsSome};
ghost use Rattle.koth_session.specs.Peers.{end_in, is_finished_in, peer_at};
ghost use Rattle.koth_seats.specs.Seats.{seat_at};
ghost use Rattle.koth_service.specs.{Noted.Stays, Standing.{AreAwaited, IsAwaited, KeepsOn, OthersStay}, Told.Grows};

use crate::desk::{Desk, let_go};
use crate::host::{Host, HowEnded};
use crate::log::LogWrite;
use crate::sockets::{Drained, Sockets};
use koth_seats::{DRAIN, DRAINED_MOST, Draining, Seat};
use koth_session::PeerEnd;
use sector_disk::Device;
use std::alloc::Allocator;

/// Disconnects the peers from which nothing more is awaited.
pub(crate) fn part_all<S: Sockets, D: Device, A: Allocator + Copy, H: Host<D, A>, E: LogWrite>(
    desk: &mut Desk<D, A>,
    sockets: &mut S,
    host: &H,
    errors: &mut E,
)
    ensures served { KeepsOn S.happened D.facts (H.shows host.now) sockets.old desk.old sockets.new desk.new }
    ensures awaited { AreAwaited desk.new }
    ensures told { Grows (E.contents errors.old) (E.contents errors.new) }
{
    for number in 0..desk.seats.len() {
        part(desk, sockets, host, errors, number);
    }
}

/// Shuts a peer that is finished, and disconnects one that was shut or silent for long enough, or that reads none of
/// its answers.
fn part<S: Sockets, D: Device, A: Allocator + Copy, H: Host<D, A>, E: LogWrite>(
    desk: &mut Desk<D, A>,
    sockets: &mut S,
    host: &H,
    errors: &mut E,
    number: usize,
)
    ensures served { KeepsOn S.happened D.facts (H.shows host.now) sockets.old desk.old sockets.new desk.new }
    ensures others { OthersStay number desk.old desk.new }
    ensures awaited { IsAwaited number desk.new }
    ensures told { Grows (E.contents errors.old) (E.contents errors.new) }
{
    let Some(seat) = desk.seats.at(number) else {
        return;
    };
    match desk.peers.end(number) {
        Some(PeerEnd::Unread) => {
            let how = HowEnded::By(PeerEnd::Unread);
            let_go(desk, sockets, host, errors, number, how);
        }
        Some(end) if desk.peers.is_finished(number) => match seat.draining {
            None => shut::<S, D, A, H>(desk, sockets, number),
            Some(draining) => drain_on(desk, sockets, host, errors, number, draining, end),
        },
        _ => {
            if desk.peers.is_due(number) {
                return;
            }
            if seat.is_patience_over(desk.read_at) {
                let_go(desk, sockets, host, errors, number, HowEnded::Silent);
            }
        }
    }
}

/// Shuts a peer whose session has ended and to which all answers went out.
fn shut<S: Sockets, D: Device, A: Allocator + Copy, H: Host<D, A>>(
    desk: &mut Desk<D, A>,
    sockets: &mut S,
    number: usize,
)
    requires ended { IsSome (end_in (peer_at desk.old.peers.slots.items number)) }
    requires finished { is_finished_in (peer_at desk.old.peers.slots.items number) ≡ true }
    ensures served { (host : H) → KeepsOn S.happened D.facts (H.shows host) sockets.old desk.old sockets.new desk.new }
    ensures others { OthersStay number desk.old desk.new }
    ensures awaited { IsAwaited number desk.new }
{
    let draining = Draining {
        since: desk.clock,
        count: 0,
    };
    sockets.shut(number);
    desk.seats.drain(number, draining);
    desk.is_busy = true;
}

/// Throws away what still comes from a peer that was shut, and disconnects it after a while. Its session has ended in
/// this way.
fn drain_on<S: Sockets, D: Device, A: Allocator + Copy, H: Host<D, A>, E: LogWrite>(
    desk: &mut Desk<D, A>,
    sockets: &mut S,
    host: &H,
    errors: &mut E,
    number: usize,
    draining: Draining,
    end: PeerEnd,
)
    requires shut { (seat : Seat) → seat_at desk.old.seats.seats.items number ≡ Some seat → IsSome seat.draining }
    requires ended { end_in (peer_at desk.old.peers.slots.items number) ≡ Some end }
    requires finished { is_finished_in (peer_at desk.old.peers.slots.items number) ≡ true }
    ensures served { KeepsOn S.happened D.facts (H.shows host.now) sockets.old desk.old sockets.new desk.new }
    ensures others { OthersStay number desk.old desk.new }
    ensures awaited { IsAwaited number desk.new }
    ensures told { Grows (E.contents errors.old) (E.contents errors.new) }
{
    match drained(sockets, number, draining, desk.clock) {
        Some(after) => {
            desk.is_busy |= after.count > draining.count;
            desk.seats.drain(number, after);
        }
        None => let_go(desk, sockets, host, errors, number, HowEnded::By(end)),
    }
}

/// Throws away what still comes from a peer that was shut. It returns how that is, or nothing if the peer's bytes are
/// at their end, or it was waited for long enough.
fn drained<S: Sockets>(
    sockets: &mut S,
    number: usize,
    draining: Draining,
    now: u64,
) -> Option<Draining>
    ensures { Stays S.happened sockets.old sockets.new }
{
    let more = match sockets.drain(number) {
        Drained::Bytes(more) => more,
        Drained::Nothing => 0,
        Drained::End => return None,
    };
    let count = draining.count.saturating_add(more);
    if count >= DRAINED_MOST || now.saturating_sub(draining.since) >= DRAIN {
        return None;
    }
    Some(Draining {
        since: draining.since,
        count,
    })
}
