//! Bytes that come.
#![tactic(auto, using(crate::proofs::Told::stays))]

ghost use Rattle.std.specs.Prelude.{◌≡◌};
ghost use Rattle.koth_session.specs.Peers.{may_come_at};
ghost use Rattle.koth_service.specs.{Places.IsLookedAt, Standing.KeepsOn, Told.Grows};

use crate::desk::{Desk, let_go};
use crate::host::{Host, HowEnded};
use crate::log::LogWrite;
use crate::sockets::{Came, Sockets};
use sector_disk::Device;
use std::alloc::Allocator;

/// The most bytes that one read takes.
pub(crate) const CHUNK: usize = 4096;

/// Reads what each peer has room for, once from each. One that has none is disconnected if it is gone.
pub(crate) fn read_all<S: Sockets, D: Device, A: Allocator + Copy, H: Host<D, A>, E: LogWrite>(
    desk: &mut Desk<D, A>,
    sockets: &mut S,
    host: &H,
    errors: &mut E,
)
    ensures served { KeepsOn S.happened D.facts (H.shows host.now) sockets.old desk.old sockets.new desk.new }
    ensures told { Grows (E.contents errors.old) (E.contents errors.new) }
{
    let mut chunk = [0; CHUNK];
    for number in 0..desk.seats.len() {
        read_from(desk, sockets, host, errors, number, &mut chunk);
    }
}

/// Reads what a peer has room for, by way of a chunk, or looks whether it is gone.
fn read_from<S: Sockets, D: Device, A: Allocator + Copy, H: Host<D, A>, E: LogWrite>(
    desk: &mut Desk<D, A>,
    sockets: &mut S,
    host: &H,
    errors: &mut E,
    number: usize,
    chunk: &mut [u8; CHUNK],
)
    ensures served { KeepsOn S.happened D.facts (H.shows host.now) sockets.old desk.old sockets.new desk.new }
    ensures looked { may_come_at desk.old.peers.slots.items number ≡ 0
        → IsLookedAt S.happened number sockets.old desk.old sockets.new desk.new }
    ensures told { Grows (E.contents errors.old) (E.contents errors.new) }
{
    let room = desk.peers.room(number);
    if room == 0 {
        look_at(desk, sockets, host, errors, number);
        return;
    }
    let bytes = &mut chunk[..room];
    match sockets.read(number, bytes) {
        Came::Bytes(count) => {
            let came = &bytes[..count];
            desk.peers.take(number, came);
            desk.seats.hear(number, came, desk.clock);
            desk.is_busy = true;
        }
        Came::End => {
            desk.peers.close(number);
            desk.is_busy = true;
        }
        Came::Nothing => {}
        Came::Gone => let_go(desk, sockets, host, errors, number, HowEnded::Gone),
    }
}

/// Disconnects a peer whose session goes on if it is gone, though nothing is read from it.
fn look_at<S: Sockets, D: Device, A: Allocator + Copy, H: Host<D, A>, E: LogWrite>(
    desk: &mut Desk<D, A>,
    sockets: &mut S,
    host: &H,
    errors: &mut E,
    number: usize,
)
    ensures served { KeepsOn S.happened D.facts (H.shows host.now) sockets.old desk.old sockets.new desk.new }
    ensures looked { IsLookedAt S.happened number sockets.old desk.old sockets.new desk.new }
    ensures told { Grows (E.contents errors.old) (E.contents errors.new) }
{
    let Some(_seat) = desk.seats.at(number) else {
        return;
    };
    if desk.peers.end(number).is_some() {
        return;
    }
    if sockets.is_gone(number) {
        let_go(desk, sockets, host, errors, number, HowEnded::Gone);
    }
}
