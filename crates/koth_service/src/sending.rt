//! Answers that go out.
#![tactic(auto, using(crate::proofs::Told::stays))]

ghost use Rattle.koth_service.specs.{Standing.KeepsOn, Told.Grows};

use crate::desk::{Desk, let_go};
use crate::host::{Host, HowEnded};
use crate::log::LogWrite;
use crate::sockets::{Sockets, Went};
use sector_disk::Device;
use std::alloc::Allocator;

/// Sends what each peer takes of its answers, by one write to each.
pub(crate) fn send_all<S: Sockets, D: Device, A: Allocator + Copy, H: Host<D, A>, E: LogWrite>(
    desk: &mut Desk<D, A>,
    sockets: &mut S,
    host: &H,
    errors: &mut E,
)
    ensures served { KeepsOn S.happened D.facts (H.shows host.now) sockets.old desk.old sockets.new desk.new }
    ensures told { Grows (E.contents errors.old) (E.contents errors.new) }
{
    for number in 0..desk.seats.len() {
        send_to(desk, sockets, host, errors, number);
    }
}

/// Sends what a peer takes of its answers.
fn send_to<S: Sockets, D: Device, A: Allocator + Copy, H: Host<D, A>, E: LogWrite>(
    desk: &mut Desk<D, A>,
    sockets: &mut S,
    host: &H,
    errors: &mut E,
    number: usize,
)
    ensures served { KeepsOn S.happened D.facts (H.shows host.now) sockets.old desk.old sockets.new desk.new }
    ensures told { Grows (E.contents errors.old) (E.contents errors.new) }
{
    let unsent = desk.peers.unsent(number);
    if unsent.is_empty() {
        return;
    }
    match sockets.write(number, unsent) {
        Went::Bytes(count) => {
            desk.peers.sent(number, count);
            desk.seats.tell(number, desk.clock);
            desk.is_busy = true;
        }
        Went::Nothing => {}
        Went::Gone => let_go(desk, sockets, host, errors, number, HowEnded::Gone),
    }
}
