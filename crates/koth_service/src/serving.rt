//! The command whose turn it is.
#![tactic(auto, using(crate::proofs::Told::stays))]

ghost use Rattle.koth_service.specs.{Standing.KeepsOnBy, Told.Grows};

use crate::desk::{Desk, let_go};
use crate::host::{Host, HowEnded};
use crate::log::LogWrite;
use crate::sockets::Sockets;
use koth_session::Step;
use sector_disk::Device;
use std::alloc::Allocator;

/// Carries out one command at most, makes a step of a submission, or puts a source off, and has the host report what a
/// submission was answered. If the last step of the current submission is `SHARE` milliseconds ago, the next one is
/// made, no matter who has the turn. A step has as many turns at most as the ones before it left time for. A peer that
/// sent a request in place of a command is disconnected.
pub(crate) fn serve_one<S: Sockets, D: Device, A: Allocator + Copy, H: Host<D, A>, E: LogWrite>(
    desk: &mut Desk<D, A>,
    sockets: &mut S,
    host: &H,
    errors: &mut E,
) -> Step
    ensures served { KeepsOnBy S.happened D.facts (H.shows host.now) result sockets.old desk.old sockets.new desk.new }
    ensures told { Grows (E.contents errors.old) (E.contents errors.new) }
{
    let share = desk.shares.has_share(desk.clock);
    let before = desk.clock;
    let turns = desk.shares.turns;
    let step = desk
        .peers
        .serve_next(share, host.steps(), turns, &mut desk.judge);
    desk.clock = desk.clock.max(sockets.now());
    desk.is_busy |= !matches!(step, Step::Nobody);
    match step {
        Step::Nobody => {}
        Step::Stepped(_) => desk.shares.step(before, desk.clock),
        Step::PutOff(_) => {}
        Step::Asked(number) => let_go(desk, sockets, host, errors, number, HowEnded::Browser),
        Step::Served(number) => {
            desk.seats.serve(number, desk.clock);
            tell_reply(desk, number, host, errors);
        }
        Step::StoreFailed(number) => desk.seats.serve(number, desk.clock),
    }
    step
}

/// Has the host report what a submission of this peer was answered, if its command that was carried out last was one.
fn tell_reply<D: Device, A: Allocator + Copy, H: Host<D, A>, E: LogWrite>(
    desk: &Desk<D, A>,
    number: usize,
    host: &H,
    errors: &mut E,
)
    ensures { Grows (E.contents errors.old) (E.contents errors.new) }
{
    if let (Some(reply), Some(seat)) = (desk.peers.reply(number), desk.seats.at(number)) {
        let hill = desk.judge.store().hill();
        host.tell_answer(seat.address, reply, hill, errors);
    }
}
