//! Round after round.
#![tactic(auto, using(crate::proofs::Told::stays))]

ghost use Rattle.std.specs.Prelude.{◌≡◌, ℕ, List, None, false, length, IfOk};
ghost use Rattle.koth_service.specs.{Connections.{stage_at, AllGoOn}, Held.{HasHistory, IsDurable}, History.IsHistory, Moment.Happening};
ghost use Rattle.koth_service.specs.{Services.{EndsAsAsked, IsBegun, IsReopened, IsSoundAfter, IsWithoutFault, ServesPeers, start_at, start_of}, Standing.{AreAwaited, KeepsOn, KeepsOnBy}, Told.Grows};

use crate::arrivals::take_arrivals;
use crate::browsers::{Pass, serve_browsers};
use crate::connections::Browsers;
use crate::desk::{Desk, are_enough};
use crate::host::Host;
use crate::limits::Limits;
use crate::log::LogWrite;
use crate::parting::part_all;
use crate::reading::read_all;
use crate::sending::send_all;
use crate::serving::serve_one;
use crate::sockets::Sockets;
use hill_store::Store;
use koth_seats::RETRY;
use koth_session::{Judge, Step};
use sector_disk::Device;
use std::alloc::{AllocError, Allocator};

/// Commands that are carried out, and steps of a submission that are made, in one round at most: the steps of one to a
/// full hill, if each match is a step.
const STEPS: u32 = 22;

/// Why a service ended early.
#[derive(Clone, Copy, Debug, PartialEq, Eq)]
pub enum ServiceFault<F> {
    /// There was no memory for the seats of the peers, or for the connections of browsers.
    Memory,
    /// The device failed, and the hill can't be opened again.
    Reopening(F),
    /// 2^64 - 1 rounds were made, and fewer sessions have ended than were asked for.
    Rounds,
}

/// Serves peers and browsers on a hill, as many at once as the limits allow; returns after as many sessions as they
/// name, if they do.
///
/// A peer that connects while all places are taken waits until one is free. The place of a peer that makes no use of it
/// is given to the one that waits: of those without a pending command, the one that has gone longest without a whole
/// line, if that is 60 seconds, or 2 if no byte of it came. A peer is disconnected when its session has ended and its
/// answers went out, 60 seconds after the last byte in or out unless a command of it is pending, as soon as its answers
/// have no room, or at a request of HTTP in place of a command: no command after that is carried out. If the device
/// fails in a submission, the store is closed, and the host opens the hill again. Submissions are fought one after
/// another, in steps: between two of these other commands are carried out, and sources of other peers are refused, or
/// put off if they give a warrior. Besides the peers browsers are served: each is answered one request, with a page of
/// the hill that stands then. `history` speaks of peers and of browsers, and `served` says that one history has all
/// three.
pub fn serve_peers<S: Sockets, D: Device + Drop, A: Allocator + Copy, H: Host<D, A>, E: LogWrite>(
    alloc: A,
    sockets: &mut S,
    limits: Limits,
    store: Store<D, A>,
    host: &H,
    errors: &mut E,
) -> Result<(), ServiceFault<H::Fault>>
    requires { store.reopen ≡ false }
    ensures durability { IsDurable S.happened D.facts (start_of store limits.peers limits.browsers)
        sockets.old sockets.new }
    ensures history { HasHistory S.happened
        (λ history. IsHistory D.facts (H.shows host.now) (start_of store limits.peers limits.browsers) history)
        sockets.old sockets.new }
    ensures end { HasHistory S.happened
        (λ (history : List (Happening D)). EndsAsAsked limits.connections result history) sockets.old sockets.new }
    ensures served { ServesPeers S.happened D.facts (H.shows host.now) (start_of store limits.peers limits.browsers)
        limits.connections result sockets.old sockets.new }
    ensures told { Grows (E.contents errors.old) (E.contents errors.new) }
{
    match Desk::new(alloc, limits, store) {
        Ok(desk) => serve_at(alloc, sockets, desk, host, errors),
        Err(AllocError) => Err(ServiceFault::Memory),
    }
}

/// Serves the peers of a desk at which no one is yet, and browsers.
fn serve_at<S: Sockets, D: Device + Drop, A: Allocator + Copy, H: Host<D, A>, E: LogWrite>(
    alloc: A,
    sockets: &mut S,
    desk: Desk<D, A>,
    host: &H,
    errors: &mut E,
) -> Result<(), ServiceFault<H::Fault>>
    requires { IsBegun desk }
    ensures served { ServesPeers S.happened D.facts (H.shows host.now)
        (start_at desk) desk.limits.connections result sockets.old sockets.new }
    ensures told { Grows (E.contents errors.old) (E.contents errors.new) }
{
    match Browsers::new(alloc, desk.limits.browsers) {
        Ok(mut browsers) => {
            let connections = desk.limits.connections;
            serve_rounds(sockets, desk, &mut browsers, connections, host, errors)
        }
        Err(AllocError) => Err(ServiceFault::Memory),
    }
}

/// Serves the peers of a desk and these browsers. There is no browser yet.
fn serve_rounds<S: Sockets, D: Device + Drop, A: Allocator + Copy, H: Host<D, A>, E: LogWrite>(
    sockets: &mut S,
    desk: Desk<D, A>,
    browsers: &mut Browsers<A>,
    connections: Option<u32>,
    host: &H,
    errors: &mut E,
) -> Result<(), ServiceFault<H::Fault>>
    requires peers { IsBegun desk }
    requires browsers { (p : ℕ) → stage_at browsers.old.connections.items p ≡ None }
    requires slots { length browsers.old.connections.items ≡ desk.limits.browsers }
    ensures served { ServesPeers S.happened D.facts (H.shows host.now)
        (start_at desk) connections result sockets.old sockets.new }
    ensures told { Grows (E.contents errors.old) (E.contents errors.new) }
{
    let mut desk = desk;
    for _round in 0..u64::MAX {
        give_out(&mut desk, browsers, sockets, host, errors);
        if are_enough(desk.sessions.ended, connections) {
            return Ok(());
        }
        let step = take_in(&mut desk, browsers, sockets, host, errors);
        desk = match sound(desk, step, host) {
            Ok(desk) => desk,
            Err(fault) => return Err(ServiceFault::Reopening(fault)),
        };
    }
    Err(ServiceFault::Rounds)
}

/// Sends answers, disconnects peers, and serves browsers by their share. The time is read after that: then it says how
/// long it took.
fn give_out<S: Sockets, D: Device, A: Allocator + Copy, H: Host<D, A>, E: LogWrite>(
    desk: &mut Desk<D, A>,
    browsers: &mut Browsers<A>,
    sockets: &mut S,
    host: &H,
    errors: &mut E,
)
    ensures served { AllGoOn S.happened D.facts
        (H.shows host.now) sockets.old desk.old browsers.old sockets.new desk.new browsers.new }
    ensures slots { length browsers.new.connections.items ≡ length browsers.old.connections.items }
    ensures awaited { AreAwaited desk.new }
    ensures told { Grows (E.contents errors.old) (E.contents errors.new) }
{
    desk.clock = desk.clock.max(sockets.now());
    send_all(desk, sockets, host, errors);
    part_all(desk, sockets, host, errors);
    let may_answer = desk.may_show();
    let pass = Pass {
        now: desk.clock,
        may_answer,
        per_address: desk.limits.peers_per_address,
    };
    let round = serve_browsers(browsers, sockets, desk.judge.store(), host, errors, pass);
    desk.clock = desk.clock.max(sockets.now());
    desk.shares.tell(round.has_answered, pass.now, desk.clock);
    desk.is_busy |= round.moved;
    desk.retries |= round.retries;
}

/// Waits for peers, takes what comes from them, and carries out a command or a step of a submission, and further ones
/// as long as the clock tells the time at which bytes were read: so short ones are made together. What came is read
/// before a place is given to another peer: else one would lose it whose bytes wait.
fn take_in<S: Sockets, D: Device, A: Allocator + Copy, H: Host<D, A>, E: LogWrite>(
    desk: &mut Desk<D, A>,
    browsers: &Browsers<A>,
    sockets: &mut S,
    host: &H,
    errors: &mut E,
) -> Step
    requires { AreAwaited desk.old }
    ensures served { KeepsOnBy S.happened D.facts (H.shows host.now) result sockets.old desk.old sockets.new desk.new }
    ensures told { Grows (E.contents errors.old) (E.contents errors.new) }
{
    wait::<S, D, A, H>(desk, browsers, sockets);
    read_all(desk, sockets, host, errors);
    take_arrivals(desk, sockets, host, errors);
    for _turn in 0..STEPS {
        let step = serve_one(desk, sockets, host, errors);
        if ends_round(step) {
            return step;
        }
        if desk.clock > desk.read_at {
            return step;
        }
    }
    Step::Nobody
}

/// Whether a round ends with this step: no one is served in it, a peer is disconnected, or the device failed.
fn ends_round(step: Step) -> bool
    ensures { result ≡ false → IsWithoutFault step }
{
    match step {
        Step::Served(_) | Step::Stepped(_) | Step::PutOff(_) => false,
        Step::Nobody | Step::Asked(_) | Step::StoreFailed(_) => true,
    }
}

/// Waits until something comes or may go, but not after a round in which it did. It waits no longer than a peer may be
/// silent or a browser is waited for.
fn wait<S: Sockets, D: Device, A: Allocator + Copy, H: Host<D, A>>(
    desk: &mut Desk<D, A>,
    browsers: &Browsers<A>,
    sockets: &mut S,
)
    requires { AreAwaited desk.old }
    ensures { (host : H) → KeepsOn S.happened D.facts (H.shows host) sockets.old desk.old sockets.new desk.new }
{
    let until = desk.seats.until(desk.clock).min(browsers.until(desk.clock));
    let most = if desk.is_busy {
        0
    } else if desk.retries {
        until.min(RETRY)
    } else {
        until
    };
    desk.is_busy = false;
    desk.retries = false;
    desk.clock = desk.clock.max(sockets.wait(most));
    desk.read_at = desk.clock;
}

/// The same desk, on the hill opened again if the device failed in this step.
fn sound<D: Device + Drop, A: Allocator + Copy, H: Host<D, A>>(
    desk: Desk<D, A>,
    step: Step,
    host: &H,
) -> Result<Desk<D, A>, H::Fault>
    ensures { IfOk result (IsSoundAfter D.facts step desk) }
{
    match step {
        Step::Nobody => Ok(desk),
        Step::Served(_) => Ok(desk),
        Step::Stepped(_) => Ok(desk),
        Step::PutOff(_) => Ok(desk),
        Step::Asked(_) => Ok(desk),
        Step::StoreFailed(_) => reopened(desk, host),
    }
}

/// The same desk, on the hill of its device opened again. The store is closed first.
fn reopened<D: Device + Drop, A: Allocator + Copy, H: Host<D, A>>(
    desk: Desk<D, A>,
    host: &H,
) -> Result<Desk<D, A>, H::Fault>
    ensures { IfOk result (IsReopened D.facts desk) }
{
    let mut desk = desk;
    match host.reopen(desk.judge.close()) {
        Ok(store) => {
            desk.judge = Judge::new(store);
            Ok(desk)
        }
        Err(fault) => Err(fault),
    }
}
