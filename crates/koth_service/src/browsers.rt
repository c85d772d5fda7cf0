//! What each browser asks, and the answer to it. Whatever the sockets say of a browser, it goes on as `served` says of
//! the whole service. Each function says so of the connections that it moves, however the peers and the other browsers
//! are.
#![tactic(auto, using(crate::proofs::Told::stays))]

ghost use Rattle.std.specs.Prelude.{◌≡◌, ◌&&◌, not, length};
ghost use Rattle.koth_service.specs.Connections.{BrowsersShown, BrowsersShownAt, StaysAt, stage_after};
ghost use Rattle.koth_service.specs.Told.{Grows};

use crate::connections::{Browsers, Connection, Stage};
use crate::host::{Event, Host};
use crate::log::LogWrite;
use crate::moves::{Moved, after_stage};
use crate::slots::{admit, settle, tell_if};
use crate::sockets::Sockets;
use hill_store::Store;
use koth_http::status_of;
use sector_disk::Device;
use std::alloc::Allocator;
use std::net::SocketAddr;

/// What a round of browsers leaves to the next one.
#[derive(Clone, Copy)]
pub(crate) struct BrowsersRound {
    /// Whether anything came or went: then more may.
    pub(crate) moved: bool,
    /// Whether an accept failed: then it is tried again.
    pub(crate) retries: bool,
    /// Whether a request was answered.
    pub(crate) has_answered: bool,
}

/// When connections are moved on, in milliseconds, whether a request may be answered, and how many browsers of one
/// address there may be.
#[derive(Clone, Copy)]
pub(crate) struct Pass {
    pub(crate) now: u64,
    pub(crate) may_answer: bool,
    pub(crate) per_address: Option<u32>,
}

impl Pass {
    /// The same, but none may be answered if one was.
    fn after(self, has_answered: bool) -> Pass
        ensures { result.may_answer ≡ (self.may_answer && not has_answered) }
    {
        Pass {
            may_answer: self.may_answer && !has_answered,
            ..self
        }
    }
}

/// Takes a connection of a browser that waits, and moves each connection on. One request is answered at most, if one
/// may be: the others wait for their turn, since a page takes time in which no peer is served. The host reports that
/// request.
pub(crate) fn serve_browsers<
    S: Sockets,
    D: Device,
    A: Allocator + Copy,
    H: Host<D, A>,
    E: LogWrite,
>(
    browsers: &mut Browsers<A>,
    sockets: &mut S,
    store: &Store<D, A>,
    host: &H,
    errors: &mut E,
    pass: Pass,
) -> BrowsersRound
    ensures served { BrowsersShownAt S.happened D.facts
        (H.shows host.now) store.now pass.now pass.may_answer sockets.old browsers.old result.has_answered sockets.new
        browsers.new }
    ensures slots { length browsers.new.connections.items ≡ length browsers.old.connections.items }
    ensures told { Grows (E.contents errors.old) (E.contents errors.new) }
{
    let admitted = admit(browsers, sockets, host, errors, pass);
    let mut round = BrowsersRound {
        has_answered: false,
        ..admitted
    };
    for place in 0..browsers.len() {
        let number = browsers.number(place);
        let next = pass.after(round.has_answered);
        let moved = move_on(browsers, sockets, store, host, errors, number, next);
        round.moved |= moved.moved;
        round.has_answered |= moved.has_answered;
    }
    if round.has_answered {
        browsers.pass_turn();
    }
    round
}

/// Moves the connection of this number on, if there is one, and returns whether anything came or went, and whether its
/// request was answered.
fn move_on<S: Sockets, D: Device, A: Allocator + Copy, H: Host<D, A>, E: LogWrite>(
    browsers: &mut Browsers<A>,
    sockets: &mut S,
    store: &Store<D, A>,
    host: &H,
    errors: &mut E,
    number: usize,
    pass: Pass,
) -> BrowsersRound
    ensures served { BrowsersShown S.happened D.facts
        (H.shows host.now) store.now pass.may_answer sockets.old browsers.old result.has_answered sockets.new
        browsers.new }
    ensures slots { length browsers.new.connections.items ≡ length browsers.old.connections.items }
    ensures told { Grows (E.contents errors.old) (E.contents errors.new) }
{
    let Some(connection) = browsers.take(number) else {
        return BrowsersRound {
            moved: false,
            retries: false,
            has_answered: false,
        };
    };
    let Connection {
        address,
        stage,
        until,
    } = connection;
    let is_asking = matches!(stage, Stage::Asking(_, _));
    let moved = after_stage(
        browsers.alloc,
        sockets,
        store,
        host,
        number,
        stage,
        pass.may_answer,
    );
    tell_request::<D, A, H, E>(&moved, address, host, errors);
    let is_still = matches!(moved, Moved::Still(_));
    let has_answered = moved.is_answered();
    let why = moved.why_unasked();
    let kept = kept_after(moved, address, until, pass.now);
    let is_kept = kept.is_some();
    tell_if::<D, A, H, E>(is_asking && !is_kept, why, address, host, errors);
    settle(browsers, sockets, number, kept);
    BrowsersRound {
        moved: !(is_still && is_kept),
        retries: false,
        has_answered,
    }
}

/// Has the host report the request that was answered in this move, if one was.
fn tell_request<D: Device, A: Allocator + Copy, H: Host<D, A>, E: LogWrite>(
    moved: &Moved<A>,
    address: SocketAddr,
    host: &H,
    errors: &mut E,
)
    ensures { Grows (E.contents errors.old) (E.contents errors.new) }
{
    if let Moved::Answered(visit, unsent) = moved {
        let answer = unsent.as_slice();
        let event = Event::Asked {
            line: visit.line(),
            status: status_of(answer),
            bytes: answer.len(),
        };
        host.tell(address, event, errors);
    }
}

/// The connection at the stage that it has now, unless it has ended, or has been at that stage for too long.
fn kept_after<A: Allocator>(
    moved: Moved<A>,
    address: SocketAddr,
    until: u64,
    now: u64,
) -> Option<Connection<A>>
    ensures { StaysAt (stage_after moved) result }
{
    match moved {
        Moved::Answered(_visit, unsent) => {
            Some(Connection::begun(address, Stage::Answering(unsent), now))
        }
        Moved::Next(stage) => Some(Connection::begun(address, stage, now)),
        Moved::On(stage) => Connection {
            address,
            stage,
            until,
        }
        .in_time(now),
        Moved::Still(stage) => Connection {
            address,
            stage,
            until,
        }
        .in_time(now),
        Moved::Over => None,
    }
}
