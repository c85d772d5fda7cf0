//! The slots of browsers: one that is free, or that of a browser that made no use of it, is given to one that waits.
#![tactic(auto, using(crate::proofs::Told::stays))]

ghost use Rattle.std.specs.Prelude.{[], ◌≡◌, ℕ, length, None};
ghost use Rattle.hill_store.specs.Seen.{Seen};
ghost use Rattle.koth_service.specs.{Connections.{BrowsersGoOn, ClosesUnless, ComesTo, IsFree, MayGiveSlot, StaysAt, TakesInCalled, stage_in}, Told.Grows};
ghost use Rattle.koth_service.specs.declared.connections.Stage.TheVariants as stages;

use crate::browsers::{BrowsersRound, Pass};
use crate::connections::{Browsers, Connection, Stage};
use crate::host::{Event, Host, WhyUnasked};
use crate::log::LogWrite;
use crate::sockets::{Arrival, Sockets};
use koth_http::Visit;
use sector_disk::Device;
use std::alloc::{AllocError, Allocator};
use std::net::SocketAddr;

/// Takes one connection that waits, unless there is no slot for it: then it waits on.
pub(crate) fn admit<S: Sockets, D: Device, A: Allocator + Copy, H: Host<D, A>, E: LogWrite>(
    browsers: &mut Browsers<A>,
    sockets: &mut S,
    host: &H,
    errors: &mut E,
    pass: Pass,
) -> BrowsersRound
    ensures served { (store : Seen D) → BrowsersGoOn S.happened D.facts
        (H.shows host.now) store pass.now sockets.old browsers.old sockets.new browsers.new }
    ensures slots { length browsers.new.connections.items ≡ length browsers.old.connections.items }
    ensures told { Grows (E.contents errors.old) (E.contents errors.new) }
{
    let still = BrowsersRound {
        moved: false,
        retries: false,
        has_answered: false,
    };
    let Some(number) = browsers.slot_for_one(pass.now) else {
        return still;
    };
    match sockets.accept_browser() {
        Arrival::Peer(address) => {
            take_in_one::<S, D, A, H, E>(browsers, sockets, host, errors, pass, number, address);
            BrowsersRound {
                moved: true,
                ..still
            }
        }
        Arrival::Nobody => still,
        Arrival::Failed => BrowsersRound {
            retries: true,
            ..still
        },
    }
}

/// Gives this slot to the browser that was accepted. It is refused if as many browsers of its host are there as may be.
fn take_in_one<S: Sockets, D: Device, A: Allocator + Copy, H: Host<D, A>, E: LogWrite>(
    browsers: &mut Browsers<A>,
    sockets: &mut S,
    host: &H,
    errors: &mut E,
    pass: Pass,
    number: usize,
    address: SocketAddr,
)
    requires { MayGiveSlot (Some number) pass.now browsers.old.connections.items }
    ensures served { (store : Seen D) → TakesInCalled S.happened D.facts
        (H.shows host.now) store pass.now sockets.old browsers.old sockets.new browsers.new }
    ensures slots { length browsers.new.connections.items ≡ length browsers.old.connections.items }
    ensures told { Grows (E.contents errors.old) (E.contents errors.new) }
{
    let most = pass.per_address;
    if most.is_some_and(|most| browsers.count_of(address.ip()) >= most) {
        sockets.refuse_browser();
        host.tell(address, Event::Unasked(WhyUnasked::Refused), errors);
        return;
    }
    match browsers.take(number) {
        Some(displaced) => {
            sockets.close_browser(number);
            let event = Event::Unasked(WhyUnasked::Displaced);
            host.tell(displaced.address, event, errors);
            seat::<S, D, A, H, E>(browsers, sockets, host, errors, pass.now, number, address);
        }
        None => seat::<S, D, A, H, E>(browsers, sockets, host, errors, pass.now, number, address),
    }
}

/// Gives a free slot to the browser that was accepted. It is closed if there is no memory for its request.
fn seat<S: Sockets, D: Device, A: Allocator + Copy, H: Host<D, A>, E: LogWrite>(
    browsers: &mut Browsers<A>,
    sockets: &mut S,
    host: &H,
    errors: &mut E,
    now: u64,
    number: usize,
    address: SocketAddr,
)
    requires { IsFree browsers.old.connections.items number }
    ensures served { (store : Seen D) → BrowsersGoOn S.happened D.facts
        (H.shows host.now) store now sockets.old browsers.old sockets.new browsers.new }
    ensures slots { length browsers.new.connections.items ≡ length browsers.old.connections.items }
    ensures told { Grows (E.contents errors.old) (E.contents errors.new) }
{
    sockets.seat_browser(number);
    let connection = begun(browsers.alloc, address, now);
    tell_if::<D, A, H, E>(
        connection.is_none(),
        WhyUnasked::Memory,
        address,
        host,
        errors,
    );
    settle(browsers, sockets, number, connection);
}

/// A connection from which nothing came yet, or none if there is no memory for its request.
fn begun<A: Allocator + Copy>(alloc: A, address: SocketAddr, now: u64) -> Option<Connection<A>>
    ensures { StaysAt (stages.Asking [] now) result }
{
    match Visit::new(alloc) {
        Ok(visit) => Some(Connection::begun(address, Stage::Asking(visit, now), now)),
        Err(AllocError) => None,
    }
}

/// Puts a connection under its number. Its socket is closed if there is no connection any more: then the number stays
/// free.
pub(crate) fn settle<S: Sockets, A: Allocator>(
    browsers: &mut Browsers<A>,
    sockets: &mut S,
    number: usize,
    connection: Option<Connection<A>>,
)
    requires { IsFree browsers.old.connections.items number }
    ensures comes { ComesTo number (stage_in connection) browsers.old.connections.items browsers.new.connections.items }
    ensures closes { ClosesUnless S.happened number connection sockets.old sockets.new }
{
    match connection {
        Some(connection) => browsers.put(number, connection),
        None => sockets.close_browser(number),
    }
}

/// Has the host report that a connection is closed before its request was whole, if it is.
pub(crate) fn tell_if<D: Device, A: Allocator + Copy, H: Host<D, A>, E: LogWrite>(
    is_closed: bool,
    why: WhyUnasked,
    address: SocketAddr,
    host: &H,
    errors: &mut E,
)
    ensures { Grows (E.contents errors.old) (E.contents errors.new) }
{
    if is_closed {
        host.tell(address, Event::Unasked(why), errors);
    }
}
