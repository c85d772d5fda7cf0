//! The host of a service: it reports what happens, and opens the hill again.

ghost use Rattle.std.specs.Prelude.{◌≡◌, map, false, IfOk};
ghost use Rattle.{hill_store.specs.Seen.Seen, koth_service.specs.{Answering.{IsFound, Site}, History.OpensAgain, Told.Grows}};

use crate::log::LogWrite;
use hill_store::{Reply, Store};
use koth_hill::Hill;
use koth_http::Page;
use koth_session::PeerEnd;
use sector_disk::Device;
use std::alloc::{AllocError, Allocator};
use std::net::SocketAddr;

/// How a peer's session ended.
#[derive(Clone, Copy, Debug)]
pub enum HowEnded {
    /// By itself, and all its answers went out; or with `Unread`, and the peer was disconnected.
    By(PeerEnd),
    /// No byte came from the peer for 60 seconds, none of its answers went out, and no command of it was due.
    Silent,
    /// The peer sent a line in place of a command that no author sends: a request of HTTP, or one with a control byte.
    Browser,
    /// All places were taken and another peer waited: of the peers without a pending command this one had gone longest
    /// without a whole line.
    Displaced,
    /// The peer is gone.
    Gone,
}

/// Why a browser's connection was closed before its request was whole.
#[derive(Clone, Copy, Debug)]
pub enum WhyUnasked {
    /// As many browsers of its address are there as may be.
    Refused,
    /// All slots were taken and another browser waited: of those from which no byte came for 0.25 seconds, or whose
    /// requests weren't whole after 2, this one had waited longest.
    Displaced,
    /// Its request was not whole after 10 seconds.
    Late,
    /// The browser closed it, or is gone.
    Gone,
    /// Memory for its request ran out.
    Memory,
}

/// What happens with a peer or a browser.
#[derive(Clone, Copy)]
pub enum Event<'t> {
    /// It has connected.
    Connected,
    /// Its session has ended, and its socket is closed.
    Ended(HowEnded),
    /// It was not served, since as many peers of its address are there as may be.
    Refused,
    /// It is a browser, and its connection was closed before its request was whole.
    Unasked(WhyUnasked),
    /// It is a browser, and its request is answered so. None of the answer went out yet.
    Asked {
        /// The first line of the request, without its end.
        line: &'t [u8],
        /// The three digits of the answer's status.
        status: &'t [u8],
        /// How many bytes the answer has, its head among them.
        bytes: usize,
    },
}

/// The host of a service.
pub trait Host<D: Device, A: Allocator> {
    /// Why the hill can't be opened again.
    type Fault;

    // What browsers see of a store, and how many steps the assembly of a source may take.
    ghost shows: { Self → Seen D → Site };

    /// Opens the hill of this device again, after the device failed in a submission and the store was closed.
    fn reopen(&self, device: D) -> Result<Store<D, A>, Self::Fault>
        ensures open_now { IfOk result (λ store. store.reopen ≡ false) }
        ensures again { IfOk result (OpensAgain D.facts device) };

    /// The names of the hill's machine that requests of browsers may be for, besides its addresses and `localhost`.
    fn names(&self) -> &[&str]
        ensures { (store : Seen D) → map (λ name. name.now) result.now ≡ (Self.shows self.now store).names };

    /// How many steps the assembly of a source may take: one that spends them is not submitted.
    fn steps(&self) -> u64
        ensures { (store : Seen D) → result ≡ (Self.shows self.now store).steps };

    /// The text of a page of the store's hill, HTML in ASCII, or none if there is no such page. `AllocError` comes if
    /// memory ran out.
    fn page(&self, store: &Store<D, A>, page: Page) -> Result<Option<Vec<u8, A>>, AllocError>
        ensures { IfOk result (IsFound ((Self.shows self.now store.now).pages page)) };

    /// Reports what a submission of the peer of this address was answered, on the hill as it is then.
    fn tell_answer<E: LogWrite>(
        &self,
        peer: SocketAddr,
        reply: Reply,
        hill: &Hill<A>,
        errors: &mut E,
    )
        ensures { Grows (E.contents errors.old) (E.contents errors.new) };

    /// Reports what else happened with the peer or the browser of this address, as far as it is to be reported.
    fn tell<E: LogWrite>(&self, peer: SocketAddr, event: Event<'_>, errors: &mut E)
        ensures { Grows (E.contents errors.old) (E.contents errors.new) };
}
