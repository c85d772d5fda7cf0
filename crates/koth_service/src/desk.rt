//! The peers, the judge with its store, and the seats together, and how a peer is disconnected.
#![tactic(auto, using(crate::proofs::Told::stays))]

ghost use Rattle.std.specs.Prelude.{◌≡◌, ◌≢◌, ℕ, ◌+◌, ◌-◌, ◌≤◌, nat_le, length, true, false, None, IfOk};
ghost use Rattle.koth_session.specs.Peers.{first_turn, peer_at};
ghost use Rattle.koth_seats.specs.{Seats.seat_at, declared.times.TheConstants.SHARE};
ghost use Rattle.koth_service.specs.{Services.{HaveEnded, IsBegun, start_at, start_of}, Told.Grows};
ghost use Rattle.koth_service.specs.{Connections.MayShow, Rounds.{shares_at, shares_stepped, turns_after}, Standing.{LeavesFor, OthersStay, peers_of, shares_by, shares_of}};

use crate::host::{Event, Host, HowEnded};
use crate::limits::Limits;
use crate::log::LogWrite;
use crate::sockets::Sockets;
use hill_store::Store;
use koth_hill::MOST_TURNS;
use koth_seats::{LONG_STEP, SHARE, SHORT_STEP, Seats};
use koth_session::{Judge, Peers};
use sector_disk::Device;
use std::alloc::{AllocError, Allocator};

/// The sessions of peers on a store, and what the service knows of them.
#[derive(Drop)]
pub(crate) struct Desk<D: Device, A: Allocator + Copy> {
    pub(crate) limits: Limits,
    pub(crate) peers: Peers<A>,
    pub(crate) judge: Judge<D, A>,
    pub(crate) seats: Seats<A>,
    pub(crate) sessions: Sessions,
    /// Whether something came or went in this round: then more may, and no one is waited for.
    pub(crate) is_busy: bool,
    /// Whether an accept failed in this round, of a peer or of a browser.
    pub(crate) retries: bool,
    /// The time that was told last, in milliseconds.
    pub(crate) clock: u64,
    /// When the bytes that had come from the peers were read last, in milliseconds.
    pub(crate) read_at: u64,
    pub(crate) shares: DeskShares,
}

/// The shares of the current submission, and of browsers, in milliseconds.
#[derive(Clone, Copy, Drop)]
pub(crate) struct DeskShares {
    /// When a submission was begun or fought on last.
    stepped_at: u64,
    /// How many turns its next step has at most.
    pub(crate) turns: u32,
    /// When a browser was answered last.
    shown_at: u64,
    /// How long that took.
    took: u64,
}

impl DeskShares {
    /// Whether the current submission has its share now.
    pub(crate) fn has_share(self, now: u64) -> bool
        ensures { result ≡ nat_le SHARE (now - self.stepped_at) }
    {
        now.saturating_sub(self.stepped_at) >= SHARE
    }

    /// A submission was begun or fought on, from `before` until now.
    pub(crate) fn step(&mut self, before: u64, now: u64)
        ensures { shares_of self.new ≡ shares_stepped now (now - before) (shares_of self.old) }
    {
        self.stepped_at = now;
        self.turns = turns_after(now.saturating_sub(before), self.turns);
    }

    /// The time is read again, and was `before` until now. Since then a browser was answered or not.
    pub(crate) fn tell(&mut self, has_answered: bool, before: u64, now: u64)
        ensures { shares_of self.new ≡ shares_at before now (shares_by has_answered (shares_of self.old)) }
    {
        if has_answered {
            self.shown_at = now;
            self.took = now.saturating_sub(before);
        }
    }
}

/// How many turns the next step of a submission has at most, after one that had `turns` and took `took` milliseconds.
fn turns_after(took: u64, turns: u32) -> u32
    ensures { result ≡ turns_after took turns }
{
    if took > LONG_STEP {
        (turns / 2).max(1)
    } else if took < SHORT_STEP {
        turns.saturating_mul(2).min(MOST_TURNS)
    } else {
        turns
    }
}

/// How many sessions there were.
#[derive(Clone, Copy, Drop)]
pub(crate) struct Sessions {
    pub(crate) begun: u64,
    pub(crate) ended: u64,
}

/// Whether this many sessions are as many as are asked for.
pub(crate) fn are_enough(sessions: u64, connections: Option<u32>) -> bool
    ensures { result ≡ true → HaveEnded connections sessions }
{
    match connections {
        Some(connections) => sessions >= u64::from(connections),
        None => false,
    }
}

impl<D: Device, A: Allocator + Copy> Desk<D, A> {
    /// No peers yet, and room for as many as these limits allow. `AllocError` comes if a growth of memory is refused.
    pub(crate) fn new(
        alloc: A,
        limits: Limits,
        store: Store<D, A>,
    ) -> Result<Desk<D, A>, AllocError>
    where
        D: Drop,
        requires { store.reopen ≡ false }
        ensures begun { IfOk result IsBegun }
        ensures start { IfOk result (λ desk. start_at desk ≡ start_of store limits.peers limits.browsers) }
        ensures limits { IfOk result (λ desk. desk.limits ≡ limits) }
    {
        match Peers::new(alloc, limits.peers) {
            Ok(peers) => Desk::seated(alloc, limits, peers, store),
            Err(error) => Err(error),
        }
    }

    /// Whether a browser may be answered now: as much time has gone by as the last answer took, or no command may be
    /// carried out.
    pub(crate) fn may_show(&self) -> bool
        ensures { result ≡ true → MayShow (peers_of self.now) }
    {
        let passed = self.clock.saturating_sub(self.shares.shown_at);
        if self.clock >= self.shares.shown_at && passed >= self.shares.took {
            return true;
        }
        self.peers.is_idle(&self.judge)
    }

    /// These peers, none of whom is there yet, with a seat for each.
    fn seated(
        alloc: A,
        limits: Limits,
        peers: Peers<A>,
        store: Store<D, A>,
    ) -> Result<Desk<D, A>, AllocError>
    where
        D: Drop,
        requires nobody { (p : ℕ) → peer_at peers.slots.items p ≡ None }
        requires most { length peers.slots.items ≡ limits.peers }
        requires next { peers.next ≡ first_turn }
        requires sound { store.reopen ≡ false }
        ensures begun { IfOk result IsBegun }
        ensures start { IfOk result (λ desk. start_at desk
            ≡ start_of store (length peers.slots.items) limits.browsers) }
        ensures limits { IfOk result (λ desk. desk.limits ≡ limits) }
    {
        match Seats::new(alloc, limits.peers) {
            Ok(seats) => Ok(Desk {
                limits,
                peers,
                judge: Judge::new(store),
                seats,
                sessions: Sessions { begun: 0, ended: 0 },
                is_busy: false,
                retries: false,
                clock: 0,
                read_at: 0,
                shares: DeskShares {
                    stepped_at: 0,
                    turns: MOST_TURNS,
                    shown_at: 0,
                    took: 0,
                },
            }),
            Err(error) => Err(error),
        }
    }
}

/// Disconnects a peer, however its session is: its socket is closed, and its number is free.
pub(crate) fn let_go<S: Sockets, D: Device, A: Allocator + Copy, H: Host<D, A>, E: LogWrite>(
    desk: &mut Desk<D, A>,
    sockets: &mut S,
    host: &H,
    errors: &mut E,
    number: usize,
    how: HowEnded,
)
    ensures served { LeavesFor S.happened D.facts
        (H.shows host.now) number how sockets.old desk.old sockets.new desk.new }
    ensures others { OthersStay number desk.old desk.new }
    ensures free { seat_at desk.new.seats.seats.items number ≡ None }
    ensures told { Grows (E.contents errors.old) (E.contents errors.new) }
{
    let address = desk.seats.at(number).map(|seat| seat.address);
    sockets.close(number);
    desk.peers.leave(number, &mut desk.judge);
    desk.seats.leave(number);
    desk.sessions.ended = desk.sessions.ended.saturating_add(1);
    desk.is_busy = true;
    if let Some(address) = address {
        host.tell(address, Event::Ended(how), errors);
    }
}
