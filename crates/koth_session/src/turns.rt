//! Whose turn it is.

ghost use Rattle.std.specs.Prelude.{◌≡◌, ℕ, ◌<◌, ◌≤◌, true, false, length, None, IsSome, MatchOption};
ghost use Rattle.koth_session.specs.Peers.{asks_in, is_beside, is_sought, is_sought_at, is_sought_in, may_serve_at, peer_at, turn_after};
ghost use Rattle.koth_session.specs.Peers.{IsFirstDue, IsFirstDueWithin, IsFirstFree, IsNext, NoneIsDueWithin};

use crate::peer::Peer;
use std::alloc::Allocator;

/// Where the turns go on.
#[derive(Clone, Copy, Drop)]
pub(crate) struct Turn {
    /// The number after the peer that was served last, but for those that came first.
    pub(crate) command: usize,
    /// The number after the peer whose submission was begun or fought on last.
    pub(crate) submission: usize,
}

impl Turn {
    /// After a peer was served they go on at the number `next`, unless the peer came first.
    pub(crate) fn after(self, is_first: bool, next: usize) -> Turn
        ensures { result ≡ turn_after is_first next self.submission self }
    {
        if is_first {
            return self;
        }
        Turn {
            command: next,
            ..self
        }
    }
}

/// The peer that is served next. While a submission is in progress, it is the peer of that if its share is due. If none
/// is, it is the first one whose source was put off. Else it is the first one to which the turn may come.
pub(crate) fn next_served<A: Allocator>(
    slots: &[Option<Peer<A>>],
    turn: Turn,
    busy: Option<usize>,
    has_share: bool,
) -> Option<usize>
    ensures { MatchOption result ((p : ℕ) → may_serve_at busy slots.now p ≡ false)
        (IsNext has_share busy slots.now turn) }
{
    match next_due(slots, turn.submission, busy, Some(has_share)) {
        Some(number) => Some(number),
        None => next_due(slots, turn.command, busy, None),
    }
}

/// The first peer that is sought, if the turn begins at this number and goes round. The submission of this peer is in
/// progress, if there is one. All to which the turn may come are sought, or of these the ones that come first, with a
/// share that is due or without.
pub(crate) fn next_due<A: Allocator>(
    slots: &[Option<Peer<A>>],
    start: usize,
    busy: Option<usize>,
    first: Option<bool>,
) -> Option<usize>
    ensures { MatchOption result ((p : ℕ) → is_sought_at first busy slots.now p ≡ false)
        (IsFirstDue first busy slots.now start) }
{
    let count = slots.len();
    match first_due(slots, start, count, busy, first) {
        Some(number) => Some(number),
        None => first_due(slots, 0, start.min(count), busy, first),
    }
}

/// The first peer that is sought with a number of at least `from` and below `to`.
fn first_due<A: Allocator>(
    slots: &[Option<Peer<A>>],
    from: usize,
    to: usize,
    busy: Option<usize>,
    first: Option<bool>,
) -> Option<usize>
    requires { to ≤ length slots.now }
    ensures { MatchOption result (NoneIsDueWithin first busy slots.now from to)
        (IsFirstDueWithin first busy slots.now from to) }
{
    for number in from..to {
        if may_serve(busy, first, number, &slots[number]) {
            return Some(number);
        }
    }
    None
}

/// Whether the peer of this number is sought.
pub(crate) fn may_serve<A: Allocator>(
    busy: Option<usize>,
    first: Option<bool>,
    number: usize,
    slot: &Option<Peer<A>>,
) -> bool
    ensures { result ≡ is_sought_in first busy number slot.now }
{
    match slot {
        Some(peer) => peer.is_due()
            && is_beside(busy, number, peer.waits)
            && is_sought(first, busy, number, peer.waits),
        None => false,
    }
}

/// Whether a peer with this number is sought, by whether its source waits.
fn is_sought(first: Option<bool>, busy: Option<usize>, number: usize, waits: bool) -> bool
    ensures { result ≡ is_sought first busy number waits }
{
    match (first, busy) {
        (None, _) => true,
        (Some(has_share), Some(other)) => has_share && number == other,
        (Some(_), None) => waits,
    }
}

/// Whether the turn may come to a peer with this number next to the current submission, by whether its source waits.
fn is_beside(busy: Option<usize>, number: usize, waits: bool) -> bool
    ensures { result ≡ is_beside busy number waits }
{
    match busy {
        Some(other) => number == other || !waits,
        None => true,
    }
}

/// Whether the pending command of a peer is a browser's request.
pub(crate) fn asks<A: Allocator>(slot: &Option<Peer<A>>) -> bool
    ensures { result ≡ asks_in slot.now }
{
    match slot {
        Some(peer) => peer.asks(),
        None => false,
    }
}

/// The least number that is free.
pub(crate) fn first_free<A: Allocator>(slots: &[Option<Peer<A>>]) -> Option<usize>
    ensures { MatchOption result ((p : ℕ) → p < length slots.now → IsSome (peer_at slots.now p))
        (IsFirstFree slots.now) }
{
    for number in 0..slots.len() {
        if slots[number].is_none() {
            return Some(number);
        }
    }
    None
}
