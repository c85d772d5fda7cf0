//! One of many peers, by its number.

ghost use Rattle.std.specs.Prelude.{◌≤◌, ◌≡◌, length, option_copied};
ghost use Rattle.koth_session.specs.{Peer.{Closes, Sends, Takes}, Peers.{Moves, may_come_in, peer_at, unsent_in}};

use crate::peer::Peer;
use std::alloc::Allocator;

/// The peer of this number, if there is one.
pub(crate) fn peer_of<A: Allocator>(slots: &[Option<Peer<A>>], number: usize) -> Option<&Peer<A>>
    ensures { option_copied result ≡ peer_at slots.entry.now number }
{
    if number < slots.len() {
        slots[number].as_ref()
    } else {
        None
    }
}

/// Bytes of the peer come, if there is one.
pub(crate) fn take_at<A: Allocator>(slot: &mut Option<Peer<A>>, bytes: &[u8])
    requires { length bytes.now ≤ may_come_in slot.old }
    ensures { Moves (λ old new. Takes old bytes.now new) slot.old slot.new }
{
    if let Some(peer) = slot {
        peer.take(bytes);
    }
}

/// The bytes of the peer are at their end, if there is one.
pub(crate) fn close_at<A: Allocator>(slot: &mut Option<Peer<A>>)
    ensures { Moves Closes slot.old slot.new }
{
    if let Some(peer) = slot {
        peer.close();
    }
}

/// `count` bytes of the answers to the peer were sent, if there is one.
pub(crate) fn pass_at<A: Allocator>(slot: &mut Option<Peer<A>>, count: usize)
    requires { count ≤ length (unsent_in slot.old) }
    ensures { Moves (λ old new. Sends old count new) slot.old slot.new }
{
    if let Some(peer) = slot {
        peer.pass(count);
    }
}
