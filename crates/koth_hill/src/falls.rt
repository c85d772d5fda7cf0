//! What becomes of the members when a challenger stays.

ghost use Rattle.std.specs.Prelude.{◌≡◌, ◌+◌, ◌<◌, ◌^◌, All, IfSome, length, map, position, vec_capacity};
ghost use Rattle.koth_hill.specs.{Step.is_entry, Kept.{stayed, without_place}};

use crate::member::Entrant;
use crate::points::is_entry;
use std::alloc::Allocator;

/// The index of the member that falls, if it is one of these.
pub(crate) fn place_of<A: Allocator>(members: &[Entrant<A>], falls: Option<u64>) -> Option<usize>
    ensures { result ≡ position (λ e. is_entry e.member.entry falls) members.now }
{
    members
        .iter()
        .position(|member| is_entry(member.entry(), falls))
}

/// Takes out the member at this place.
pub(crate) fn let_fall<A: Allocator>(members: &mut Vec<Entrant<A>, A>, place: Option<usize>)
    requires { IfSome place (λ i. i < length members.old.items) }
    ensures items { members.new.items ≡ without_place place members.old.items }
    ensures capacity { vec_capacity members.new ≡ vec_capacity members.old }
{
    if let Some(i) = place {
        members.remove(i);
    }
}

/// The others stay: each is one older, and has no result with the one that was at this place.
pub(crate) fn stay_on<A: Allocator>(members: &mut [Entrant<A>], place: Option<usize>)
    requires { All (λ e. e.member.age + 1 < 2 ^ 64) members.old }
    ensures { members.new ≡ map (stayed place) members.old }
{
    for member in members.iter_mut() {
        member.stay(place);
    }
}
