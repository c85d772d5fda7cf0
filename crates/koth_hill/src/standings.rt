//! The warriors whose results make the scores: all on a hill, and a challenger after them.

ghost use Rattle.std.specs.Prelude.{◌≡◌, ◌<◌, ◌≤◌, ◌++◌, ◌∷◌, [], length, map};
ghost use Rattle.koth_hill.specs.Standings.{standing_of, standing_parts};

use crate::member::Entrant;
use koth_match::Bout;
use std::alloc::Allocator;
use std::marker::Model;

/// Those that a hill may have at once: its capacity at most, and a challenger.
pub(crate) const PLACES: usize = 21;

/// An entry and its results with those before it.
#[derive(Clone, Copy)]
pub(crate) struct Standing<'h> {
    pub(crate) entry: u64,
    pub(crate) bouts: &'h [Bout],
}

/// Standings by rising entry, in places of their own.
#[derive(Drop)]
pub(crate) struct Standings<'h> {
    places: [Standing<'h>; PLACES],
    len: usize,
}

impl<'h> Model for Standings<'h> {
    ghost use Rattle.std.specs.Prelude.{◌≡◌, ◌≤◌, List, length, take};
    ghost use Rattle.koth_hill.specs.declared.standings.Standing.{Standing as StandingParts};

    ghost Value = { List StandingParts };

    ghost view = { λ s. take s.len s.places };

    ghost invariant = { λ s. (s.len ≤ 21) × (length s.places ≡ 21) };
}

impl<'h> Standings<'h> {
    /// Those of a hill.
    pub(crate) fn of<A: Allocator>(members: &'h [Entrant<A>]) -> Standings<'h>
        requires { length members.now ≤ 20 }
        ensures parts { map standing_parts result ≡ map standing_of members.now }
        ensures each { length result ≡ length members.now }
    {
        let mut standings = Standings::new();
        for member in members {
            standings.push(member.standing());
        }
        standings
    }

    /// The warriors of a hill, and a challenger after them.
    pub(crate) fn with<A: Allocator>(
        members: &'h [Entrant<A>],
        challenger: Standing<'h>,
    ) -> Standings<'h>
        requires { length members.now ≤ 20 }
        ensures { map standing_parts result ≡ map standing_of members.now ++ standing_parts challenger.entry ∷ [] }
    {
        let mut standings = Standings::of(members);
        standings.push(challenger);
        standings
    }

    fn new() -> Standings<'h>
        ensures { result ≡ [] }
    {
        Standings {
            places: [Standing {
                entry: 0,
                bouts: &[],
            }; PLACES],
            len: 0,
        }
    }

    fn push(&mut self, standing: Standing<'h>)
        requires { length self.old < 21 }
        ensures { self.new ≡ self.old ++ standing.entry ∷ [] }
    {
        self.places[self.len] = standing;
        self.len += 1;
    }

    pub(crate) fn as_slice(&self) -> &[Standing<'h>]
        ensures value { result.now ≡ self.now }
        ensures few { length result.now ≤ 21 }
    {
        &self.places[..self.len]
    }
}
