//! Results of one warrior, side by side.

ghost use Rattle.std.specs.Prelude.{◌≡◌, ◌<◌, ◌≤◌, ◌++◌, ◌∷◌, [], length, remove};
ghost use Rattle.koth_hill.specs.Kept.{without_place};

use koth_match::Bout;
use std::marker::Model;

/// Others that may be on a hill next to one warrior, or before a challenger.
const PLACES: usize = 20;

pub(crate) const NO_ROUNDS: Bout = Bout {
    older_wins: 0,
    younger_wins: 0,
    ties: 0,
};

/// The results of a warrior's matches with those that entered before it, in places of their own.
#[derive(Drop)]
pub(crate) struct Bouts {
    places: [Bout; PLACES],
    len: usize,
}

impl Model for Bouts {
    ghost use Rattle.std.specs.Prelude.{◌≡◌, ◌≤◌, List, length, take};
    ghost use Rattle.koth_match.specs.declared.bout.Bout.{Bout as BoutParts};

    ghost Value = { List BoutParts };

    ghost view = { λ b. take b.len b.places };

    ghost invariant = { λ b. (b.len ≤ 20) × (length b.places ≡ 20) };
}

impl Bouts {
    pub(crate) fn new() -> Bouts
        ensures { result ≡ [] }
    {
        Bouts {
            places: [NO_ROUNDS; PLACES],
            len: 0,
        }
    }

    /// These results.
    pub(crate) fn of(bouts: &[Bout]) -> Bouts
        requires { length bouts.now ≤ 20 }
        ensures { result ≡ bouts.now }
    {
        let mut places = [NO_ROUNDS; PLACES];
        places[..bouts.len()].copy_from_slice(bouts);
        Bouts {
            places,
            len: bouts.len(),
        }
    }

    pub(crate) fn push(&mut self, bout: Bout)
        requires { length self.old < 20 }
        ensures { self.new ≡ self.old ++ bout ∷ [] }
    {
        self.places[self.len] = bout;
        self.len += 1;
    }

    /// Takes out the result at a place. Past the last one there is none, and nothing changes.
    fn remove(&mut self, place: usize)
        ensures { self.new ≡ remove self.old place }
    {
        if place < self.len {
            self.places.copy_within(place + 1..self.len, place);
            self.len -= 1;
        }
    }

    /// Takes out the result at a place, if there is one.
    pub(crate) fn forget(&mut self, place: Option<usize>)
        ensures { self.new ≡ without_place place self.old }
    {
        if let Some(i) = place {
            self.remove(i);
        }
    }

    pub(crate) fn as_slice(&self) -> &[Bout]
        ensures value { result.now ≡ self.now }
        ensures few { length result.now ≤ 20 }
    {
        &self.places[..self.len]
    }
}
