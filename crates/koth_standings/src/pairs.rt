//! The pairs of a field, one after the other.

ghost use Rattle.std.specs.Prelude.{◌≡◌, ◌*◌, ◌≤◌, ◌∷◌, ℕ, ⊤, [], MatchOption, length};
ghost use Rattle.koth_standings.specs.Pairs.{pairs, IsPair};

use std::marker::Model;

/// Two places of a field. The warrior at the earlier one is the older one of their match.
#[derive(Clone, Copy)]
pub struct Pair {
    pub older: usize,
    pub younger: usize,
}

/// The pairs of a field that are left.
#[derive(Clone, Copy, Drop)]
pub struct Pairs {
    places: usize,
    older: usize,
    younger: usize,
}

impl Pairs {
    ghost use Rattle.koth_standings.specs.Pairs.{pairs_left, IsNext};

    /// All pairs of a field of this many places.
    pub fn of(places: usize) -> Pairs
        ensures left { pairs_left result ≡ pairs places }
        ensures next { IsNext result }
        ensures places { result.places ≡ places }
        ensures few { (m : ℕ) → places ≤ m → length (pairs places) ≤ places * m }
    {
        Pairs {
            places,
            older: 0,
            younger: 1,
        }
    }

    /// Takes the next pair, if one is left.
    pub fn next(&mut self) -> Option<Pair>
        requires { IsNext self.old }
        ensures left { MatchOption result (pairs_left self.old ≡ [])
            (λ p. pairs_left self.old ≡ p ∷ pairs_left self.new) }
        ensures pair { MatchOption result ⊤ (IsPair self.old.places) }
        ensures next { IsNext self.new }
        ensures places { self.new.places ≡ self.old.places }
    {
        if self.younger >= self.places {
            return None;
        }
        let pair = Pair {
            older: self.older,
            younger: self.younger,
        };
        self.younger += 1;
        if self.younger >= self.places {
            self.older += 1;
            self.younger = self.older + 1;
        }
        Some(pair)
    }
}
