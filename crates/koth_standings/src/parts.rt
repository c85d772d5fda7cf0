//! The pairs of a part of a field, one after the other.

ghost use Rattle.std.specs.Prelude.{◌≡◌, ◌*◌, ◌≤◌, ◌∷◌, ℕ, ⊤, [], MatchOption, length};
ghost use Rattle.{koth_text.specs.declared.tally.Tally.Tally, koth_standings.specs.declared.pairs.Pair.Pair};

use crate::pairs::{Pair, Pairs};

/// The pairs of a part that are left: of the pairs of its field in their order, one in `count`.
#[derive(Clone, Copy, Drop)]
pub struct PairsOfPart {
    left: Pairs,
    /// How many pairs come before the next one of the part.
    skipped: u32,
    count: u32,
}

impl PairsOfPart {
    ghost use Rattle.std.specs.Prelude.{map};
    ghost use Rattle.koth_standings.specs.{Pairs.{pairs, IsNext, IsPair}, Parts.{numbers, part_left, part_of, sums_of, SharesOut}, Standings.counts_of};

    /// The pairs of part `number`, from 1, of `count` parts of a field of this many places. The parts have each pair of
    /// the field, one of them has it, and so the rounds of the field are the sums over the parts.
    pub fn of(places: usize, number: u32, count: u32) -> PairsOfPart
        ensures left { part_left result ≡ part_of number count (pairs places) }
        ensures next { IsNext result.left }
        ensures places { result.left.places ≡ places }
        ensures few { (m : ℕ) → places ≤ m → length (part_of number count (pairs places)) ≤ places * m }
        ensures shared { 1 ≤ count → SharesOut count (pairs places) }
        ensures counts { (match_of : Pair → Tally) → 1 ≤ count → sums_of places
            (map (λ k. counts_of match_of places (part_of k count (pairs places))) (numbers count))
            ≡ counts_of match_of places (pairs places) }
        ensures whole { part_of 1 1 (pairs places) ≡ pairs places }
    {
        PairsOfPart {
            left: Pairs::of(places),
            skipped: number.saturating_sub(1),
            count,
        }
    }

    /// Takes the next pair, if one is left.
    pub fn next(&mut self) -> Option<Pair>
        requires { IsNext self.old.left }
        ensures left { MatchOption result (part_left self.old ≡ [])
            (λ p. part_left self.old ≡ p ∷ part_left self.new) }
        ensures pair { MatchOption result ⊤ (IsPair self.old.left.places) }
        ensures next { IsNext self.new.left }
        ensures places { self.new.left.places ≡ self.old.left.places }
    {
        while let Some(pair) = self.left.next() {
            if self.skipped == 0 {
                self.skipped = self.count.saturating_sub(1);
                return Some(pair);
            }
            self.skipped -= 1;
        }
        None
    }
}
