//! The rounds of each warrior of a field.

ghost use Rattle.std.specs.Prelude.{◌≡◌, ◌+◌, ◌*◌, ◌<◌, ◌≤◌, ◌++◌, ◌∷◌, [], length, All, IfOk, List};
ghost use Rattle.koth_text.specs.{declared.tally.Tally.Tally, Tally.points_of};
ghost use Rattle.koth_standings.specs.{declared.pairs.Pair.Pair, Pairs.IsPair, Parts.{added_up, sums_of}, Standings.{at_place, both, most_matches, most_rounds, rounds_in, turned, with_match, AreOf}};

use crate::pairs::Pair;
use koth_text::Tally;
use std::alloc::{AllocError, Allocator};
use std::marker::Model;

const NO_ROUNDS: Tally = Tally {
    won: 0,
    lost: 0,
    tied: 0,
};

/// The rounds of each warrior of a field in the matches that were added, one by one or by parts.
#[derive(Drop)]
pub struct Standings<A: Allocator> {
    counts: Vec<Tally, A>,
    matches: u64,
}

impl<A: Allocator> Model for Standings<A> {
    ghost use Rattle.koth_standings.specs.Standings.{StandingsParts, standings_parts, AreStandings};

    ghost Value = { StandingsParts };

    ghost view = { λ s. standings_parts s.counts.items s.matches };

    ghost invariant = { λ s. AreStandings (standings_parts s.counts.items s.matches) };
}

impl<A: Allocator> Standings<A> {
    /// The standings of a field of this many places before the first match. The error is lack of memory.
    pub fn new(alloc: A, places: usize) -> Result<Standings<A>, AllocError>
        ensures { IfOk result (λ s. (match_of : Pair → Tally) → AreOf match_of places [] s) }
    {
        Ok(Standings {
            counts: Vec::from_elem(alloc, NO_ROUNDS, places)?,
            matches: 0,
        })
    }

    /// Adds the match of a pair. `tally` has its rounds from the side of the older warrior.
    pub fn add(&mut self, pair: Pair, tally: Tally)
        requires pair { IsPair (length self.old.counts) pair }
        requires few { self.old.matches < most_matches }
        requires rounds { rounds_in tally ≤ most_rounds }
        ensures value { self.new.counts ≡ with_match self.old.counts pair tally }
        ensures matches { self.new.matches ≡ self.old.matches + 1 }
        ensures counts { (match_of : Pair → Tally) (ps : List Pair) → match_of pair ≡ tally
            → AreOf match_of (length self.old.counts) ps self.old
            → AreOf match_of (length self.old.counts) (ps ++ pair ∷ []) self.new }
    {
        put_match(&mut self.counts, pair, tally);
        self.matches += 1;
    }

    /// Adds the rounds of the matches of a part of the field: those of each place, in the order of places.
    pub fn add_part(&mut self, part: &[Tally], matches: u64)
        requires many { length part.now ≡ length self.old.counts }
        requires few { self.old.matches + matches ≤ most_matches }
        requires rounds { All (λ t. rounds_in t ≤ most_rounds * matches) part.now }
        ensures value { self.new.counts ≡ added_up self.old.counts part.now }
        ensures matches { self.new.matches ≡ self.old.matches + matches }
        ensures sums { (parts : List (List Tally)) → self.old.counts ≡ sums_of (length self.old.counts) parts
            → self.new.counts ≡ sums_of (length self.old.counts) (parts ++ part.now ∷ []) }
    {
        put_part(&mut self.counts, part);
        self.matches += matches;
    }

    /// How many matches were added.
    pub fn matches(&self) -> u64
        ensures { result ≡ self.now.matches }
    {
        self.matches
    }

    /// How many places the field has.
    pub fn places(&self) -> usize
        ensures { result ≡ length self.now.counts }
    {
        self.counts.len()
    }

    /// The rounds of the warrior at a place.
    pub fn tally(&self, place: usize) -> Tally
        requires { place < length self.now.counts }
        ensures value { result ≡ at_place self.now.counts place }
        ensures points { points_of result ≤ u64.MAX }
    {
        self.counts[place]
    }
}

/// Adds the match of a pair to the rounds of its two places.
fn put_match<A: Allocator>(counts: &mut Vec<Tally, A>, pair: Pair, tally: Tally)
    requires pair { IsPair (length counts.old.items) pair }
    requires room { All (λ t. rounds_in t ≤ most_rounds * most_matches) counts.old.items }
    requires rounds { rounds_in tally ≤ most_rounds }
    ensures { counts.new.items ≡ with_match counts.old.items pair tally }
{
    let older = sum(counts[pair.older], tally);
    let younger = sum(counts[pair.younger], turned(tally));
    counts[pair.older] = older;
    counts[pair.younger] = younger;
}

/// Adds the rounds of each place in a part.
fn put_part<A: Allocator>(counts: &mut Vec<Tally, A>, part: &[Tally])
    requires many { length part.now ≡ length counts.old.items }
    requires room { All (λ t. rounds_in t ≤ most_rounds * most_matches) counts.old.items }
    requires rounds { All (λ t. rounds_in t ≤ most_rounds * most_matches) part.now }
    ensures { counts.new.items ≡ added_up counts.old.items part.now }
{
    for place in 0..part.len() {
        let more = sum(counts[place], part[place]);
        counts[place] = more;
    }
}

/// The rounds of both.
fn sum(a: Tally, b: Tally) -> Tally
    requires won { a.won + b.won ≤ u64.MAX }
    requires lost { a.lost + b.lost ≤ u64.MAX }
    requires tied { a.tied + b.tied ≤ u64.MAX }
    ensures { result ≡ both a b }
{
    Tally {
        won: a.won + b.won,
        lost: a.lost + b.lost,
        tied: a.tied + b.tied,
    }
}

/// The same rounds from the other side.
fn turned(tally: Tally) -> Tally
    ensures { result ≡ turned tally }
{
    Tally {
        won: tally.lost,
        lost: tally.won,
        tied: tally.tied,
    }
}
