//! Points next to entries, and their order.

ghost use Rattle.std.specs.Prelude.{◌≡◌, ◌+◌, ◌<◌, ◌≤◌, ◌++◌, ◌∷◌, [], length};
ghost use Rattle.koth_hill.specs.Scores.{outranks, rank_among, last_among};

use crate::standings::PLACES;
use std::marker::Model;

/// What one has earned.
#[derive(Clone, Copy)]
pub(crate) struct Score {
    pub(crate) entry: u64,
    pub(crate) points: u32,
}

impl Score {
    /// Whether this one has more points, or as many and an earlier entry.
    fn outranks(self, other: Score) -> bool
        ensures { result ≡ outranks self other }
    {
        self.points > other.points || (self.points == other.points && self.entry < other.entry)
    }
}

/// The scores of those on a hill and of a challenger, in places of their own.
#[derive(Drop)]
pub(crate) struct Scores {
    places: [Score; PLACES],
    len: usize,
}

impl Model for Scores {
    ghost use Rattle.std.specs.Prelude.{List, take, ◌≤◌};
    ghost use Rattle.koth_hill.specs.declared.score.Score.{Score as ScoreParts};

    ghost Value = { List ScoreParts };

    ghost view = { λ s. take s.len s.places };

    ghost invariant = { λ s. s.len ≤ 21 };
}

impl Scores {
    pub(crate) fn new() -> Scores
        ensures { result ≡ [] }
    {
        Scores {
            places: [Score {
                entry: 0,
                points: 0,
            }; PLACES],
            len: 0,
        }
    }

    pub(crate) fn push(&mut self, score: Score)
        requires { length self.old < 21 }
        ensures { self.new ≡ self.old ++ score ∷ [] }
    {
        self.places[self.len] = score;
        self.len += 1;
    }

    pub(crate) fn as_slice(&self) -> &[Score]
        ensures value { result.now ≡ self.now }
        ensures few { length result.now ≤ 21 }
    {
        &self.places[..self.len]
    }
}

/// 1 and the number of scores above this one.
pub(crate) fn rank_among(scores: &[Score], score: Score) -> u32
    requires { length scores.now ≤ 21 }
    ensures { result ≡ rank_among scores.now score }
{
    1 + scores.iter().filter(|other| other.outranks(score)).count() as u32
}

/// The entry of the last rank.
pub(crate) fn last_among(scores: &[Score]) -> Option<u64>
    requires { length scores.now ≤ 21 }
    ensures { result ≡ last_among scores.now scores.now }
{
    for score in scores {
        if rank_among(scores, *score) as usize == scores.len() {
            return Some(score.entry);
        }
    }
    None
}
