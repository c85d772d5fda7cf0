//! The counts of a match.

ghost use Rattle.std.specs.Prelude.{◌≡◌, ◌<◌};
ghost use Rattle.koth_match.specs.Match.{counted, no_rounds, rounds_in};

use mars_core::Outcome;

/// How many rounds of a match each side won, and how many were ties. The three add up to the settings' rounds.
#[derive(Clone, Copy, Debug, PartialEq, Eq)]
pub struct Bout {
    /// Rounds that the older warrior won.
    pub older_wins: u16,
    /// Rounds that the younger warrior won.
    pub younger_wins: u16,
    /// Rounds that neither won.
    pub ties: u16,
}

impl Bout {
    /// The counts before the first round.
    pub(crate) fn new() -> Bout
        ensures { result ≡ no_rounds }
    {
        Bout {
            older_wins: 0,
            younger_wins: 0,
            ties: 0,
        }
    }

    /// Counts a round, in which the older warrior was the first side.
    pub(crate) fn count(&mut self, outcome: Outcome)
        requires { rounds_in self.old < 65535 }
        ensures { self.new ≡ counted outcome self.old }
    {
        match outcome {
            Outcome::First => self.older_wins += 1,
            Outcome::Second => self.younger_wins += 1,
            Outcome::Tie => self.ties += 1,
        }
    }
}
