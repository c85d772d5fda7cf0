//! The rounds of a match from one side.

ghost use Rattle.std.specs.Prelude.{◌≡◌, ◌≤◌};
ghost use Rattle.koth_text.specs.Tally.{of_older, of_younger, points_of};

use koth_match::Bout;

/// Rounds of one warrior.
#[derive(Clone, Copy, PartialEq, Eq)]
pub struct Tally {
    /// Rounds that it won.
    pub won: u64,
    /// Rounds that the other one won.
    pub lost: u64,
    /// Rounds that neither won.
    pub tied: u64,
}

impl Tally {
    /// A result from the side of the older warrior.
    pub fn of_older(bout: Bout) -> Tally
        ensures { result ≡ of_older bout }
    {
        Tally {
            won: u64::from(bout.older_wins),
            lost: u64::from(bout.younger_wins),
            tied: u64::from(bout.ties),
        }
    }

    /// A result from the side of the younger warrior.
    pub fn of_younger(bout: Bout) -> Tally
        ensures { result ≡ of_younger bout }
    {
        Tally {
            won: u64::from(bout.younger_wins),
            lost: u64::from(bout.older_wins),
            tied: u64::from(bout.ties),
        }
    }

    /// What these rounds are worth: 3 points for each that was won, and 1 for each tie.
    pub fn points(self) -> u64
        requires { points_of self ≤ u64.MAX }
        ensures { result ≡ points_of self }
    {
        3 * self.won + self.tied
    }
}
