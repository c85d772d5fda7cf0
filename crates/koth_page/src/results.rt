//! The results of matches, as a page asks for them.

ghost use Rattle.std.specs.Prelude.{◌≡◌};
ghost use Rattle.koth_views.specs.Tally.{between};

use koth_hill::Hill;
use koth_text::Tally;
use koth_views::between;
use std::alloc::Allocator;

/// The results of the matches of warriors, each of which has a number.
pub trait Results {
    ghost use Rattle.std.specs.Prelude.{◌≡◌, ℕ};
    ghost use Rattle.koth_text.specs.declared.tally.Tally.{Tally};

    /// The rounds of the warrior of one number against that of another.
    ghost rounds: { Self → ℕ → ℕ → Tally };

    /// The rounds of the warrior of one number in its match against that of another.
    fn against(&self, one: u64, other: u64) -> Tally
        ensures { result ≡ rounds self.now one other };
}

/// The results that a hill keeps. The number of a warrior is that of its entry.
impl<B: Allocator> Results for Hill<B> {
    ghost rounds = { λ hill one other. between hill one other };

    fn against(&self, one: u64, other: u64) -> Tally {
        between(self, one, other)
    }
}
