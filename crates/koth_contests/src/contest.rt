//! A contest of one warrior against another, in counts and points.

ghost use Rattle.std.specs.Prelude.{◌≡◌, ◌+◌, ◌≤◌};
ghost use Rattle.{war_types.specs.Warrior.Fits, koth_contests.specs.Contest.{added, contest_tally, most_rounds, rounds_in}};

use koth_match::fight;
use koth_text::Tally;
use mars_core::Arena;
use std::alloc::Allocator;
use war_types::{Settings, Warrior};

/// The rounds of a contest from the side of one warrior, `mine`: of its match as the older warrior against another one,
/// and with `both` of the match as the younger one too. No memory is taken.
pub fn contest_tally<A: Allocator, B: Allocator, C: Allocator>(
    arena: &mut Arena<A>,
    mine: &Warrior<B>,
    other: &Warrior<C>,
    settings: &Settings,
    both: bool,
) -> Tally
    requires settings { arena.old.settings ≡ settings.now }
    requires mine { Fits settings.now mine.now }
    requires other { Fits settings.now other.now }
    ensures tally { result ≡ contest_tally settings.now both mine.now other.now }
    ensures rounds { rounds_in result ≤ most_rounds }
    ensures settings { arena.new.settings ≡ arena.old.settings }
{
    let _rounds = settings.rounds();
    let first = Tally::of_older(fight(arena, mine, other, settings));
    if both {
        let second = Tally::of_younger(fight(arena, other, mine, settings));
        added(first, second)
    } else {
        first
    }
}

/// The rounds of both.
pub fn added(a: Tally, b: Tally) -> Tally
    requires won { a.won + b.won ≤ u64.MAX }
    requires lost { a.lost + b.lost ≤ u64.MAX }
    requires tied { a.tied + b.tied ≤ u64.MAX }
    ensures { result ≡ added a b }
{
    Tally {
        won: a.won + b.won,
        lost: a.lost + b.lost,
        tied: a.tied + b.tied,
    }
}
