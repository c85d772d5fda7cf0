//! The rounds of a match.

ghost use Rattle.std.specs.Prelude.{◌≡◌, ◌+◌, ◌-◌, ◌≤◌, min};
ghost use Rattle.{war_types.specs.{Settings.AreSettings, Warrior.{Fits, WarriorParts}}, mars_core.specs.Round.{CanBegin, opening, outcome, after_turns}};
ghost use Rattle.koth_match.specs.Match.{first_in, match_of, outcome_at, outcomes_before, round_outcomes, rounds_in, AreCounts, IsPlayed};

use crate::bout::Bout;
use crate::seeds::{next_seed, position};
use mars_core::{Arena, Outcome, Side};
use std::alloc::Allocator;
use war_types::{Settings, Warrior};

/// A match that is played in parts: how many of its rounds were played, how those ended, and the seed of the next one.
#[derive(Clone, Copy)]
pub struct Match {
    round: u16,
    seed: u32,
    bout: Bout,
}

impl Match {
    /// A match before its first round.
    pub fn new(settings: &Settings) -> Match
        ensures rounds { result.round ≡ 0 }
        ensures played { (older younger : WarriorParts) → IsPlayed settings.now older younger result }
    {
        Match {
            round: 0,
            seed: settings.seed(),
            bout: Bout::new(),
        }
    }

    /// Plays the next `most` rounds, or fewer if the match has no more, and counts how they end. The older warrior is
    /// loaded at address 0 in each of them. No memory is taken. (Never inlined: `bench/matches` counts its calls in the
    /// program.)
    #[inline(never)]
    pub fn play<A: Allocator, B: Allocator, C: Allocator>(
        &mut self,
        arena: &mut Arena<A>,
        older: &Warrior<B>,
        younger: &Warrior<C>,
        settings: &Settings,
        most: u32,
    )
        requires settings { arena.old.settings ≡ settings.now }
        requires older { Fits settings.now older.now }
        requires younger { Fits settings.now younger.now }
        requires played { IsPlayed settings.now older.now younger.now self.old }
        ensures played { IsPlayed settings.now older.now younger.now self.new }
        ensures counts { AreCounts (outcomes_before settings.now older.now younger.now self.new.round) self.new.bout }
        ensures rounds { self.new.round ≡ min (self.old.round + most) settings.now.rounds }
        ensures settings { arena.new.settings ≡ arena.old.settings }
    {
        let end = self.round + self.left(settings).min(most) as u16;
        for round in self.round..end {
            let position = position(self.seed, settings);
            self.bout.count(play_round(arena, older, younger, position, first_in(round)));
            self.seed = next_seed(self.seed);
        }
        self.round = end;
    }

    /// How many rounds are left to play.
    pub fn left(&self, settings: &Settings) -> u32
        requires { self.now.round ≤ settings.now.rounds }
        ensures value { result ≡ settings.now.rounds - self.now.round }
        ensures settings { AreSettings settings.now }
    {
        u32::from(settings.rounds() - self.round)
    }

    /// The counts of the rounds that were played.
    pub fn bout(&self) -> Bout
        ensures { result ≡ self.now.bout }
    {
        self.bout
    }
}

/// Plays all rounds of a match and counts how they end. No memory is taken.
pub fn fight<A: Allocator, B: Allocator, C: Allocator>(
    arena: &mut Arena<A>,
    older: &Warrior<B>,
    younger: &Warrior<C>,
    settings: &Settings,
) -> Bout
    requires settings { arena.old.settings ≡ settings.now }
    requires older { Fits settings.now older.now }
    requires younger { Fits settings.now younger.now }
    ensures bout { result ≡ match_of settings.now older.now younger.now }
    ensures counts { AreCounts (round_outcomes settings.now older.now younger.now) result }
    ensures rounds { rounds_in result ≡ settings.now.rounds }
    ensures settings { arena.new.settings ≡ arena.old.settings }
{
    let mut fought = Match::new(settings);
    let all = u32::from(settings.rounds());
    fought.play(arena, older, younger, settings, all);
    fought.bout()
}

/// Plays a round from its beginning to its end.
fn play_round<A: Allocator, B: Allocator, C: Allocator>(
    arena: &mut Arena<A>,
    older: &Warrior<B>,
    younger: &Warrior<C>,
    position: u16,
    first: Side,
) -> Outcome
    requires { CanBegin arena.old.settings older.now younger.now position }
    ensures outcome { result ≡ outcome_at arena.old.settings older.now younger.now position first }
    ensures settings { arena.new.settings ≡ arena.old.settings }
{
    arena.begin(older, younger, position, first);
    arena.play()
}

/// The side that moves first in a round, counted from 0: the older warrior in round 0 and in every second one after it.
pub fn first_in(round: u16) -> Side
    ensures { result ≡ first_in round }
{
    if round % 2 == 0 {
        Side::First
    } else {
        Side::Second
    }
}
