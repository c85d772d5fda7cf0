//! A challenge, which is fought in steps.

ghost use Rattle.std.specs.Prelude.{◌≡◌, ◌⊎◌, ◌-◌, ◌^◌, ◌<◌, ◌≤◌, length, None, IfSome};
ghost use Rattle.{war_types.specs.Warrior.{Fits, WarriorParts}, koth_match.specs.Match.IsPlayed};
ghost use Rattle.koth_hill.specs.{Challenge.{rounds_of_step, EndsMatchWith, GoesOnWith, IsStep, IsUnderWay}, Kept.{IsKept, verdict_kept}};

use crate::bouts::Bouts;
use crate::hill::Hill;
use crate::verdict::Verdict;
use koth_match::Match;
use mars_core::Arena;
use std::alloc::Allocator;
use war_types::{Settings, Warrior};

/// The most turns of a step, where its caller has no bound of its own: those of the longest round that settings allow.
pub const MOST_TURNS: u32 = 2_000_000;

/// A challenge in progress: the results of the challenger's matches with the first members, by their rising entries,
/// and its match with the next one. It takes no memory, and one that is given up leaves nothing.
#[derive(Drop)]
pub struct Challenge {
    bouts: Bouts,
    under_way: Match,
}

impl Challenge {
    /// A challenge of this hill before its first round.
    pub fn new<A: Allocator>(hill: &Hill<A>) -> Challenge
        ensures { (w : WarriorParts) → IsUnderWay hill.now w result }
    {
        Challenge {
            bouts: Bouts::new(),
            under_way: Match::new(hill.settings()),
        }
    }

    /// Plays on in the current match: as many rounds as have `turns` turns at most, or fewer to the end of the match.
    /// The settings and `turns` alone say this number, and it is at least 1. If all matches are fought, it plays none,
    /// and answers the verdict of `Hill::judge`. No verdict depends on `turns`.
    pub fn step<A: Allocator, B: Allocator, C: Allocator>(
        &mut self,
        hill: &Hill<A>,
        arena: &mut Arena<B>,
        challenger: &Warrior<C>,
        turns: u32,
    ) -> Option<Verdict>
        requires arena { arena.old.settings ≡ hill.now.settings }
        requires fits { Fits hill.now.settings challenger.now }
        requires counter { hill.now.counter < 2 ^ 64 - 1 }
        requires under_way { IsUnderWay hill.now challenger.now self.old }
        ensures under_way { IsUnderWay hill.now challenger.now self.new }
        ensures rounds { result ≡ None → IsStep turns hill.now.settings self.old self.new }
        ensures more { result ≡ None → length self.old.bouts < length hill.now.members }
        ensures last { IfSome result (λ judged. judged ≡ verdict_kept hill.now challenger.now) }
        ensures arena { arena.new.settings ≡ arena.old.settings }
        ensures hill { IsKept hill.now }
    {
        match hill.member(self.bouts.as_slice().len()) {
            Some(member) => {
                self.fight_on(arena, member.warrior, challenger, hill.settings(), turns);
                None
            }
            None => Some(hill.verdict_by(self.bouts.as_slice())),
        }
    }

    /// Makes steps to the end.
    pub fn fight_out<A: Allocator, B: Allocator, C: Allocator>(
        &mut self,
        hill: &Hill<A>,
        arena: &mut Arena<B>,
        challenger: &Warrior<C>,
    ) -> Verdict
        requires arena { arena.old.settings ≡ hill.now.settings }
        requires fits { Fits hill.now.settings challenger.now }
        requires counter { hill.now.counter < 2 ^ 64 - 1 }
        requires under_way { IsUnderWay hill.now challenger.now self.old }
        ensures verdict { result ≡ verdict_kept hill.now challenger.now }
        ensures arena { arena.new.settings ≡ arena.old.settings }
        ensures hill { IsKept hill.now }
    {
        loop {
            if let Some(verdict) = self.step(hill, arena, challenger, MOST_TURNS) {
                return verdict;
            }
        }
    }

    /// Plays on in the current match, with this older warrior. If it ends, its result is one more, and the next match
    /// is in progress.
    fn fight_on<A: Allocator, B: Allocator, C: Allocator>(
        &mut self,
        arena: &mut Arena<A>,
        older: &Warrior<B>,
        challenger: &Warrior<C>,
        settings: &Settings,
        turns: u32,
    )
        requires arena { arena.old.settings ≡ settings.now }
        requires older { Fits settings.now older.now }
        requires fits { Fits settings.now challenger.now }
        requires played { IsPlayed settings.now older.now challenger.now self.old.under_way }
        requires few { length self.old.bouts < 20 }
        ensures fought { GoesOnWith turns settings.now older.now challenger.now self.old self.new
            ⊎ EndsMatchWith turns settings.now older.now challenger.now self.old self.new }
        ensures arena { arena.new.settings ≡ arena.old.settings }
    {
        let most = rounds_of_step(turns, settings);
        self.under_way
            .play(arena, older, challenger, settings, most);
        if self.under_way.left(settings) == 0 {
            self.bouts.push(self.under_way.bout());
            self.under_way = Match::new(settings);
        }
    }
}

/// How many rounds a step of `turns` turns plays at most.
fn rounds_of_step(turns: u32, settings: &Settings) -> u32
    ensures value { result ≡ rounds_of_step turns settings.now }
    ensures some { 1 ≤ result }
{
    (turns / (2 * settings.cycles())).max(1)
}
