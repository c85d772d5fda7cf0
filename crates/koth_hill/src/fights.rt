//! The matches of one warrior.

ghost use Rattle.std.specs.Prelude.{◌≡◌, ◌<◌, ◌≤◌, All, length, None, IfSome};
ghost use Rattle.{war_types.specs.Warrior.Fits, koth_match.specs.Match.rounds_in, koth_hill.specs.{Hill.AllFit, Step.matches_with, Kept.{IsFirstDifference, members_of}}};

use crate::bouts::Bouts;
use crate::member::Entrant;
use koth_match::{Bout, fight};
use mars_core::Arena;
use std::alloc::Allocator;
use war_types::{Settings, Warrior};

/// The matches of a warrior with each of these, who are older. No others are fought.
pub(crate) fn matches_with<A: Allocator, B: Allocator, C: Allocator>(
    arena: &mut Arena<A>,
    settings: &Settings,
    older: &[Entrant<B>],
    warrior: &Warrior<C>,
) -> Bouts
    requires settings { arena.old.settings ≡ settings.now }
    requires older { AllFit settings.now (members_of older.now) }
    requires few { length older.now ≤ 20 }
    requires fits { Fits settings.now warrior.now }
    ensures value { result ≡ matches_with settings.now (members_of older.now) warrior.now }
    ensures rounds { All (λ b. rounds_in b ≡ settings.now.rounds) result }
    ensures settings { arena.new.settings ≡ arena.old.settings }
{
    let mut bouts = Bouts::new();
    for member in older {
        bouts.push(fight(arena, member.warrior(), warrior, settings));
    }
    bouts
}

/// The first place at which these results differ.
pub(crate) fn first_difference(some: &[Bout], others: &[Bout]) -> Option<usize>
    requires { length some.now ≡ length others.now }
    ensures none { result ≡ None → some.now ≡ others.now }
    ensures first { IfSome result (λ i. IsFirstDifference some.now others.now i) }
    ensures within { IfSome result (λ i. i < length some.now) }
    ensures beside { IfSome result (λ i. i < length others.now) }
{
    for i in 0..some.len() {
        if some[i] != others[i] {
            return Some(i);
        }
    }
    None
}
