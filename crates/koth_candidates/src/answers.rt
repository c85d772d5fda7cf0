//! The line that is answered to a source.

ghost use Rattle.std.specs.Prelude.{◌≡◌, ◌*◌, ◌≤◌, length, All, IfOk};
ghost use Rattle.{war_types.specs.Warrior.Fits, koth_field.specs.Field.entrants_of, koth_contests.specs.Contest.{most_rounds, rounds_in}};
ghost use Rattle.koth_candidates.specs.Answers.{answer_of, answered, sum_against};

use koth_contests::{added, contender, contest_tally, sum_line};
use koth_field::Member;
use koth_text::{Tally, refusal_line};
use koth_words::View;
use mars_core::Arena;
use redcode_asm::assemble;
use std::alloc::{AllocError, Allocator};
use war_types::{AsmKind, Settings, Warrior};

/// The line of a candidate: the rounds that it won, lost and tied as the older warrior against all opponents, and its
/// points; or the refusal of its source. The error is lack of memory.
pub fn answer_of<A: Allocator + Copy>(
    alloc: A,
    settings: &Settings,
    arena: &mut Arena<A>,
    opponents: &[Member<A>],
    source: &[u8],
) -> Result<Vec<u8, A>, AllocError>
    requires settings { arena.old.settings ≡ settings.now }
    requires fit { All (λ m. Fits settings.now m.warrior) opponents.now }
    requires few { length opponents.now ≤ 65536 }
    ensures answer { IfOk result (λ line. line.items ≡ answer_of settings.now (entrants_of opponents.now) source.now) }
    ensures settings { arena.new.settings ≡ arena.old.settings }
{
    match assemble(alloc, source, settings) {
        Ok(warrior) => {
            let sum = sum_against(settings, arena, &warrior, opponents);
            sum_line(alloc, View::Plain, contender("-", &warrior), 0, sum)
        }
        Err(fault) if matches!(fault.kind, AsmKind::Memory) => Err(AllocError),
        Err(fault) => Vec::from_slice(alloc, refusal_line(fault).as_slice()),
    }
}

/// The rounds of a candidate against all opponents.
fn sum_against<A: Allocator>(
    settings: &Settings,
    arena: &mut Arena<A>,
    warrior: &Warrior<A>,
    opponents: &[Member<A>],
) -> Tally
    requires settings { arena.old.settings ≡ settings.now }
    requires warrior { Fits settings.now warrior.now }
    requires fit { All (λ m. Fits settings.now m.warrior) opponents.now }
    requires few { length opponents.now ≤ 65536 }
    ensures sum { result ≡ sum_against settings.now warrior.now (entrants_of opponents.now) }
    ensures rounds { rounds_in result ≤ most_rounds * length opponents.now }
    ensures settings { arena.new.settings ≡ arena.old.settings }
{
    let mut sum = Tally {
        won: 0,
        lost: 0,
        tied: 0,
    };
    for place in 0..opponents.len() {
        let other = &opponents[place].warrior;
        let tally = contest_tally(arena, warrior, other, settings, false);
        sum = added(sum, tally);
    }
    sum
}
