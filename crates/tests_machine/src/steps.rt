//! A challenge, fought in steps.

ghost use Rattle.std.specs.Prelude.{◌≡◌, ◌-◌, ◌^◌, ◌<◌};
ghost use Rattle.war_types.specs.Warrior.{Fits};

use crate::expecting::expect_same;
use crate::making::{hill_of_two, settings_of, warrior};
use koth_hill::{Challenge, Hill, MOST_TURNS, Verdict};
use koth_match::Bout;
use mars_core::Arena;
use std::alloc::Global;
use std::process::Abort;
use tests_fixtures::{DIE, Refusing, small};
use war_types::Warrior;

/// How many steps it takes to judge a warrior, and its verdict.
fn stepped(
    rt: &impl Abort,
    hill: &Hill<&Refusing<Global>>,
    arena: &mut Arena<&Refusing<Global>>,
    challenger: &Warrior<&Refusing<Global>>,
) -> (u32, Verdict)
    requires settings { arena.old.settings ≡ hill.now.settings }
    requires fits { Fits hill.now.settings challenger.now }
    requires counter { hill.now.counter < 2 ^ 64 - 1 }
    ensures { arena.new.settings ≡ arena.old.settings }
{
    let mut challenge = Challenge::new(hill);
    for steps in 1..100 {
        if let Some(verdict) = challenge.step(hill, arena, challenger, MOST_TURNS) {
            return (steps, verdict);
        }
    }
    panic!(rt; "it takes more steps")
}

/// A challenger's entry, whether it stays, who falls, and its score and its rank.
fn told(verdict: &Verdict) -> ((u64, bool), (Option<u64>, u32, u32)) {
    (
        (verdict.entry, verdict.stays),
        (verdict.falls, verdict.score, verdict.rank),
    )
}

/// A warrior that loses at once is judged in this many steps, with these results, and so it is in one go.
fn check_challenger(
    rt: &impl Abort,
    memory: &Refusing<Global>,
    hill: &mut Hill<&Refusing<Global>>,
    arena: &mut Arena<&Refusing<Global>>,
    steps: u32,
    bouts: &[Bout],
)
    requires { arena.old.settings ≡ hill.old.settings }
{
    assert!(rt; hill.counter() < u64::MAX, "no more is counted");
    let loser = warrior(memory, &[DIE], hill.settings()).expect(rt, "it fits");
    let (found, verdict) = stepped(rt, hill, arena, &loser);
    let judged = hill.judge(arena, &loser);
    drop(loser);
    expect_same(rt, &found, &steps, "steps");
    expect_same(rt, &verdict.bouts(), &bouts, "results in steps");
    expect_same(rt, &judged.bouts(), &bouts, "results in one go");
    let both = (told(&verdict), told(&judged));
    drop(judged);
    drop(verdict);
    expect_same(rt, &both.0, &both.1, "what is told");
}

/// Cycles and rounds, the steps of a challenge on a hill of two, and its results: those that the older won, that the
/// younger won, and ties.
type Steps = (u32, u32, u32, Counts, Counts);

type Counts = (u16, u16, u16);

fn check_steps(rt: &impl Abort, memory: &Refusing<Global>, due: &Steps) {
    let (cycles, rounds, steps, first, second) = *due;
    let bouts = [bout(first), bout(second)];
    let settings = settings_of(rt, small!(cycles: cycles, rounds: rounds));
    let mut arena = Arena::new(memory, &settings).expect(rt, "there is memory");
    let mut hill = hill_of_two(rt, memory, settings);
    check_challenger(rt, memory, &mut hill, &mut arena, steps, &bouts);
    drop(hill);
    drop(arena);
}

fn bout(counts: Counts) -> Bout {
    let (older_wins, younger_wins, ties) = counts;
    Bout {
        older_wins,
        younger_wins,
        ties,
    }
}

static STEPS: [Steps; 4] = [
    (100, 2, 3, (1, 1, 0), (2, 0, 0)),
    (1_000_000, 3, 7, (1, 2, 0), (3, 0, 0)),
    (300_000, 7, 7, (3, 4, 0), (7, 0, 0)),
    (500_000, 3, 5, (1, 2, 0), (3, 0, 0)),
];

/// Of two that lose at once the one that moves first loses. A step has 1,000,000 cycles of each side at most, and the
/// last one only judges.
#[test]
fn a_challenge_in_steps(rt: HostRuntime) {
    let memory = Refusing::new(rt.alloc());
    for due in &STEPS {
        check_steps(&rt, &memory, due);
    }
    drop(memory);
}
