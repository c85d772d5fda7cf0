//! A new arena, and matches and rounds in one arena.

ghost use Rattle.std.specs.Prelude.{◌≡◌, ◌≤◌};

use crate::expecting::expect_same;
use crate::making::{settings_of, warrior};
use koth_match::fight;
use mars_core::{Arena, Outcome, Side, Turned};
use std::alloc::Global;
use std::process::Abort;
use tests_fixtures::{DIE, IMP, Instr, RawSettings, Refusing, SMALL, STAY, small};
use war_types::Settings;

/// How a turn and a round go in a new arena, its first cell, its last one and what is after it, and the processes of
/// both sides.
fn fresh(
    rt: &impl Abort,
    memory: &Refusing<Global>,
) -> (Turned, Outcome, [Option<Instr>; 3], [u32; 2]) {
    let settings = settings_of(rt, SMALL);
    let mut arena = Arena::new(memory, &settings).expect(rt, "there is memory");
    let (turned, outcome) = (arena.turn(), arena.play());
    let cells = [arena.cell(0), arena.cell(63), arena.cell(64)];
    let processes = [arena.processes(Side::First), arena.processes(Side::Second)];
    drop(arena);
    (turned, outcome, cells, processes)
}

#[test]
fn a_fresh_arena(rt: HostRuntime) {
    let memory = Refusing::new(rt.alloc());
    let (turned, outcome, cells, processes) = fresh(&rt, &memory);
    drop(memory);
    let found = (turned, outcome);
    expect_same(
        &rt,
        &found,
        &(Turned::Over, Outcome::Tie),
        "a turn and a round",
    );
    expect_same(&rt, &cells, &[Some(DIE), Some(DIE), None], "its cells");
    expect_same(&rt, &processes, &[0, 0], "its processes");
}

/// The ties of two matches of one that goes on and one that stays, and then a round of these begins, the second of them
/// loaded at 0.
fn fight_and_begin(
    rt: &impl Abort,
    memory: &Refusing<Global>,
    arena: &mut Arena<&Refusing<Global>>,
    settings: &Settings,
) -> (u16, u16)
    requires settings { arena.old.settings ≡ settings.now }
    requires room { 21 ≤ settings.now.core }
{
    let older = warrior(memory, &[IMP], settings).expect(rt, "it fits");
    let younger = warrior(memory, &[STAY], settings).expect(rt, "it fits");
    let first = fight(arena, &older, &younger, settings);
    let again = fight(arena, &older, &younger, settings);
    arena.begin(&younger, &older, 20, Side::First);
    drop(younger);
    drop(older);
    (first.ties, again.ties)
}

/// The first address whose cell is neither one of these two nor blank.
fn left_over(arena: &Arena<&Refusing<Global>>, core: u16, cells: [(u16, Instr); 2]) -> Option<u16> {
    for at in 0..core {
        let due = if at == cells[0].0 {
            cells[0].1
        } else if at == cells[1].0 {
            cells[1].1
        } else {
            DIE
        };
        let is_due = arena.cell(at) == Some(due);
        if !is_due {
            return Some(at);
        }
    }
    None
}

/// The ties of two matches in an arena, the first cell that isn't as the round after them begins, and how this round
/// ends. The arena's memory is refused once it is made, and the warriors are in `calm`.
fn fought(
    rt: &impl Abort,
    calm: &Refusing<Global>,
    memory: &Refusing<Global>,
    raw: RawSettings,
) -> ((u16, u16), Option<u16>, Outcome) {
    let settings = settings_of(rt, raw);
    assert!(rt; settings.core() >= 21, "they have no room");
    let mut arena = Arena::new(memory, &settings).expect(rt, "there is memory");
    memory.refuse(0, u64::MAX);
    let ties = fight_and_begin(rt, calm, &mut arena, &settings);
    let left = left_over(&arena, settings.core(), [(0, STAY), (20, IMP)]);
    arena.turn();
    let outcome = arena.play();
    drop(arena);
    (ties, left, outcome)
}

/// The largest core, and as many processes as it has cells.
const LARGE: RawSettings = small!(core: 65535, processes: 65535);

/// Nothing is left of them in the rounds after them.
#[test]
fn matches_and_rounds_need_no_memory(rt: HostRuntime) {
    let calm = Refusing::new(rt.alloc());
    let memory = Refusing::new(rt.alloc());
    for raw in [SMALL, LARGE] {
        memory.refuse(0, 0);
        let found = fought(&rt, &calm, &memory, raw);
        let due = ((2, 2), None, Outcome::Tie);
        expect_same(&rt, &found, &due, format_args!("core of {}", raw.core));
        expect_same(&rt, &memory.refused(), &0, "growths refused");
    }
    drop(memory);
    drop(calm);
}
