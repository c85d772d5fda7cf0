//! Settings, warriors and hills for the tests.

ghost use Rattle.std.specs.{Prelude.◌≡◌, Option.IfSome};
ghost use Rattle.war_types.specs.Warrior.{Fits};

use koth_hill::Hill;
use mars_core::Arena;
use std::alloc::Global;
use std::process::Abort;
use tests_fixtures::{DIE, Instr, RawSettings, Refusing, STAY};
use war_types::{Settings, Title, Warrior};

pub(crate) fn settings_of(rt: &impl Abort, raw: RawSettings) -> Settings {
    Settings::new(raw).expect(rt, "they are settings")
}

/// A warrior of this code that starts at its first instruction, if it fits and there is memory.
pub(crate) fn warrior<'m>(
    memory: &'m Refusing<Global>,
    code: &[Instr],
    settings: &Settings,
) -> Option<Warrior<&'m Refusing<Global>>>
    ensures { IfSome result (λ w. Fits settings.now w × (w.code ≡ code.now)) }
{
    let code = Vec::from_slice(memory, code).ok()?;
    let name = Title::new(b"Imp", "Unnamed");
    let author = Title::new(b"A. K. Dewdney", "Anonymous");
    Warrior::new(code, 0, name, author, settings)
}

/// Judges a warrior of this code that has a place on the hill, and lets it in.
fn enter<'m>(
    rt: &impl Abort,
    memory: &'m Refusing<Global>,
    hill: &mut Hill<&'m Refusing<Global>>,
    arena: &mut Arena<&'m Refusing<Global>>,
    code: &[Instr],
)
    requires { arena.old.settings ≡ hill.old.settings }
    ensures arena { arena.new.settings ≡ arena.old.settings }
    ensures hill { hill.new.settings ≡ hill.old.settings }
{
    assert!(rt; hill.counter() < u64::MAX, "no more is counted");
    let entrant = warrior(memory, code, hill.settings()).expect(rt, "it fits");
    let verdict = hill.judge(arena, &entrant);
    assert!(rt; verdict.stays, "it has no place");
    hill.admit(entrant, &verdict);
    drop(verdict);
}

/// A hill with one that loses at once, and one that stays where it is.
pub(crate) fn hill_of_two<'m>(
    rt: &impl Abort,
    memory: &'m Refusing<Global>,
    settings: Settings,
) -> Hill<&'m Refusing<Global>>
    ensures { result.settings ≡ settings }
{
    let mut arena = Arena::new(memory, &settings).expect(rt, "there is memory");
    let mut hill = Hill::new(memory, settings).expect(rt, "there is memory");
    enter(rt, memory, &mut hill, &mut arena, &[DIE]);
    enter(rt, memory, &mut hill, &mut arena, &[STAY]);
    drop(arena);
    hill
}
