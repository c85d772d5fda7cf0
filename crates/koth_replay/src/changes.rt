//! The cells that a turn changes.

ghost use Rattle.std.specs.Prelude.{◌≡◌, ◌<◌, ◌++◌, List, length, map, replicate, All, OnOk};
ghost use Rattle.war_types.specs.declared.instr.Instr.{Instr};
ghost use Rattle.war_types.specs.declared.instr.Modifier.TheVariants as modifiers;
ghost use Rattle.{mars_core.specs.{Cells.{blank, cell}, Effect.are_equal, Touched.AreSameBut}, koth_replay.specs.Turn.{core_events, cell_told}};

use crate::event::Event;
use crate::nearest::nearest;
use mars_core::Arena;
use std::alloc::{AllocError, Allocator};
use war_types::{Instr, Mode, Modifier, Op};

/// What a cell holds if nothing was loaded into it.
pub(crate) const BLANK: Instr = Instr {
    op: Op::Dat,
    modifier: Modifier::F,
    a_mode: Mode::Direct,
    a: 0,
    b_mode: Mode::Direct,
    b: 0,
};

/// Adds an event for each of the first `core` cells that something was loaded into.
pub(crate) fn push_loaded<A: Allocator, B: Allocator>(
    events: &mut Vec<Event, A>,
    arena: &Arena<B>,
    core: u16,
) -> Result<(), AllocError>
    requires { length arena.now.core ≡ core }
    ensures { OnOk result (events.new.items ≡ events.old.items
        ++ core_events core (replicate core blank) arena.now.core) }
{
    for at in 0..core {
        let now = arena.cell(at).unwrap();
        push_change(events, BLANK, at, now)?;
    }
    Ok(())
}

/// What the cells at these addresses hold.
pub(crate) fn held_at<A: Allocator>(arena: &Arena<A>, addresses: &[u16; 8]) -> [Instr; 8]
    requires { All (λ a. a < length arena.now.core) addresses.now }
    ensures { result ≡ map (cell arena.now.core) addresses.now }
{
    let mut held = [BLANK; 8];
    for place in 0..addresses.len() {
        held[place] = arena.cell(addresses[place]).unwrap();
    }
    held
}

/// Adds an event for each of the first `core` cells that holds another instruction in the arena than before, by their
/// addresses. Only the cells at `addresses` may have changed, which held `held` before. An address may be there twice.
pub(crate) fn push_changes<A: Allocator, B: Allocator>(
    events: &mut Vec<Event, A>,
    addresses: &[u16; 8],
    held: &[Instr; 8],
    arena: &Arena<B>,
    core: u16,
) -> Result<(), AllocError>
    requires here { All (λ a. a < core) addresses.now }
    requires there { length arena.now.core ≡ core }
    ensures { OnOk result ((before : List Instr) → held.now ≡ map (cell before) addresses.now
        → AreSameBut addresses.now before arena.now.core
        → events.new.items ≡ events.old.items ++ core_events core before arena.now.core) }
{
    let mut from = 0;
    while let Some(place) = nearest(addresses, from) {
        let at = addresses[place];
        let now = arena.cell(at).unwrap();
        push_change(events, held[place], at, now)?;
        from = at + 1;
    }
    Ok(())
}

/// Adds an event if the cell at an address holds another instruction now.
fn push_change<A: Allocator>(
    events: &mut Vec<Event, A>,
    before: Instr,
    at: u16,
    now: Instr,
) -> Result<(), AllocError>
    ensures { OnOk result (events.new.items ≡ events.old.items ++ cell_told before now at) }
{
    if !is_same(before, now) {
        events.push(Event::Cell(at, now))?;
    }
    Ok(())
}

/// Whether two instructions are the same.
pub(crate) fn is_same(a: Instr, b: Instr) -> bool
    ensures { result ≡ are_equal modifiers.I a b }
{
    a.op.code() == b.op.code()
        && a.modifier.code() == b.modifier.code()
        && a.a_mode.code() == b.a_mode.code()
        && a.b_mode.code() == b.b_mode.code()
        && a.a == b.a
        && a.b == b.b
}
