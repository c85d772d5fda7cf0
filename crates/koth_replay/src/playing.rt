//! Playing a round of a match, and keeping its events.

ghost use Rattle.std.specs.Prelude.{◌≡◌, ◌<◌, IfOk};
ghost use Rattle.{war_types.specs.Warrior.Fits, mars_core.specs.Round.IsRound, koth_replay.specs.{Replay.IsReplay, Code.IsReplayOf}};

use crate::changes::push_loaded;
use crate::kept::Replay;
use crate::opening::Opening;
use crate::turns::{goes_on, kept_turns};
use koth_match::{first_in, position, seed_of_round};
use mars_core::Arena;
use std::alloc::{AllocError, Allocator};
use war_types::{Settings, Warrior};

/// Plays a round of a match, counted from 0, as the match does, and keeps the events of its first `most` turns.
pub fn replay<A: Allocator + Copy, B: Allocator, C: Allocator, D: Allocator>(
    alloc: A,
    arena: &mut Arena<B>,
    older: &Warrior<C>,
    younger: &Warrior<D>,
    settings: &Settings,
    round: u16,
    most: u32,
) -> Result<Replay<A>, AllocError>
    requires settings { arena.old.settings ≡ settings.now }
    requires older { Fits settings.now older.now }
    requires younger { Fits settings.now younger.now }
    requires round { round < settings.now.rounds }
    ensures replay { IfOk result (IsReplay settings.now older.now younger.now round most) }
    ensures settings { arena.new.settings ≡ arena.old.settings }
{
    let position = position(seed_of_round(settings, round), settings);
    let opening = Opening {
        core: settings.core(),
        position,
        older: older.start(),
        younger: position + younger.start(),
        first: first_in(round),
    };
    arena.begin(older, younger, position, opening.first);
    played(alloc, arena, opening, most)
}

/// Plays a round that has begun, and keeps its events.
fn played<A: Allocator + Copy, B: Allocator>(
    alloc: A,
    arena: &mut Arena<B>,
    opening: Opening,
    most: u32,
) -> Result<Replay<A>, AllocError>
    requires round { IsRound arena.old }
    requires core { opening.core ≡ arena.old.settings.core }
    requires first { opening.first ≡ arena.old.to_move }
    requires used { arena.old.used ≡ 0 }
    ensures replay { IfOk result (IsReplayOf arena.old opening most) }
    ensures settings { arena.new.settings ≡ arena.old.settings }
{
    let mut loaded = Vec::new(alloc);
    push_loaded(&mut loaded, arena, opening.core)?;
    let turns = kept_turns(alloc, arena, opening.core, most, opening.first)?;
    let is_cut = goes_on(arena);
    Ok(Replay {
        opening,
        loaded,
        turns,
        outcome: arena.play(),
        is_cut,
    })
}
