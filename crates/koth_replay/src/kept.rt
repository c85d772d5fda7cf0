//! A round of a match, turn by turn.

ghost use Rattle.std.specs.Prelude.{◌≡◌, ◌<◌, [], length, slice_index_or};

use crate::event::Event;
use crate::opening::Opening;
use mars_core::Outcome;
use std::alloc::Allocator;
use std::marker::Model;

/// A round of a match: how it begins, the events of its turns, and how it ended. All that is kept takes memory once,
/// when it is made.
#[derive(Drop)]
pub struct Replay<A: Allocator> {
    pub(crate) opening: Opening,
    pub(crate) loaded: Vec<Event, A>,
    pub(crate) turns: Vec<Vec<Event, A>, A>,
    pub(crate) outcome: Outcome,
    pub(crate) is_cut: bool,
}

impl<A: Allocator> Model for Replay<A> {
    ghost use Rattle.koth_replay.specs.{Replay.{ReplayParts, replay_parts}, Code.turns_of};

    ghost Value = { ReplayParts };

    ghost view = { λ r. replay_parts r.opening r.loaded.items (turns_of r.turns.items) r.outcome r.is_cut };
}

impl<A: Allocator> Replay<A> {
    /// How the round begins.
    pub fn opening(&self) -> Opening
        ensures { result ≡ self.now.opening }
    {
        self.opening
    }

    /// What the warriors' cells hold when the round begins, each an `Event::Cell`, by their addresses. All other cells
    /// hold `DAT.F $0, $0`.
    pub fn loaded(&self) -> &[Event]
        ensures { result.now ≡ self.now.loaded }
    {
        self.loaded.as_slice()
    }

    /// How many turns are kept, of both sides together.
    pub fn turns(&self) -> usize
        ensures { result ≡ length self.now.turns }
    {
        self.turns.len()
    }

    /// The events of a turn, counted from 0: that it begins, the cells that it changes, by their addresses, and the
    /// processes that it adds.
    pub fn events_of(&self, turn: usize) -> &[Event]
        requires { turn < length self.now.turns }
        ensures { result.now ≡ slice_index_or self.now.turns turn [] }
    {
        self.turns[turn].as_slice()
    }

    /// Who won the round, at the end of all of its turns.
    pub fn outcome(&self) -> Outcome
        ensures { result ≡ self.now.outcome }
    {
        self.outcome
    }

    /// Whether the round has more turns than are kept.
    pub fn is_cut(&self) -> bool
        ensures { result ≡ self.now.is_cut }
    {
        self.is_cut
    }
}
