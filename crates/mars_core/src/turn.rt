//! Turns.

ghost use Rattle.std.specs.Prelude.{◌≡◌, ℕ, ◌+◌, ◌-◌, ◌*◌, ◌≤◌, false};
ghost use Rattle.{war_types.specs.declared.settings.RawSettings.RawSettings, mars_core.specs.{Cells.IsCore, Round.{after_turns, is_empty, reach_of, turned, IsQueue}, Arena.round_in, Code.other}};

use crate::execution::execute;
use crate::limits::Limits;
use crate::round::{Side, Turned};
use mars_operations::effect::Queued;
use mars_operations::{Core, Queue};
use mars_words::Size;
use std::alloc::Allocator;

/// What a run of turns led to.
#[derive(Clone, Copy)]
pub(crate) struct Played {
    /// The number of turns that were not made, since a side had no process left.
    pub(crate) left: u32,
    /// The side whose turn is next.
    pub(crate) to_move: Side,
    /// How the last one went.
    pub(crate) last: Turned,
}

impl Side {
    #[inline(always)]
    pub(crate) fn other(self) -> Side
        ensures { result ≡ other self }
    {
        match self {
            Side::First => Side::Second,
            Side::Second => Side::First,
        }
    }
}

/// Makes `most` turns of two sides that have processes, alternately, or fewer if one of them has none left.
pub(crate) fn turns<L: Limits, A: Allocator>(
    core: &mut Core<A>,
    size: Size,
    limits: L,
    first: &mut Queue<A>,
    second: &mut Queue<A>,
    to_move: Side,
    most: u32,
) -> Played
    requires wide { 2 ≤ size }
    requires size { (L.reach limits).size ≡ size }
    requires core { IsCore size core.old }
    requires first { IsQueue size first.old.limit first.old.addresses }
    requires second { IsQueue size second.old.limit second.old.addresses }
    requires first_lives { is_empty first.old.addresses ≡ false }
    requires second_lives { is_empty second.old.addresses ≡ false }
    ensures core { IsCore size core.new }
    ensures first { IsQueue size first.new.limit first.new.addresses }
    ensures second { IsQueue size second.new.limit second.new.addresses }
    ensures first_limit { first.new.limit ≡ first.old.limit }
    ensures second_limit { second.new.limit ≡ second.old.limit }
    ensures left { result.left ≤ most }
    ensures after { (s : RawSettings) (used : ℕ) → reach_of s ≡ L.reach limits → s.processes ≡ first.old.limit
        → s.processes ≡ second.old.limit
        → used + most ≤ 2 * s.cycles
        → after_turns most (round_in s core.old first.old.addresses second.old.addresses to_move used)
        ≡ round_in s core.new first.new.addresses second.new.addresses result.to_move (used + (most - result.left)) }
    ensures last { (s : RawSettings) (used : ℕ) → reach_of s ≡ L.reach limits → s.processes ≡ first.old.limit
        → s.processes ≡ second.old.limit
        → used + most ≤ 2 * s.cycles → most ≡ 1
        → result.last ≡ turned (round_in s core.old first.old.addresses second.old.addresses to_move used) }
{
    let mut to_move = to_move;
    let mut last = Turned::Over;
    let mut left = most;
    while left > 0 {
        left -= 1;
        let pc = match to_move {
            Side::First => first.front(),
            Side::Second => second.front(),
        };
        let queued = execute(core, size, limits, pc);
        match queued {
            Queued::Nothing => {
                let is_empty = match to_move {
                    Side::First => first.end(),
                    Side::Second => second.end(),
                };
                last = Turned::Died;
                if is_empty {
                    return Played {
                        left,
                        to_move: to_move.other(),
                        last,
                    };
                }
            }
            Queued::One(address) => {
                match to_move {
                    Side::First => first.follow(address),
                    Side::Second => second.follow(address),
                }
                last = Turned::Went;
            }
            Queued::Two(address, behind) => {
                match to_move {
                    Side::First => first.split(address, behind),
                    Side::Second => second.split(address, behind),
                }
                last = Turned::Went;
            }
        }
        to_move = to_move.other();
    }
    Played {
        left: 0,
        to_move,
        last,
    }
}
