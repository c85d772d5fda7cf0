//! Passes without limits: a turn of each side.

ghost use Rattle.std.specs.Prelude.{◌≡◌, ℕ, ◌+◌, ◌-◌, ◌*◌, ◌<◌, ◌≤◌, true, false};
ghost use Rattle.{war_types.specs.declared.settings.RawSettings.RawSettings, mars_core.specs.{declared.round.Side.Side, Cells.IsCore, Whole.whole, Round.{after_turns, is_empty, reach_of, IsQueue}}};
ghost use Rattle.mars_core.specs.{Arena.round_in, Passes.{IsTurnMade, round_at, round_after, turns_left}, Window.{held, left_by, IsWindow}};

use crate::handlers::dispatched;
use crate::round::Side;
use crate::window::Window;
use mars_operations::effect::Queued;
use mars_operations::{Core, PLACES, Queue};
use mars_words::Size;
use std::alloc::Allocator;

/// Makes `most` passes, or fewer if a side has no process left, and answers how many turns were not made, and whose
/// turn is next.
pub(crate) fn passes<A: Allocator>(
    core: &mut Core<A>,
    size: Size,
    first: &mut Queue<A>,
    second: &mut Queue<A>,
    to_move: Side,
    most: u32,
) -> (u32, Side)
    requires wide { 2 ≤ size }
    requires core { IsCore size core.old }
    requires first { IsQueue size first.old.limit first.old.addresses }
    requires second { IsQueue size second.old.limit second.old.addresses }
    requires first_lives { is_empty first.old.addresses ≡ false }
    requires second_lives { is_empty second.old.addresses ≡ false }
    requires most { 2 * most ≤ 2000000 }
    ensures core { IsCore size core.new }
    ensures first { IsQueue size first.new.limit first.new.addresses }
    ensures second { IsQueue size second.new.limit second.new.addresses }
    ensures first_limit { first.new.limit ≡ first.old.limit }
    ensures second_limit { second.new.limit ≡ second.old.limit }
    ensures left { result.0 ≤ 2 * most }
    ensures after { (s : RawSettings) (used : ℕ) → reach_of s ≡ whole size → s.processes ≡ first.old.limit
        → s.processes ≡ second.old.limit
        → used + 2 * most ≤ 2 * s.cycles
        → after_turns (2 * most) (round_in s core.old first.old.addresses second.old.addresses to_move used)
        ≡ round_in s core.new first.new.addresses second.new.addresses result.1 (used + (2 * most - result.0)) }
{
    match to_move {
        Side::First => {
            let (left, is_odd) = alternate(core, size, first, second, most);
            if is_odd {
                (2 * left + 1, Side::Second)
            } else {
                (2 * left, Side::First)
            }
        }
        Side::Second => {
            let (left, is_odd) = alternate(core, size, second, first, most);
            if is_odd {
                (2 * left + 1, Side::First)
            } else {
                (2 * left, Side::Second)
            }
        }
    }
}

/// The same by the queue of the side to move and by the other side's. It answers how many passes were not begun, and
/// whether the other side is next.
#[inline(never)]
fn alternate<A: Allocator>(
    core: &mut Core<A>,
    size: Size,
    mover: &mut Queue<A>,
    others: &mut Queue<A>,
    most: u32,
) -> (u32, bool)
    requires wide { 2 ≤ size }
    requires core { IsCore size core.old }
    requires mover { IsQueue size mover.old.limit mover.old.addresses }
    requires others { IsQueue size others.old.limit others.old.addresses }
    requires mover_lives { is_empty mover.old.addresses ≡ false }
    requires others_live { is_empty others.old.addresses ≡ false }
    requires most { 2 * most ≤ 2000000 }
    ensures core { IsCore size core.new }
    ensures mover { IsQueue size mover.new.limit mover.new.addresses }
    ensures others { IsQueue size others.new.limit others.new.addresses }
    ensures mover_limit { mover.new.limit ≡ mover.old.limit }
    ensures others_limit { others.new.limit ≡ others.old.limit }
    ensures left { result.0 ≤ most }
    ensures odd { result.1 ≡ true → result.0 < most }
    ensures after { (m : Side) (s : RawSettings) (used : ℕ) → reach_of s ≡ whole size → s.processes ≡ mover.old.limit
        → s.processes ≡ others.old.limit
        → used + 2 * most ≤ 2 * s.cycles
        → after_turns (2 * most) (round_at m s core.old mover.old.addresses others.old.addresses used)
        ≡ round_after result.1 m s core.new mover.new.addresses others.new.addresses
        (used + (2 * most - turns_left result.1 result.0)) }
{
    let mut own_places = Window::places();
    let mut other_places = Window::places();
    let mut own = Window::before(mover);
    let mut other = Window::before(others);
    let mut left = most;
    while left > 0 {
        left -= 1;
        if turn_of::<0, A>(core, size, &mut own, &mut own_places, mover) {
            own.close(&own_places, mover);
            other.close(&other_places, others);
            mover.end();
            return (left, true);
        }
        if turn_of::<1, A>(core, size, &mut other, &mut other_places, others) {
            own.close(&own_places, mover);
            other.close(&other_places, others);
            others.end();
            return (left, false);
        }
    }
    own.close(&own_places, mover);
    other.close(&other_places, others);
    (0, false)
}

/// Makes a turn of a side by its window, and answers whether none is left: then the window keeps the last process until
/// it is closed. SIDE is for the compiler alone, as for `dispatched`.
#[inline(always)]
fn turn_of<const SIDE: u64, A: Allocator>(
    core: &mut Core<A>,
    size: Size,
    window: &mut Window,
    places: &mut [u16; PLACES],
    queue: &mut Queue<A>,
) -> bool
    requires wide { 2 ≤ size }
    requires core { IsCore size core.old }
    requires window { IsWindow window.old places.old queue.old }
    requires queue { IsQueue size queue.old.limit (held window.old places.old queue.old).addresses }
    ensures core { IsCore size core.new }
    ensures window { IsWindow window.new places.new queue.new }
    ensures turn { IsTurnMade size core.old core.new (held window.old places.old queue.old)
        (left_by result (held window.new places.new queue.new)) }
    ensures empty { result ≡ is_empty (left_by result (held window.new places.new queue.new)).addresses }
{
    match dispatched::<SIDE, A>(core, size, window.front()) {
        Queued::Nothing => window.end(places, queue),
        Queued::One(address) => {
            window.follow(places, queue, address);
            false
        }
        Queued::Two(address, behind) => {
            window.split(places, queue, address, behind);
            false
        }
    }
}
