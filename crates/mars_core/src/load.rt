//! The core at the beginning of a round.

ghost use Rattle.std.specs.Prelude.{◌≡◌, ◌+◌, ◌≤◌, ◌++◌, All, drop, length, take};
ghost use Rattle.{war_types.specs.Warrior.HasNumbersBelow, mars_core.specs.{Cells.IsCore, Round.loaded}};

use mars_operations::Core;
use mars_words::{Size, Word};
use std::alloc::Allocator;
use war_types::Instr;

/// Clears the core, and puts the first code at address 0 and the second at `position`.
pub(crate) fn load<A: Allocator>(
    core: &mut Core<A>,
    size: Size,
    code0: &[Instr],
    code1: &[Instr],
    position: u16,
)
    requires core { IsCore size core.old }
    requires first { All (HasNumbersBelow size) code0.now }
    requires second { All (HasNumbersBelow size) code1.now }
    requires apart { length code0.now ≤ position }
    requires inside { position + length code1.now ≤ size }
    ensures value { core.new ≡ loaded size code0.now code1.now position }
    ensures core { IsCore size core.new }
{
    core.clear();
    put_code(core, size, code0, 0);
    put_code(core, size, code1, position);
}

/// Puts a code into the core, from `position` on.
fn put_code<A: Allocator>(core: &mut Core<A>, size: Size, code: &[Instr], position: u16)
    requires core { IsCore size core.old }
    requires numbers { All (HasNumbersBelow size) code.now }
    requires inside { position + length code.now ≤ size }
    ensures value { core.new ≡ take position core.old ++ code.now ++ drop (position + length code.now) core.old }
    ensures core { IsCore size core.new }
{
    for place in 0..code.len() {
        core.put(
            size,
            u32::from(position) + place as u32,
            Word::of(code[place]),
        );
    }
}
