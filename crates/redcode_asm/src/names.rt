//! What names stand for on a line.

ghost use Rattle.std.specs.Prelude.{◌≡◌};

use redcode_expand::{Expanded, predefined};
use redcode_text::Names;
use std::alloc::Allocator;
use war_types::Settings;

/// What names stand for: a label is its address as seen from the origin, and the predefined names have their values.
#[derive(Clone, Copy)]
pub struct Labels<'e, 's, A: Allocator + Copy> {
    pub expanded: &'e Expanded<'s, A>,
    pub settings: &'e Settings,
    /// Instructions before the line.
    pub before: u32,
    /// The instruction's own address in an operand, and 0 in `ORG`, `END` and `;assert`.
    pub origin: u32,
}

impl<'e, 's, A: Allocator + Copy> Names for Labels<'e, 's, A> {
    ghost use Rattle.redcode_asm.specs.Names.{values_of};

    ghost values = { λ it. values_of it.settings.now it.expanded.now.labels it.before it.origin };

    fn value_of(&self, name: &[u8]) -> Option<i64> {
        match self.expanded.label(name) {
            Some(address) => Some(i64::from(address) - i64::from(self.origin)),
            None => predefined(self.settings, self.before, name),
        }
    }
}
