//! The count of a block.

ghost use Rattle.std.specs.Prelude.{◌≡◌, ◌+◌, ◌<◌, ◌≤◌, ◌^◌, IfOk};
ghost use Rattle.{redcode_text.specs.Tokens.pieces, redcode_names.specs.{Gives.Gives, Steps.replacing_steps}, redcode_expand.specs.Walk.copies_of};

use redcode_names::{Equs, predefined, replaced};
use redcode_text::{Names, Token, value};
use std::alloc::Allocator;
use war_types::{AsmFault, AsmKind, Settings};

/// The names that a count knows: the predefined ones.
#[derive(Clone, Copy)]
struct Predefined<'e> {
    settings: &'e Settings,
    /// Instructions before the line.
    before: u32,
}

impl<'e> Names for Predefined<'e> {
    ghost use Rattle.redcode_names.specs.Name.{predefined};

    ghost values = { λ it. predefined it.settings.now it.before };

    fn value_of(&self, name: &[u8]) -> Option<i64> {
        predefined(self.settings, self.before, name)
    }
}

/// How many copies a count asks for: none if its value is negative. The names of the `EQU`s so far are replaced in it; `work` rises by the
/// steps of that; the tokens of the count itself took theirs in the visit to the line.
pub(crate) fn copies_of<'s, A: Allocator + Copy>(
    alloc: A,
    settings: &Settings,
    line: u32,
    before: u32,
    equs: &Equs<'s, A>,
    tokens: &[Token<'s>],
    work: &mut u64,
) -> Result<u64, AsmFault>
    ensures copies { Gives (λ n. n) result (copies_of settings.now line before equs.now (pieces tokens.now)) }
    ensures few { IfOk result (λ n. n < 2 ^ 63) }
    ensures work { work.new ≤ work.old + replacing_steps equs.now (pieces tokens.now) }
{
    let replaced = replaced(alloc, equs, line, tokens, work)?;
    let names = Predefined { settings, before };
    match value(replaced.as_slice(), &names) {
        Ok(count) if count > 0 => Ok(count as u64),
        Ok(_) => Ok(0),
        Err(fault) => Err(AsmFault {
            line,
            kind: AsmKind::ForCount(fault),
        }),
    }
}
