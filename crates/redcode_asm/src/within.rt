//! An assembly within a budget of steps.

ghost use Rattle.std.specs.Prelude.{◌≡◌, ◌<◌, ◌≤◌, length, IfOk, Err};
ghost use Rattle.{war_types.specs.{Warrior.Fits, declared.fault.AsmKind.TheVariants.SourceTooLong}, redcode_names.specs.Gives.fault_at, redcode_expand.specs.Taken.steps_taken};
ghost use Rattle.redcode_asm.specs.{Assembly.assembly, Within.{AssemblesWithin, MaySpend, refused, cause_of}, declared.within.Unassembled.TheVariants.StepsSpent};

use crate::assembler::assemble_by;
use redcode_expand::Steps;
use std::alloc::Allocator;
use war_types::{AsmFault, AsmKind, Settings, Warrior};

/// Why an assembly within a budget gives no warrior.
#[derive(Clone, Copy, Debug, PartialEq, Eq)]
pub enum Unassembled {
    /// The refusal, as `assemble` answers it.
    Refused(AsmFault),
    /// The steps are spent, which says nothing about the source.
    StepsSpent,
}

/// Assembles a source of Redcode under these settings, within a budget of steps.
///
/// An answer that is given is that of `assemble`. A step is a line that is walked over, a token that is read, replaced or worked out,
/// or a name that is looked up: a copy of a line is walked over too, and a `FOR` pays for its `ROF`. What the written lines say is not
/// counted: that is less than 4,096 lines of 512 operands. `steps_taken` in `redcode_expand/specs/Taken` counts the steps of a source: one
/// that takes fewer than `steps` by it is not given up. A source of L bytes in which no line is a `FOR` or an `EQU` takes L + 1 steps at
/// most, any source fewer than 537,010,177 (L + 1) (L + 16,385) + 2^32, and one of more than 65,536 bytes takes none.
pub fn assemble_within<A: Allocator + Copy>(
    alloc: A,
    source: &[u8],
    settings: &Settings,
    steps: u64,
) -> Result<Warrior<A>, Unassembled>
    ensures assembled { AssemblesWithin (MaySpend steps source.now) result (assembly settings.now source.now) }
    ensures taken { result ≡ Err StepsSpent → steps ≤ steps_taken settings.now source.now }
    ensures too_long { 65536 < length source.now → result ≡ Err (refused (fault_at 0 SourceTooLong)) }
    ensures fits { IfOk result (Fits settings.now) }
{
    let mut left = Steps::new(steps);
    match assemble_by(alloc, source, settings, &mut left) {
        Ok(warrior) => Ok(warrior),
        Err(fault) => Err(cause_of(fault, left.are_spent())),
    }
}

/// Why there is no warrior. Spent steps end an assembly as memory that ran out does.
fn cause_of(fault: AsmFault, are_spent: bool) -> Unassembled
    ensures { result ≡ cause_of fault are_spent }
{
    if are_spent && matches!(fault.kind, AsmKind::Memory) {
        return Unassembled::StepsSpent;
    }
    Unassembled::Refused(fault)
}
