//! The lines of instructions.

ghost use Rattle.std.specs.Prelude.{◌≡◌, IfOk};
ghost use Rattle.redcode_listing.specs.Lines.{instruction_lines, times};

use redcode_expand::{Entry, Line, LineKind};
use std::alloc::{AllocError, Allocator};

/// The lines with an operation among these, in their order: each is an instruction.
pub(crate) fn instruction_lines<A: Allocator + Copy>(
    alloc: A,
    entries: &[Entry<'_, A>],
) -> Result<Vec<Line, A>, AllocError>
    ensures { IfOk result (λ lines. lines.items ≡ instruction_lines entries.now) }
{
    let mut lines = Vec::new(alloc);
    for entry in entries {
        if matches!(entry.line.kind, LineKind::Operation) {
            lines.push(entry.line)?;
        }
    }
    Ok(lines)
}

/// How many of these lines are the source's line of this number.
pub(crate) fn times(lines: &[Line], number: u32) -> usize
    ensures { result ≡ times number lines.now }
{
    let mut count = 0;
    for line in lines {
        if line.source_line == number {
            count += 1;
        }
    }
    count
}
