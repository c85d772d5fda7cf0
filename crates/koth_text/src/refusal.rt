//! The line of a source that is refused.

ghost use Rattle.std.specs.Prelude.{◌≡◌, ◌≤◌, ◌++◌, length, codes, decimal};
ghost use Rattle.koth_text.specs.Refusal.{refusal_line};

use crate::line::Line;
use war_types::AsmFault;

/// The line `REFUSED line Kind`. It needs no memory.
pub fn refusal_line(fault: AsmFault) -> Line
    ensures { result ≡ refusal_line fault }
{
    let mut line = Line::new();
    line.put(b"REFUSED ");
    line.put_number(u64::from(fault.line));
    line.put(b" ");
    line.put_kind(fault.kind);
    line.put(b"\n");
    line
}
