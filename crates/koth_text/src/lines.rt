//! Lines and numbers in a text.

ghost use Rattle.std.specs.Prelude.{◌≡◌, ◌++◌, decimal, OnOk};

use crate::line::Line;
use std::alloc::{AllocError, Allocator};

/// Puts a line. The error is lack of memory.
pub fn put_line<A: Allocator>(page: &mut Vec<u8, A>, line: Line) -> Result<(), AllocError>
    ensures { OnOk result (page.new.items ≡ page.old.items ++ line) }
{
    page.extend_from_slice(line.as_slice())
}

/// Puts a number in decimal digits.
pub fn put_number<A: Allocator>(page: &mut Vec<u8, A>, number: u64) -> Result<(), AllocError>
    ensures { OnOk result (page.new.items ≡ page.old.items ++ decimal number) }
{
    let mut digits = Line::new();
    digits.put_number(number);
    page.extend_from_slice(digits.as_slice())
}
