//! The line of an instruction in a load text.

ghost use Rattle.std.specs.{Prelude.{◌≡◌, ◌<◌, ◌≤◌, ◌++◌, codes}, Fmt.signed_decimal, Result.OnOk};
ghost use Rattle.{war_types.specs.Warrior.HasNumbersBelow, redcode_text.specs.Vocabulary.{op_text, modifier_text, mode_text}};
ghost use Rattle.redcode_statement.specs.InstrLine.{spaces, signed_number, left_in, operand_text, instr_line};

use itoa::Buffer;
use redcode_text::{mode_text, modifier_text, op_text};
use std::alloc::{AllocError, Allocator};
use war_types::{Instr, Mode, Modifier, Op};

/// Appends the line of an instruction to a load text. Its numbers are below this core size.
#[tactic(auto, unfolding(crate::specs::InstrLine::instr_line))]
pub fn append_line<A: Allocator>(
    text: &mut Vec<u8, A>,
    instr: &Instr,
    core: u16,
) -> Result<(), AllocError>
    requires { HasNumbersBelow core instr.now }
    ensures { OnOk result (text.new.items ≡ text.old.items ++ instr_line core instr.now) }
{
    append_operation(text, instr.op, instr.modifier)?;
    append_operand(text, instr.a_mode, instr.a, core)?;
    text.extend_from_slice(b", ")?;
    append_operand(text, instr.b_mode, instr.b, core)?;
    text.extend_from_slice(b"\n")
}

/// Appends an operation and its modifier, at the left of 7 places.
fn append_operation<A: Allocator>(
    text: &mut Vec<u8, A>,
    op: Op,
    modifier: Modifier,
) -> Result<(), AllocError>
    ensures { OnOk result (text.new.items ≡ text.old.items ++ left_in 7 (op_text op ++ codes "." ++ modifier_text modifier)) }
{
    let operation = op_text(op);
    let modifier = modifier_text(modifier);
    text.extend_from_slice(operation.as_bytes())?;
    text.extend_from_slice(b".")?;
    text.extend_from_slice(modifier.as_bytes())?;
    let used = operation.len() + 1 + modifier.len();
    text.resize(text.len() + 7usize.saturating_sub(used), b' ')
}

/// Appends an operand: its mode, and its number at the right of 6 places.
fn append_operand<A: Allocator>(
    text: &mut Vec<u8, A>,
    mode: Mode,
    number: u16,
    core: u16,
) -> Result<(), AllocError>
    requires { number < core }
    ensures { OnOk result (text.new.items ≡ text.old.items ++ operand_text core mode number) }
{
    text.extend_from_slice(mode_text(mode).as_bytes())?;
    let mut buffer = Buffer::new();
    let digits = buffer.format(nearest_to_zero(number, core)).as_bytes();
    text.resize(text.len() + 6usize.saturating_sub(digits.len()), b' ')?;
    text.extend_from_slice(digits)
}

/// Of the numbers that stand for the same address in a core of this size, the one nearest to 0; the positive one
/// of two as near.
fn nearest_to_zero(number: u16, core: u16) -> i32
    requires { number < core }
    ensures { signed_decimal result ≡ signed_number core number }
{
    if core - number < number {
        i32::from(number) - i32::from(core)
    } else {
        i32::from(number)
    }
}
