//! An instruction, as the data of a page has it.

ghost use Rattle.std.specs.Prelude.{◌≡◌, ◌++◌, codes, decimal, OnOk};
ghost use Rattle.koth_watch.specs.Instruction.{instruction_text, number_text, operand_text, sign_text};

use koth_text::Piece::Text;
use koth_text::{put_all, put_number};
use redcode_text::{mode_text, modifier_text, op_text};
use std::alloc::{AllocError, Allocator};
use war_types::{Instr, Mode};

/// Puts an instruction of a core of this size.
#[tactic(auto, unfolding(crate::specs::Instruction::instruction_text))]
pub(crate) fn put_instruction<A: Allocator>(
    page: &mut Vec<u8, A>,
    core: u16,
    instr: Instr,
) -> Result<(), AllocError>
    ensures { OnOk result (page.new.items ≡ page.old.items ++ instruction_text core instr) }
{
    let op = op_text(instr.op).as_bytes();
    let modifier = modifier_text(instr.modifier).as_bytes();
    put_all(page, &[Text(op), Text(b"."), Text(modifier), Text(b" ")])?;
    put_operand(page, core, instr.a_mode, instr.a)?;
    page.extend_from_slice(b", ")?;
    put_operand(page, core, instr.b_mode, instr.b)
}

#[tactic(auto, unfolding(crate::specs::Instruction::operand_text))]
fn put_operand<A: Allocator>(
    page: &mut Vec<u8, A>,
    core: u16,
    mode: Mode,
    number: u16,
) -> Result<(), AllocError>
    ensures { OnOk result (page.new.items ≡ page.old.items ++ operand_text core mode number) }
{
    page.extend_from_slice(sign_text(mode).as_bytes())?;
    put_signed(page, core, number)
}

/// Puts the number nearest to 0 that is equal to this one modulo the size of the core; of two as near, the positive
/// one.
pub(crate) fn put_signed<A: Allocator>(
    page: &mut Vec<u8, A>,
    core: u16,
    number: u16,
) -> Result<(), AllocError>
    ensures { OnOk result (page.new.items ≡ page.old.items ++ number_text core number) }
{
    if u32::from(core) < 2 * u32::from(number) {
        page.extend_from_slice(b"-")?;
        put_number(page, u64::from(core.saturating_sub(number)))
    } else {
        put_number(page, u64::from(number))
    }
}

/// The sign of a mode. A `<` goes by its number, since the data are in an element that `</script>` would end.
fn sign_text(mode: Mode) -> &'static str
    ensures { result.now ≡ sign_text mode }
{
    match mode {
        Mode::BPre => "\\u003c",
        _ => mode_text(mode),
    }
}
