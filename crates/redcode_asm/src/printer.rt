//! The load text of a warrior.

ghost use Rattle.std.specs.{Prelude.{◌≡◌, All}, Result.IfOk};
ghost use Rattle.{war_types.specs.Warrior.HasNumbersBelow, redcode_asm.specs.{RoundTrip.AssemblesTo, LoadText.load_text}};

use itoa::Buffer;
use redcode_statement::append_line;
use std::alloc::{AllocError, Allocator};
use war_types::Warrior;

/// The load text of a warrior: its start and its code, without its name and its author. The numbers are below this core
/// size. It fails only when memory runs out.
#[tactic(auto, unfolding(crate::specs::LoadText::load_text))]
pub fn load_text<A: Allocator + Copy, B: Allocator>(
    alloc: A,
    warrior: &Warrior<B>,
    core: u16,
) -> Result<Vec<u8, A>, AllocError>
    requires { All (HasNumbersBelow core) warrior.now.code }
    ensures text { IfOk result (λ text. text.items ≡ load_text core warrior.now) }
    // Under settings of this core size that the warrior fits, the text assembles to its code and start again.
    ensures reads_back { IfOk result (λ text. AssemblesTo core text.items warrior.now) }
{
    let mut text = Vec::from_slice(alloc, b"ORG ")?;
    text.extend_from_slice(Buffer::new().format(warrior.start()).as_bytes())?;
    text.extend_from_slice(b"\n")?;
    for instr in warrior.code() {
        append_line(&mut text, instr, core)?;
    }
    text.extend_from_slice(b"END\n")?;
    Ok(text)
}
