//! The instruction that a line gives.

ghost use Rattle.std.specs.Prelude.{◌≡◌, ◌<◌, IfOk};
ghost use Rattle.redcode_text.specs.Tokens.{pieces};
ghost use Rattle.redcode_statement.specs.{Instruction.{default_modifier, reduced, instr_of, modifier_at, instruction_of}, Views.{read, result_map}};

use crate::operand::{Operand, operand_of, sides_of};
use redcode_lines::has_text;
use redcode_text::{Names, Token, Word, modifier_named};
use war_types::{AsmKind, Instr, Mode, Modifier, Op};

/// The instruction of a word and the tokens after it, in a core of `core` cells, or its first fault. A word that is no
/// operation of the machine is `LDP` or `STP`, and there is no P-space.
pub fn instruction_of<N: Names>(
    core: u16,
    word: Option<Word>,
    tokens: &[Token<'_>],
    names: &N,
) -> Result<Instr, AsmKind>
    requires { 0 < core }
    ensures { result ≡ instruction_of core (N.values names.now) word (pieces tokens.now) }
{
    let Some(Word::Operation(op)) = word else {
        return Err(AsmKind::Pspace);
    };
    let (modifier, behind) = modifier_at(tokens)?;
    let sides = sides_of(op, behind)?;
    let a = operand_of(sides.a, names);
    let b = operand_of(sides.b, names);
    instr_of(core, op, modifier, a, b, sides.more)
}

/// The modifier after a dot, or none if no dot stands there, and the tokens of the operands.
fn modifier_at<'t, 'l>(
    tokens: &'t [Token<'l>],
) -> Result<(Option<Modifier>, &'t [Token<'l>]), AsmKind>
    ensures { result_map read result ≡ modifier_at (pieces tokens.entry.now) }
{
    match tokens {
        [dot, name, behind @ ..] if has_text(dot, b".") => match modifier_named(name.text) {
            Some(modifier) => Ok((Some(modifier), behind)),
            None => Err(AsmKind::BadModifier),
        },
        [dot] if has_text(dot, b".") => Err(AsmKind::BadModifier),
        _ => Ok((None, tokens)),
    }
}

/// The instruction of these parts, or the first fault: the A operand's, the B operand's, or `ExtraText` if more text stands
/// after them.
fn instr_of(
    core: u16,
    op: Op,
    modifier: Option<Modifier>,
    a: Operand,
    b: Operand,
    more: bool,
) -> Result<Instr, AsmKind>
    requires { 0 < core }
    ensures { result ≡ instr_of core op modifier a b more }
{
    let a_value = a.value.map_err(AsmKind::Expression)?;
    let b_value = b.value.map_err(AsmKind::Expression)?;
    if more {
        return Err(AsmKind::ExtraText);
    }
    Ok(Instr {
        op,
        modifier: modifier.unwrap_or(default_modifier(op, a.mode, b.mode)),
        a_mode: a.mode,
        a: reduced(core, a_value),
        b_mode: b.mode,
        b: reduced(core, b_value),
    })
}

/// The modifier of an instruction that is written without one.
fn default_modifier(op: Op, a: Mode, b: Mode) -> Modifier
    ensures { result ≡ default_modifier op a b }
{
    match (op, a, b) {
        (Op::Dat | Op::Nop, _, _) => Modifier::F,
        (Op::Jmp | Op::Jmz | Op::Jmn | Op::Djn | Op::Spl, _, _) => Modifier::B,
        (_, Mode::Immediate, _) => Modifier::AB,
        (_, _, Mode::Immediate) => Modifier::B,
        (Op::Mov | Op::Seq | Op::Sne, _, _) => Modifier::I,
        (Op::Add | Op::Sub | Op::Mul | Op::Div | Op::Mdl, _, _) => Modifier::F,
        (Op::Slt, _, _) => Modifier::B,
    }
}

/// A number as an address of a core of `core` cells.
fn reduced(core: u16, value: i64) -> u16
    requires { 0 < core }
    ensures value { result ≡ reduced core value }
    ensures below { result < core }
{
    value.rem_euclid(i64::from(core)) as u16
}
