//! Names, turns and instructions as a sentence has them.

ghost use Rattle.std.specs.Prelude.{◌≡◌, ◌+◌, ◌≤◌, ◌++◌, length, codes, decimal, OnOk};
ghost use Rattle.koth_watch.specs.Shown.{instruction_shown, mode_sign, name_text, operand_shown, operation_shown, turn_link, turn_named, turn_words};

use crate::instruction::put_signed;
use koth_text::Piece::Text;
use koth_text::{Line, put_all, put_escaped, put_line};
use redcode_text::{mode_text, modifier_text, op_text};
use std::alloc::{AllocError, Allocator};
use war_types::{Instr, Mode};

/// Where a sentence is.
#[derive(Clone, Copy)]
pub enum Form {
    /// In a text for people.
    Plain,
    /// In a page, with its turns as links.
    Page,
}

/// Puts a name.
pub(crate) fn put_name<A: Allocator>(
    text: &mut Vec<u8, A>,
    form: Form,
    name: &[u8],
) -> Result<(), AllocError>
    ensures { OnOk result (text.new.items ≡ text.old.items ++ name_text form name.now) }
{
    match form {
        Form::Plain => text.extend_from_slice(name),
        Form::Page => put_escaped(text, name),
    }
}

/// Puts a turn by its number.
pub(crate) fn put_turn<A: Allocator>(
    text: &mut Vec<u8, A>,
    form: Form,
    turn: u32,
) -> Result<(), AllocError>
    ensures { OnOk result (text.new.items ≡ text.old.items ++ turn_named form turn) }
{
    match form {
        Form::Plain => put_line(text, turn_line(turn)),
        Form::Page => put_line(text, link_line(turn)),
    }
}

#[tactic(auto, unfolding(crate::specs::Shown::turn_words))]
fn turn_line(turn: u32) -> Line
    ensures { result ≡ turn_words turn }
{
    let mut line = Line::new();
    line.put(b"turn ");
    line.put_number(u64::from(turn));
    line
}

#[tactic(auto, unfolding(crate::specs::Shown::turn_link))]
fn link_line(turn: u32) -> Line
    ensures { result ≡ turn_link turn }
{
    let mut line = Line::new();
    line.put(b"<a href=\"#");
    line.put_number(u64::from(turn));
    line.put(b"\">turn ");
    line.put_number(u64::from(turn));
    line.put(b"</a>");
    line
}

/// Puts an instruction of a core of this size. The error is lack of memory.
#[tactic(auto, unfolding(crate::specs::Shown::instruction_shown))]
pub fn put_shown<A: Allocator>(
    text: &mut Vec<u8, A>,
    form: Form,
    core: u16,
    instr: Instr,
) -> Result<(), AllocError>
    ensures { OnOk result (text.new.items ≡ text.old.items ++ instruction_shown form core instr) }
{
    put_operation(text, instr)?;
    put_operand(text, form, core, instr.a_mode, instr.a)?;
    text.extend_from_slice(b", ")?;
    put_operand(text, form, core, instr.b_mode, instr.b)
}

#[tactic(auto, unfolding(crate::specs::Shown::operation_shown))]
fn put_operation<A: Allocator>(text: &mut Vec<u8, A>, instr: Instr) -> Result<(), AllocError>
    ensures { OnOk result (text.new.items ≡ text.old.items ++ operation_shown instr) }
{
    let op = op_text(instr.op).as_bytes();
    let modifier = modifier_text(instr.modifier).as_bytes();
    put_all(text, &[Text(op), Text(b"."), Text(modifier), Text(b" ")])
}

#[tactic(auto, unfolding(crate::specs::Shown::operand_shown))]
fn put_operand<A: Allocator>(
    text: &mut Vec<u8, A>,
    form: Form,
    core: u16,
    mode: Mode,
    number: u16,
) -> Result<(), AllocError>
    ensures { OnOk result (text.new.items ≡ text.old.items ++ operand_shown form core mode number) }
{
    text.extend_from_slice(mode_sign(form, mode).as_bytes())?;
    put_signed(text, core, number)
}

/// The sign of a mode, in a page by a reference where HTML gives it a meaning.
fn mode_sign(form: Form, mode: Mode) -> &'static str
    ensures { result.now ≡ mode_sign form mode }
{
    match (form, mode) {
        (Form::Page, Mode::BPre) => "&lt;",
        (Form::Page, Mode::BPost) => "&gt;",
        _ => mode_text(mode),
    }
}
