//! The operands of an instruction: parted by commas, and each one's mode and the value of its expression.

ghost use Rattle.std.specs.Prelude.{◌≡◌};
ghost use Rattle.redcode_text.specs.Tokens.{pieces};
ghost use Rattle.redcode_statement.specs.{Operand.operand_of, Sides.{before_comma, behind_comma, without_comma, sides_of}, Views.{result_map, sides_seen, tokens_seen}};

use redcode_lines::has_text;
use redcode_text::{Names, Token, mode_named, value};
use war_types::{AsmKind, ExprFault, Mode, Op};

/// The tokens of both operands, none for an operand that is not written, and whether a second comma stands after them.
#[derive(Clone, Copy)]
pub(crate) struct Sides<'t, 'l> {
    pub a: &'t [Token<'l>],
    pub b: &'t [Token<'l>],
    pub more: bool,
}

/// The operands that an operation has in these tokens. The first comma parts A from B, even within parentheses, and
/// a second one ends B.
pub(crate) fn sides_of<'t, 'l>(op: Op, tokens: &'t [Token<'l>]) -> Result<Sides<'t, 'l>, AsmKind>
    ensures { result_map sides_seen result ≡ sides_of op (pieces tokens.entry.now) }
{
    let (a, behind) = at_comma(tokens);
    match behind {
        None => without_comma(op, a),
        Some(behind) => {
            let (b, more) = at_comma(behind);
            if a.is_empty() || b.is_empty() {
                return Err(AsmKind::MissingOperand);
            }
            let more = more.is_some();
            Ok(Sides { a, b, more })
        }
    }
}

/// The tokens before the first comma, and those after it if there is one.
pub(crate) fn at_comma<'t, 'l>(
    tokens: &'t [Token<'l>],
) -> (&'t [Token<'l>], Option<&'t [Token<'l>]>)
    ensures before { pieces result.0.now ≡ before_comma (pieces tokens.entry.now) }
    ensures behind { tokens_seen result.1 ≡ behind_comma (pieces tokens.entry.now) }
{
    // Takes no step: each line that is written out is judged once, and has 512 tokens of operands at most.
    for (i, token) in tokens.iter().enumerate() {
        if has_text(token, b",") {
            return (&tokens[..i], Some(&tokens[i + 1..]));
        }
    }
    (tokens, None)
}

/// One operand or none: DAT has one as its B operand, other operations as their A operand.
fn without_comma<'t, 'l>(op: Op, given: &'t [Token<'l>]) -> Result<Sides<'t, 'l>, AsmKind>
    ensures { result_map sides_seen result ≡ without_comma op (pieces given.entry.now) }
{
    let none = &given[..0];
    let (a, b) = match (op, given) {
        (Op::Dat | Op::Nop, []) => (none, none),
        (_, []) => return Err(AsmKind::MissingOperand),
        (Op::Dat, _) => (none, given),
        (_, _) => (given, none),
    };
    let more = false;
    Ok(Sides { a, b, more })
}

/// An operand: its mode, `$` if none is written, and the value of its expression, or what is wrong with that.
#[derive(Clone, Copy)]
pub(crate) struct Operand {
    pub mode: Mode,
    pub value: Result<i64, ExprFault>,
}

/// The operand of these tokens, `$0` if there are none.
pub(crate) fn operand_of<N: Names>(tokens: &[Token<'_>], names: &N) -> Operand
    ensures { result ≡ operand_of (N.values names.now) (pieces tokens.now) }
{
    let [first, behind @ ..] = tokens else {
        return Operand {
            mode: Mode::Direct,
            value: Ok(0),
        };
    };
    let (mode, expression) = match mode_named(first.text) {
        Some(mode) => (mode, behind),
        None => (Mode::Direct, tokens),
    };
    let value = value(expression, names);
    Operand { mode, value }
}
