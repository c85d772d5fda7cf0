//! Expressions without a value.

use crate::blame::{Answer, Told, told_parts, told_text};
use crate::names::{first_unknown, unknown_name};
use crate::said::Part;
use crate::shape::{Shaped, no_expression, reserved_label};
use redcode_expand::LineKind;
use redcode_lines::{Span, has_text};
use redcode_scene::{
    Judged, Row, Scene, at_comma, judged_line, operand_at, operands_in, without_mode,
};
use redcode_text::{Names, Token, TokenKind, value};
use std::alloc::Allocator;
use war_types::{AsmFault, ExprFault};

/// The expression of an operand, of `ORG`, of `END` or of an assertion.
pub(crate) fn expression<'s, A: Allocator + Copy>(
    scene: &Scene<'s, A>,
    row: &Row<'_, 's>,
    fault: AsmFault,
    kind: ExprFault,
) -> Answer<'s> {
    if let Some(told) = reserved_label(scene.alloc, row)? {
        return Ok(told);
    }
    match judged_line(scene, row, fault)? {
        Some(line) => expression_on(scene, row, &line, kind),
        None => {
            let span = row.spans(operands_in(&row.reading));
            Ok(told_text(span, kind.name()))
        }
    }
}

/// The expression of a line that was judged so.
fn expression_on<'s, A: Allocator + Copy>(
    scene: &Scene<'s, A>,
    row: &Row<'_, 's>,
    line: &Judged<'_, 's, A>,
    kind: ExprFault,
) -> Answer<'s> {
    let operand = operand_at(line.operands(), is_second(line));
    let tokens = expression_in(line, operand);
    match kind {
        ExprFault::BadExpression => Ok(no_expression(scene, row, line, shaped_in(line))),
        ExprFault::DivideByZero => Ok(division_by_zero(line.spans(tokens), tokens)),
        ExprFault::Overflow => match first_too_large(tokens) {
            Some(token) => Ok(too_large(line.span(token), token)),
            None => Ok(overflow(line.spans(tokens))),
        },
        ExprFault::UnknownName => match first_unknown(operand, &line.names()) {
            Some(token) => unknown_name(scene, line, token),
            None => Ok(told_text(line.spans(operand), kind.name())),
        },
    }
}

/// The operand of a line that makes no expression.
fn shaped_in<'l, 's, A: Allocator + Copy>(line: &'l Judged<'_, 's, A>) -> Shaped<'l, 's> {
    let operands = line.operands();
    let is_second = is_second(line);
    let operand = operand_at(operands, is_second);
    Shaped {
        operand,
        tokens: expression_in(line, operand),
        may_part: is_operation(line) && at_comma(operands).is_none(),
        is_second,
    }
}

/// Whether a line is an instruction.
fn is_operation<A: Allocator + Copy>(line: &Judged<'_, '_, A>) -> bool {
    matches!(line.line.kind, LineKind::Operation)
}

/// The expression of an operand.
fn expression_in<'l, 's, A: Allocator + Copy>(
    line: &Judged<'_, '_, A>,
    operand: &'l [Token<'s>],
) -> &'l [Token<'s>] {
    if is_operation(line) {
        without_mode(operand)
    } else {
        operand
    }
}

/// Whether the first operand of a line has a value, so that the fault is the second one's.
fn is_second<A: Allocator + Copy>(line: &Judged<'_, '_, A>) -> bool {
    match at_comma(line.operands()) {
        Some(found) if is_operation(line) => {
            value(without_mode(found.before), &line.names()).is_ok()
        }
        _ => false,
    }
}

/// A division by 0 in these tokens.
pub(crate) fn division_by_zero(span: Span, tokens: &[Token<'_>]) -> Told<'static> {
    let said = match (is_among(tokens, b"/"), is_among(tokens, b"%")) {
        (true, false) => "a division by zero",
        (false, true) => "a remainder of a division by zero",
        _ => "a division by zero, or a remainder of one",
    };
    told_text(span, said)
}

/// Whether a token with this text is among these.
pub(crate) fn is_among(tokens: &[Token<'_>], text: &[u8]) -> bool {
    tokens.iter().any(|token| has_text(token, text))
}

/// A result that is too large.
pub(crate) fn overflow(span: Span) -> Told<'static> {
    told_text(span, "a result here is no 64-bit signed number")
}

/// A number that is too large.
pub(crate) fn too_large<'s>(span: Span, token: &Token<'s>) -> Told<'s> {
    let past = Part::Text(" is past the largest number, ");
    told_parts(span, Part::Word(token.text), past, Part::Number(i64::MAX))
}

/// The first of the tokens that is a number of more than 63 bits.
pub(crate) fn first_too_large<'t, 's>(tokens: &'t [Token<'s>]) -> Option<&'t Token<'s>> {
    for token in tokens {
        if is_too_large(token) {
            return Some(token);
        }
    }
    None
}

/// Names that stand for nothing.
#[derive(Clone, Copy)]
struct NoNames;

impl Names for NoNames {
    ghost use Rattle.std.specs.Prelude.{None};

    ghost values = { λ it name. None };

    fn value_of(&self, _name: &[u8]) -> Option<i64> {
        None
    }
}

/// Whether a token is a number of more than 63 bits.
fn is_too_large(token: &Token<'_>) -> bool {
    matches!(token.kind, TokenKind::Number)
        && value(&[*token], &NoNames) == Err(ExprFault::Overflow)
}
