//! The operators of an expression, and what they make of values.

ghost use Rattle.std.specs.Prelude.{◌≡◌};
ghost use Rattle.redcode_text.specs.Operators.{rank_of, applied, operated, negated, denied, truth, is_true};

use war_types::ExprFault;

/// The value of an expression, or its fault.
pub(crate) type Value = Result<i64, ExprFault>;

/// An operator that may stand between two operands.
#[derive(Clone, Copy, PartialEq, Eq)]
pub(crate) enum Operator {
    Times,
    Divide,
    Remainder,
    Plus,
    Minus,
    Less,
    Greater,
    AtMost,
    AtLeast,
    Equal,
    NotEqual,
    And,
    Or,
}

/// How loosely the operator binds: 1 for `*`, up to 6 for `||`.
pub(crate) fn rank_of(operator: Operator) -> u8
    ensures { result ≡ rank_of operator }
{
    match operator {
        Operator::Times | Operator::Divide | Operator::Remainder => 1,
        Operator::Plus | Operator::Minus => 2,
        Operator::Less | Operator::Greater | Operator::AtMost | Operator::AtLeast => 3,
        Operator::Equal | Operator::NotEqual => 4,
        Operator::And => 5,
        Operator::Or => 6,
    }
}

/// The operator on two values: the left one's fault, else the right one's, else its own.
pub(crate) fn applied(operator: Operator, left: Value, right: Value) -> Value
    ensures { result ≡ applied operator left right }
{
    operated(operator, left?, right?)
}

fn operated(operator: Operator, left: i64, right: i64) -> Value
    ensures { result ≡ operated operator left right }
{
    match operator {
        Operator::Times => left.checked_mul(right).ok_or(ExprFault::Overflow),
        Operator::Divide | Operator::Remainder if right == 0 => Err(ExprFault::DivideByZero),
        Operator::Divide => left.checked_div(right).ok_or(ExprFault::Overflow),
        Operator::Remainder => Ok(left.wrapping_rem(right)),
        Operator::Plus => left.checked_add(right).ok_or(ExprFault::Overflow),
        Operator::Minus => left.checked_sub(right).ok_or(ExprFault::Overflow),
        Operator::Less => Ok(truth(left < right)),
        Operator::Greater => Ok(truth(left > right)),
        Operator::AtMost => Ok(truth(left <= right)),
        Operator::AtLeast => Ok(truth(left >= right)),
        Operator::Equal => Ok(truth(left == right)),
        Operator::NotEqual => Ok(truth(left != right)),
        Operator::And => Ok(truth(left != 0 && right != 0)),
        Operator::Or => Ok(truth(left != 0 || right != 0)),
    }
}

/// Minus a value.
pub(crate) fn negated(value: Value) -> Value
    ensures { result ≡ negated value }
{
    value?.checked_neg().ok_or(ExprFault::Overflow)
}

/// Whether a value is 0, as a truth value.
pub(crate) fn denied(value: Value) -> Value
    ensures { result ≡ denied value }
{
    Ok(truth(value? == 0))
}

fn truth(holds: bool) -> i64
    ensures { result ≡ truth holds }
{
    i64::from(holds)
}
