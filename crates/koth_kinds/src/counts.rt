//! What refusals of expressions mean: of the count of a `FOR`, and of all others.

ghost use Rattle.std.specs.Prelude.{◌≡◌};
ghost use Rattle.{war_types.specs.declared.fault.AsmKind.{AsmKind}, koth_kinds.specs.declared.kind.Kind.{Kind}};

use crate::kind::Kind;
use crate::meaning::{Examples, Meaning};
use war_types::{AsmKind, ExprFault};

const COUNT_BAD_EXPRESSION: Meaning = Meaning {
    kind: Kind::Refusal(AsmKind::ForCount(ExprFault::BadExpression)),
    when: "its count is no expression",
    examples: Some(Examples {
        earns: "    FOR\n    ROF\n",
        other: "    FOR 1\n    DAT 0\n    ROF\n",
    }),
};

const COUNT_UNKNOWN_NAME: Meaning = Meaning {
    kind: Kind::Refusal(AsmKind::ForCount(ExprFault::UnknownName)),
    when: "a name in its count that no line before it has defined by an `EQU` and that is not predefined",
    examples: Some(Examples {
        earns: "    FOR x\n    ROF\n",
        other: "    x EQU 2\n    FOR x\n    DAT 0\n    ROF\n",
    }),
};

const COUNT_DIVIDE_BY_ZERO: Meaning = Meaning {
    kind: Kind::Refusal(AsmKind::ForCount(ExprFault::DivideByZero)),
    when: "in its count, a division by 0, or a remainder of one",
    examples: Some(Examples {
        earns: "    FOR 1/0\n    ROF\n",
        other: "    FOR 4/2\n    DAT 0\n    ROF\n",
    }),
};

const COUNT_OVERFLOW: Meaning = Meaning {
    kind: Kind::Refusal(AsmKind::ForCount(ExprFault::Overflow)),
    when: "in its count, a number or a result that is no 64-bit signed number",
    examples: Some(Examples {
        earns: "    FOR 9223372036854775808\n    ROF\n",
        other: "    FOR 9223372036854775807*0\n    ROF\n    DAT 0\n",
    }),
};

const BAD_EXPRESSION: Meaning = Meaning {
    kind: Kind::Refusal(AsmKind::Expression(ExprFault::BadExpression)),
    when: "there is no expression where one is needed, or a value has over 64 parentheses, signs and `!` around it",
    examples: Some(Examples {
        earns: "    DAT #\n",
        other: "    DAT #0\n",
    }),
};

const UNKNOWN_NAME: Meaning = Meaning {
    kind: Kind::Refusal(AsmKind::Expression(ExprFault::UnknownName)),
    when: "a name that is no label and not predefined",
    examples: Some(Examples {
        earns: "    DAT x\n",
        other: "    x DAT x\n",
    }),
};

const DIVIDE_BY_ZERO: Meaning = Meaning {
    kind: Kind::Refusal(AsmKind::Expression(ExprFault::DivideByZero)),
    when: "a division by 0, or a remainder of one",
    examples: Some(Examples {
        earns: "    DAT 1/0\n",
        other: "    DAT 0/1\n",
    }),
};

const OVERFLOW: Meaning = Meaning {
    kind: Kind::Refusal(AsmKind::Expression(ExprFault::Overflow)),
    when: "a number past 9223372036854775807, or a result that is no 64-bit signed number",
    examples: Some(Examples {
        earns: "    DAT 9223372036854775808\n",
        other: "    DAT 9223372036854775807\n",
    }),
};

/// What a refusal of a count means.
pub(crate) fn count(fault: ExprFault) -> Meaning
    ensures { result.kind ≡ Kind.Refusal (AsmKind.ForCount fault) }
{
    match fault {
        ExprFault::BadExpression => COUNT_BAD_EXPRESSION,
        ExprFault::UnknownName => COUNT_UNKNOWN_NAME,
        ExprFault::DivideByZero => COUNT_DIVIDE_BY_ZERO,
        ExprFault::Overflow => COUNT_OVERFLOW,
    }
}

/// What a refusal of any other expression means.
pub(crate) fn expression(fault: ExprFault) -> Meaning
    ensures { result.kind ≡ Kind.Refusal (AsmKind.Expression fault) }
{
    match fault {
        ExprFault::BadExpression => BAD_EXPRESSION,
        ExprFault::UnknownName => UNKNOWN_NAME,
        ExprFault::DivideByZero => DIVIDE_BY_ZERO,
        ExprFault::Overflow => OVERFLOW,
    }
}
