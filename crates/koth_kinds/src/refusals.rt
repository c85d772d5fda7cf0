//! What refusals mean, but for those of expressions.

ghost use Rattle.std.specs.Prelude.{◌≡◌};
ghost use Rattle.koth_kinds.specs.declared.kind.Kind.{Kind};

use crate::counts::{count, expression};
use crate::kind::Kind;
use crate::meaning::{Examples, Meaning};
use war_types::AsmKind;

const SOURCE_TOO_LONG: Meaning = Meaning {
    kind: Kind::Refusal(AsmKind::SourceTooLong),
    when: "the source has more than 65,536 bytes",
    examples: Some(Examples {
        earns: "    (65537 empty lines)\n",
        other: "    DAT 0\n",
    }),
};

const UNMATCHED_FOR: Meaning = Meaning {
    kind: Kind::Refusal(AsmKind::UnmatchedFor),
    when: "no `ROF` after it belongs to it, whatever its count",
    examples: Some(Examples {
        earns: "    FOR\n",
        other: "    FOR 2\n    DAT 0\n    ROF\n",
    }),
};

const UNMATCHED_ROF: Meaning = Meaning {
    kind: Kind::Refusal(AsmKind::UnmatchedRof),
    when: "no `FOR` before it is open",
    examples: Some(Examples {
        earns: "    ROF\n",
        other: "    FOR 2\n    DAT 0\n    ROF\n",
    }),
};

const FOR_LIMIT: Meaning = Meaning {
    kind: Kind::Refusal(AsmKind::ForLimit),
    when: "more than 4,096 lines count, those of all copies together",
    examples: Some(Examples {
        earns: "    FOR 4097\n    ROF\n",
        other: "    FOR 4095\n    ROF\n    DAT 0\n",
    }),
};

const DUPLICATE_NAME: Meaning = Meaning {
    kind: Kind::Refusal(AsmKind::DuplicateName),
    when: "a label or the name of an `EQU` a second time, or a predefined name as one of these",
    examples: Some(Examples {
        earns: "    x\n    x\n",
        other: "    x DAT y\n    y DAT x\n",
    }),
};

const BAD_EQU: Meaning = Meaning {
    kind: Kind::Refusal(AsmKind::BadEqu),
    when: "it has no name or no body, or a reserved word is in its body",
    examples: Some(Examples {
        earns: "    EQU\n",
        other: "    x EQU 4+1\n    DAT x\n",
    }),
};

const EQU_LIMIT: Meaning = Meaning {
    kind: Kind::Refusal(AsmKind::EquLimit),
    when: "more than 512 tokens in its count, operands or expression, or the name of an `EQU` that 16 rounds have left",
    examples: Some(Examples {
        earns: "    a EQU a\n    DAT a\n",
        other: "    a EQU 4\n    DAT a\n",
    }),
};

const MEMORY: Meaning = Meaning {
    kind: Kind::Refusal(AsmKind::Memory),
    when: "the system has no memory for the assembly",
    examples: None,
};

const BAD_TOKEN: Meaning = Meaning {
    kind: Kind::Refusal(AsmKind::BadToken),
    when: "a character that begins no token",
    examples: Some(Examples {
        earns: "    =\n",
        other: "    DAT 0 ; =\n",
    }),
};

const BAD_OPERATION: Meaning = Meaning {
    kind: Kind::Refusal(AsmKind::BadOperation),
    when: "something else than an operation follows the labels",
    examples: Some(Examples {
        earns: "    +\n",
        other: "    ADD 0, 1\n",
    }),
};

const PSPACE: Meaning = Meaning {
    kind: Kind::Refusal(AsmKind::Pspace),
    when: "`LDP`, `STP` or `PIN`: there is no P-space here",
    examples: Some(Examples {
        earns: "    PIN\n",
        other: "    MOV 0, 1\n",
    }),
};

const BAD_MODIFIER: Meaning = Meaning {
    kind: Kind::Refusal(AsmKind::BadModifier),
    when: "no modifier's name follows the `.`",
    examples: Some(Examples {
        earns: "    NOP.\n",
        other: "    NOP.A\n",
    }),
};

const MISSING_OPERAND: Meaning = Meaning {
    kind: Kind::Refusal(AsmKind::MissingOperand),
    when: "an operation other than `DAT` and `NOP`, or `ORG`, has no operand; or nothing is on one side of the comma",
    examples: Some(Examples {
        earns: "    JMP\n",
        other: "    JMP 0\n",
    }),
};

const EXTRA_TEXT: Meaning = Meaning {
    kind: Kind::Refusal(AsmKind::ExtraText),
    when: "a second comma; in `ORG`, `END` and `;assert` a first one",
    examples: Some(Examples {
        earns: "    ORG 0,\n",
        other: "    ORG 0\n    DAT 0\n",
    }),
};

const EMPTY: Meaning = Meaning {
    kind: Kind::Refusal(AsmKind::Empty),
    when: "there is no instruction",
    examples: Some(Examples {
        earns: "    (no line)\n",
        other: "    DAT 0\n",
    }),
};

const TOO_LONG: Meaning = Meaning {
    kind: Kind::Refusal(AsmKind::TooLong),
    when: "there are more instructions than the settings allow, 100 by default",
    examples: Some(Examples {
        earns: "    (101 lines DAT 0)\n",
        other: "    (100 lines DAT 0)\n",
    }),
};

const BAD_START: Meaning = Meaning {
    kind: Kind::Refusal(AsmKind::BadStart),
    when: "the start is negative, or no instruction of the warrior",
    examples: Some(Examples {
        earns: "    DAT\n    END 1\n",
        other: "    DAT\n    END 0\n",
    }),
};

const ASSERT_FALSE: Meaning = Meaning {
    kind: Kind::Refusal(AsmKind::AssertFalse),
    when: "the value of an assertion is 0",
    examples: Some(Examples {
        earns: "    DAT\n    ;assert 0\n",
        other: "    DAT\n    ;assert 1\n",
    }),
};

/// What a refusal means.
pub(crate) fn refusal(kind: AsmKind) -> Meaning
    ensures { result.kind ≡ Kind.Refusal kind }
{
    match kind {
        AsmKind::SourceTooLong => SOURCE_TOO_LONG,
        AsmKind::UnmatchedFor => UNMATCHED_FOR,
        AsmKind::UnmatchedRof => UNMATCHED_ROF,
        AsmKind::ForLimit => FOR_LIMIT,
        AsmKind::DuplicateName => DUPLICATE_NAME,
        AsmKind::BadEqu => BAD_EQU,
        AsmKind::EquLimit => EQU_LIMIT,
        AsmKind::Memory => MEMORY,
        AsmKind::BadToken => BAD_TOKEN,
        AsmKind::BadOperation => BAD_OPERATION,
        AsmKind::Pspace => PSPACE,
        AsmKind::BadModifier => BAD_MODIFIER,
        AsmKind::MissingOperand => MISSING_OPERAND,
        AsmKind::ExtraText => EXTRA_TEXT,
        AsmKind::Empty => EMPTY,
        AsmKind::TooLong => TOO_LONG,
        AsmKind::BadStart => BAD_START,
        AsmKind::AssertFalse => ASSERT_FALSE,
        AsmKind::ForCount(fault) => count(fault),
        AsmKind::Expression(fault) => expression(fault),
    }
}
