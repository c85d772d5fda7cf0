//! Why a source is refused.

ghost use Rattle.std.specs.Prelude.{◌≡◌};

use std::alloc::{AllocError, AllocFailed};
use std::fmt::{self, Display, Formatter, Write};
use thiserror::Error;

/// What is wrong with an expression.
#[derive(Clone, Copy, Debug, PartialEq, Eq, Error)]
pub enum ExprFault {
    /// There is no expression, or its parts don't make one.
    #[error("BadExpression")]
    BadExpression,
    /// A name that nothing defines.
    #[error("UnknownName")]
    UnknownName,
    /// A division by 0, or a remainder of one.
    #[error("DivideByZero")]
    DivideByZero,
    /// A number or a result that is no 64-bit signed number.
    #[error("Overflow")]
    Overflow,
}

impl ExprFault {
    ghost use Rattle.war_types.specs.Fault.{expr_fault_name};

    /// The fault's name, as it stands in a refusal.
    pub fn name(self) -> &'static str
        ensures { result.now ≡ expr_fault_name self }
    {
        match self {
            ExprFault::BadExpression => "BadExpression",
            ExprFault::UnknownName => "UnknownName",
            ExprFault::DivideByZero => "DivideByZero",
            ExprFault::Overflow => "Overflow",
        }
    }
}

/// The twenty kinds of an assembler's fault.
#[derive(Clone, Copy, Debug, PartialEq, Eq, Error)]
pub enum AsmKind {
    /// The source has more than 65,536 bytes.
    SourceTooLong,
    /// A `FOR` without its `ROF`.
    UnmatchedFor,
    /// A `ROF` without its `FOR`.
    UnmatchedRof,
    /// More than 4,096 counted lines.
    ForLimit,
    /// A label or an EQU name that is defined already.
    DuplicateName,
    /// An `EQU` without a name, without a body, or with a reserved word in it.
    BadEqu,
    /// Sixteen rounds of EQU substitution leave a name, or a list has more than 512 tokens.
    EquLimit,
    /// The count of a `FOR`.
    ForCount(ExprFault),
    /// A growth of memory was refused.
    Memory,
    /// A byte that begins no token.
    BadToken,
    /// Something other than an operation stands at the place of one.
    BadOperation,
    /// `LDP`, `STP` or `PIN`: there is no P-space.
    Pspace,
    /// A `.` without a modifier's name.
    BadModifier,
    /// An operand is missing.
    MissingOperand,
    /// The expression of an operand, of `ORG`, of `END` or of an assertion.
    Expression(ExprFault),
    /// Text after what the line may have.
    ExtraText,
    /// There is no instruction.
    Empty,
    /// There are more instructions than the settings allow.
    TooLong,
    /// The start is no instruction of the warrior.
    BadStart,
    /// An assertion doesn't hold.
    AssertFalse,
}

impl Display for AsmKind {
    fn fmt<W: Write>(&self, f: &mut Formatter<W>) -> fmt::Result {
        f.write_str(self.name())
    }
}

impl AsmKind {
    ghost use Rattle.war_types.specs.Fault.{kind_name};

    /// The kind's name, as it stands in a refusal. A kind that has an expression's fault is named for that.
    pub fn name(self) -> &'static str
        ensures { result.now ≡ kind_name self }
    {
        match self {
            AsmKind::SourceTooLong => "SourceTooLong",
            AsmKind::UnmatchedFor => "UnmatchedFor",
            AsmKind::UnmatchedRof => "UnmatchedRof",
            AsmKind::ForLimit => "ForLimit",
            AsmKind::DuplicateName => "DuplicateName",
            AsmKind::BadEqu => "BadEqu",
            AsmKind::EquLimit => "EquLimit",
            AsmKind::ForCount(fault) | AsmKind::Expression(fault) => fault.name(),
            AsmKind::Memory => "Memory",
            AsmKind::BadToken => "BadToken",
            AsmKind::BadOperation => "BadOperation",
            AsmKind::Pspace => "Pspace",
            AsmKind::BadModifier => "BadModifier",
            AsmKind::MissingOperand => "MissingOperand",
            AsmKind::ExtraText => "ExtraText",
            AsmKind::Empty => "Empty",
            AsmKind::TooLong => "TooLong",
            AsmKind::BadStart => "BadStart",
            AsmKind::AssertFalse => "AssertFalse",
        }
    }
}

/// A source's refusal: its kind, and the line that it names, counted from 1. The line is 0 if none is to blame.
#[derive(Clone, Copy, Debug, PartialEq, Eq, Error)]
#[error("{line} {kind}")]
pub struct AsmFault {
    pub line: u32,
    pub kind: AsmKind,
}

impl AsmFault {
    /// The refusal when memory runs out.
    pub const MEMORY: AsmFault = AsmFault {
        line: 0,
        kind: AsmKind::Memory,
    };
}

impl From<AllocError> for AsmFault {
    ghost use Rattle.std.specs.Prelude.{◌≡◌};
    ghost use Rattle.war_types.specs.Fault.{no_memory};

    ghost from_gives = { λ _ fault. fault ≡ no_memory };

    fn from(_error: AllocError) -> AsmFault {
        AsmFault::MEMORY
    }
}

impl<T: Drop> From<AllocFailed<T>> for AsmFault {
    ghost use Rattle.std.specs.Prelude.{◌≡◌};
    ghost use Rattle.war_types.specs.Fault.{no_memory};

    ghost from_gives = { λ _ fault. fault ≡ no_memory };

    fn from(_error: AllocFailed<T>) -> AsmFault {
        AsmFault::MEMORY
    }
}
