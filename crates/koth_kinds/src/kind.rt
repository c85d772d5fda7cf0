//! The kinds.

ghost use Rattle.std.specs.Prelude.{◌≡◌, ℕ, Some, slice_get};
ghost use Rattle.koth_kinds.specs.{Kinds.{all_kinds, line_refused, line_warned}, declared.kind.Kind.Kind};

use redcode_warnings::WarningKind;
use war_types::{AsmKind, ExprFault};

/// A kind of what is found in a source.
#[derive(Clone, Copy)]
pub enum Kind {
    Refusal(AsmKind),
    Warning(WarningKind),
}

impl Kind {
    ghost use Rattle.std.specs.Prelude.{◌≡◌};
    ghost use Rattle.koth_kinds.specs.Kinds.{line_named, name_of};

    /// Its name, which two kinds share if an expression is at fault: one is of a `FOR`'s count, and one of any other.
    pub fn name(self) -> &'static str
        ensures { result.now ≡ name_of self }
    {
        match self {
            Kind::Refusal(kind) => kind.name(),
            Kind::Warning(kind) => kind.name(),
        }
    }

    /// The line that it names.
    pub fn line(self) -> &'static str
        ensures { result.now ≡ line_named self }
    {
        match self {
            Kind::Refusal(kind) => refused_line(kind),
            Kind::Warning(kind) => warned_line(kind),
        }
    }
}

/// The line that a refusal names.
fn refused_line(kind: AsmKind) -> &'static str
    ensures { result.now ≡ line_refused kind }
{
    match kind {
        AsmKind::SourceTooLong | AsmKind::Memory | AsmKind::Empty | AsmKind::TooLong => "line 0",
        AsmKind::UnmatchedFor => "the `FOR`",
        AsmKind::UnmatchedRof => "the `ROF`",
        AsmKind::ForLimit => "the line past the limit, or the `FOR` of a copy",
        AsmKind::DuplicateName => "the later line",
        AsmKind::BadEqu => "the `EQU`",
        AsmKind::EquLimit
        | AsmKind::BadToken
        | AsmKind::BadOperation
        | AsmKind::Pspace
        | AsmKind::BadModifier
        | AsmKind::MissingOperand
        | AsmKind::ExtraText
        | AsmKind::AssertFalse => "the line",
        AsmKind::BadStart => "the `ORG` or `END`",
        AsmKind::ForCount(_) => "the `FOR`",
        AsmKind::Expression(_) => "the line",
    }
}

/// The line that a warning names.
fn warned_line(kind: WarningKind) -> &'static str
    ensures { result.now ≡ line_warned kind }
{
    match kind {
        WarningKind::NoName | WarningKind::NoAuthor | WarningKind::NoAssert => "line 0",
        WarningKind::ChangedTitle => "the `;name` or `;author`",
        WarningKind::StartOverruled => "the `ORG` or `END`",
        WarningKind::NoStart | WarningKind::UnusedLabel | WarningKind::NamesAlone =>
            "the label's line",
        WarningKind::UnusedEqu => "the `EQU`",
        WarningKind::CodeAfterEnd => "the first such line",
    }
}

/// All kinds: the refusals in the order in which they are looked for, then the warnings.
const KINDS: [Kind; 36] = [
    Kind::Refusal(AsmKind::SourceTooLong),
    Kind::Refusal(AsmKind::UnmatchedFor),
    Kind::Refusal(AsmKind::UnmatchedRof),
    Kind::Refusal(AsmKind::ForLimit),
    Kind::Refusal(AsmKind::DuplicateName),
    Kind::Refusal(AsmKind::BadEqu),
    Kind::Refusal(AsmKind::EquLimit),
    Kind::Refusal(AsmKind::ForCount(ExprFault::BadExpression)),
    Kind::Refusal(AsmKind::ForCount(ExprFault::UnknownName)),
    Kind::Refusal(AsmKind::ForCount(ExprFault::DivideByZero)),
    Kind::Refusal(AsmKind::ForCount(ExprFault::Overflow)),
    Kind::Refusal(AsmKind::BadToken),
    Kind::Refusal(AsmKind::BadOperation),
    Kind::Refusal(AsmKind::Pspace),
    Kind::Refusal(AsmKind::BadModifier),
    Kind::Refusal(AsmKind::MissingOperand),
    Kind::Refusal(AsmKind::Expression(ExprFault::BadExpression)),
    Kind::Refusal(AsmKind::Expression(ExprFault::UnknownName)),
    Kind::Refusal(AsmKind::Expression(ExprFault::DivideByZero)),
    Kind::Refusal(AsmKind::Expression(ExprFault::Overflow)),
    Kind::Refusal(AsmKind::ExtraText),
    Kind::Refusal(AsmKind::Empty),
    Kind::Refusal(AsmKind::TooLong),
    Kind::Refusal(AsmKind::BadStart),
    Kind::Refusal(AsmKind::AssertFalse),
    Kind::Refusal(AsmKind::Memory),
    Kind::Warning(WarningKind::NoName),
    Kind::Warning(WarningKind::NoAuthor),
    Kind::Warning(WarningKind::NoAssert),
    Kind::Warning(WarningKind::ChangedTitle),
    Kind::Warning(WarningKind::StartOverruled),
    Kind::Warning(WarningKind::NoStart),
    Kind::Warning(WarningKind::UnusedLabel),
    Kind::Warning(WarningKind::NamesAlone),
    Kind::Warning(WarningKind::UnusedEqu),
    Kind::Warning(WarningKind::CodeAfterEnd),
];

/// All kinds: the refusals in the order in which they are looked for, then the warnings.
pub fn kinds() -> &'static [Kind]
    ensures all { result.now ≡ all_kinds }
    ensures each { (kind : Kind) → (i : ℕ) × (slice_get result.now i ≡ Some kind) }
{
    &KINDS
}
