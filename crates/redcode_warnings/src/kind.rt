//! The kinds of warnings.

/// What is probably wrong with a source that may assemble.
#[derive(Clone, Copy, Debug, PartialEq, Eq)]
pub enum WarningKind {
    /// A line of names alone, with a label that nothing uses, one slip from an operation's name or another reserved word.
    UnusedLabel,
    /// A line of names alone, with another label that nothing uses.
    NamesAlone,
    /// A title that is cut, or has bytes that can't be printed.
    ChangedTitle,
    /// No `;name`, or an empty one.
    NoName,
    /// No `;author`, or an empty one.
    NoAuthor,
    /// No `;assert`.
    NoAssert,
    /// An instruction after `END`.
    CodeAfterEnd,
    /// A label for the start that nothing uses, where the warrior starts elsewhere.
    NoStart,
    /// A start that an `ORG` overrules.
    StartOverruled,
    /// An `EQU` whose name nothing uses.
    UnusedEqu,
}

impl WarningKind {
    ghost use Rattle.std.specs.Prelude.{◌≡◌};
    ghost use Rattle.redcode_warnings.specs.Kind.{kind_name};

    /// The kind's name, as it stands in what `koth check` writes.
    pub fn name(self) -> &'static str
        ensures { result.now ≡ kind_name self }
    {
        match self {
            WarningKind::UnusedLabel => "UnusedLabel",
            WarningKind::NamesAlone => "NamesAlone",
            WarningKind::ChangedTitle => "ChangedTitle",
            WarningKind::NoName => "NoName",
            WarningKind::NoAuthor => "NoAuthor",
            WarningKind::NoAssert => "NoAssert",
            WarningKind::CodeAfterEnd => "CodeAfterEnd",
            WarningKind::NoStart => "NoStart",
            WarningKind::StartOverruled => "StartOverruled",
            WarningKind::UnusedEqu => "UnusedEqu",
        }
    }
}
