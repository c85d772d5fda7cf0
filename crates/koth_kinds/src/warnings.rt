//! What warnings mean.

ghost use Rattle.std.specs.Prelude.{◌≡◌};
ghost use Rattle.koth_kinds.specs.declared.kind.Kind.{Kind};

use crate::kind::Kind;
use crate::meaning::{Examples, Meaning};
use redcode_warnings::WarningKind;

const NO_NAME: Meaning = Meaning {
    kind: Kind::Warning(WarningKind::NoName),
    when: "no `;name` is read, or the last one is empty: the warrior is called `Unnamed`",
    examples: Some(Examples {
        earns: "    DAT 0\n",
        other: "    ;name Dwarf\n    DAT 0\n",
    }),
};

const NO_AUTHOR: Meaning = Meaning {
    kind: Kind::Warning(WarningKind::NoAuthor),
    when: "no `;author` is read, or the last one is empty: the author is called `Anonymous`",
    examples: Some(Examples {
        earns: "    DAT 0\n",
        other: "    ;author A. Writer\n    DAT 0\n",
    }),
};

const NO_ASSERT: Meaning = Meaning {
    kind: Kind::Warning(WarningKind::NoAssert),
    when: "no `;assert` is read",
    examples: Some(Examples {
        earns: "    DAT 0\n",
        other: "    ;assert CORESIZE == 8000\n    DAT 0\n",
    }),
};

const CHANGED_TITLE: Meaning = Meaning {
    kind: Kind::Warning(WarningKind::ChangedTitle),
    when: "its text has more than 48 bytes, or one that can't be printed: it is cut, or shown with `?`",
    examples: Some(Examples {
        earns: "    ;name A warrior whose name has far more than forty-eight bytes\n    DAT 0\n",
        other: "    ;name A warrior with a short name\n    DAT 0\n",
    }),
};

const START_OVERRULED: Meaning = Meaning {
    kind: Kind::Warning(WarningKind::StartOverruled),
    when: "its start has no effect, since a later `ORG`, or any in the case of `END`, gives another one",
    examples: Some(Examples {
        earns: "    ORG 1\n    DAT 0\n    MOV 0, 1\n    END 0\n",
        other: "    ORG 1\n    DAT 0\n    MOV 0, 1\n    END\n",
    }),
};

const NO_START: Meaning = Meaning {
    kind: Kind::Warning(WarningKind::NoStart),
    when: "nothing uses the label `start`, `go` or `boot` after an instruction, and no `ORG` or `END` gives a start",
    examples: Some(Examples {
        earns: "    DAT 0\n    start MOV 0, 1\n",
        other: "    ORG start\n    DAT 0\n    start MOV 0, 1\n",
    }),
};

const UNUSED_LABEL: Meaning = Meaning {
    kind: Kind::Warning(WarningKind::UnusedLabel),
    when: "a line has only names, and nothing uses one that is one slip from an operation or another reserved word",
    examples: Some(Examples {
        earns: "    MVO\n    DAT 0\n",
        other: "    MOV 0, 1\n    DAT 0\n",
    }),
};

const NAMES_ALONE: Meaning = Meaning {
    kind: Kind::Warning(WarningKind::NamesAlone),
    when: "a line has only names, as `goto start`, and nothing uses one of them; text after `ROF` uses none",
    examples: Some(Examples {
        earns: "    loop back\n    DAT 0\n",
        other: "    loop JMP loop\n    DAT 0\n",
    }),
};

const UNUSED_EQU: Meaning = Meaning {
    kind: Kind::Warning(WarningKind::UnusedEqu),
    when: "nothing uses the name that it defines",
    examples: Some(Examples {
        earns: "    step EQU 4\n    DAT 0\n",
        other: "    step EQU 4\n    DAT step\n",
    }),
};

const CODE_AFTER_END: Meaning = Meaning {
    kind: Kind::Warning(WarningKind::CodeAfterEnd),
    when: "an instruction comes after `END`",
    examples: Some(Examples {
        earns: "    DAT 0\n    END\n    MOV 0, 1\n",
        other: "    DAT 0\n    MOV 0, 1\n    END\n",
    }),
};

/// What a warning means.
pub(crate) fn warning(kind: WarningKind) -> Meaning
    ensures { result.kind ≡ Kind.Warning kind }
{
    match kind {
        WarningKind::NoName => NO_NAME,
        WarningKind::NoAuthor => NO_AUTHOR,
        WarningKind::NoAssert => NO_ASSERT,
        WarningKind::ChangedTitle => CHANGED_TITLE,
        WarningKind::StartOverruled => START_OVERRULED,
        WarningKind::NoStart => NO_START,
        WarningKind::UnusedLabel => UNUSED_LABEL,
        WarningKind::NamesAlone => NAMES_ALONE,
        WarningKind::UnusedEqu => UNUSED_EQU,
        WarningKind::CodeAfterEnd => CODE_AFTER_END,
    }
}
