//! The sentences of warnings.

use crate::finding::Finding;
use crate::kind::WarningKind;
use crate::near::near_word;
use std::alloc::{AllocError, Allocator};
use war_types::Title;

// The sentences of findings, and the longest parts of those in which a word of the source stands.
const NO_NAME: &[u8] = b"there is no `;name`, so the warrior is called Unnamed";

const NAME_UNREAD: &[u8] = b"no `;name` with a text is read, so the warrior is called Unnamed";

const NO_AUTHOR: &[u8] = b"there is no `;author`, so the author is called Anonymous";

const AUTHOR_UNREAD: &[u8] = b"no `;author` with a text is read, so the author is called Anonymous";

const NO_ASSERT: &[u8] =
    b"there is no `;assert` that says which settings this is for, as `;assert CORESIZE == 8000`";

const ASSERT_UNREAD: &[u8] =
    b"no `;assert` is read that says which settings this is for, as `;assert CORESIZE == 8000`";

const CODE_AFTER_END: &[u8] = b"this instruction stands after `END`, and isn't read";

const UNUSED_LABEL: &[u8] = b"` is a label that nothing uses; did you mean `";

const NAMES_ALONE: &[u8] = b"this line has names alone, and nothing uses the label `";

const CHANGED_TITLE: &[u8] =
    b"a title has 48 printable characters of ASCII at most; this one becomes `";

const NO_START: &[u8] =
    b"no `ORG` or `END` gives a start, so the warrior starts at its first instruction, and not at `";

const NO_START_END: &[u8] = b"`, which nothing uses";

const START_OVERRULED: &[u8] = b" `ORG` gives the start, so this one has no effect";

const UNUSED_EQU: &[u8] = b"`, which this `EQU` defines";

/// The sentence of a finding in a source.
pub(crate) fn sentence_of<A: Allocator + Copy>(
    alloc: A,
    source: &[u8],
    finding: &Finding<'_>,
) -> Result<Vec<u8, A>, AllocError> {
    match finding.kind {
        WarningKind::UnusedLabel => unused_label(alloc, finding.text),
        WarningKind::NamesAlone => names_alone(alloc, finding.text),
        WarningKind::ChangedTitle => changed_title(alloc, finding.text),
        WarningKind::NoName => {
            let said = either(source, b";name", NAME_UNREAD, NO_NAME);
            Vec::from_slice(alloc, said)
        }
        WarningKind::NoAuthor => {
            let said = either(source, b";author", AUTHOR_UNREAD, NO_AUTHOR);
            Vec::from_slice(alloc, said)
        }
        WarningKind::NoAssert => {
            let said = either(source, b";assert", ASSERT_UNREAD, NO_ASSERT);
            Vec::from_slice(alloc, said)
        }
        WarningKind::CodeAfterEnd => Vec::from_slice(alloc, CODE_AFTER_END),
        WarningKind::NoStart => joined(alloc, &[NO_START, finding.text, NO_START_END]),
        WarningKind::StartOverruled => joined(alloc, &[finding.text, START_OVERRULED]),
        WarningKind::UnusedEqu => joined(alloc, &[b"nothing uses `", finding.text, UNUSED_EQU]),
    }
}

/// What is said if a word stands somewhere in a source, in any letter case, and what is said if it doesn't.
fn either(
    source: &[u8],
    word: &[u8],
    said: &'static [u8],
    otherwise: &'static [u8],
) -> &'static [u8] {
    for i in 0..source.len() {
        let rest = &source[i..];
        if rest.len() >= word.len() && rest[..word.len()].eq_ignore_ascii_case(word) {
            return said;
        }
    }
    otherwise
}

/// A label that nothing uses, and what was probably meant.
fn unused_label<A: Allocator>(alloc: A, label: &[u8]) -> Result<Vec<u8, A>, AllocError> {
    joined(alloc, &[b"`", label, UNUSED_LABEL, meant_by(label), b"`?"])
}

/// The word that was probably meant by a label.
fn meant_by(label: &[u8]) -> &[u8] {
    near_word(label).unwrap_or("").as_bytes()
}

/// A label on a line of names alone.
fn names_alone<A: Allocator>(alloc: A, label: &[u8]) -> Result<Vec<u8, A>, AllocError> {
    joined(
        alloc,
        &[NAMES_ALONE, label, b"`; an operation was probably meant"],
    )
}

/// How a title reads that is changed.
fn changed_title<A: Allocator>(alloc: A, text: &[u8]) -> Result<Vec<u8, A>, AllocError> {
    let title = Title::new(text, "Unnamed");
    joined(alloc, &[CHANGED_TITLE, title.bytes(), b"`"])
}

/// These parts, one after the other.
fn joined<A: Allocator>(alloc: A, parts: &[&[u8]]) -> Result<Vec<u8, A>, AllocError> {
    let mut sentence = Vec::new(alloc);
    for part in parts {
        sentence.extend_from_slice(part)?;
    }
    Ok(sentence)
}
