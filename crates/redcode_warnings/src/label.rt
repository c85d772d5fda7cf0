//! Labels and names of `EQU` lines that nothing uses.

ghost use Rattle.std.specs.Prelude.{◌≡◌, None, is_some, length, option_map};
ghost use Rattle.{redcode_text.specs.Tokens.{pieces, piece_of}, redcode_lines.specs.Views.line_read};
ghost use Rattle.redcode_warnings.specs.{Label.{alone_warning, ends_with_digit, first_warning, is_unused, is_unused_equ, is_unused_name, label_warning, labels_in, labels_warning, last_name, near_word, unused_warning}, Views.has_name};

use crate::kind::WarningKind;
use crate::named::{NameSet, has_name};
use crate::near::near_word;
use crate::start::is_start_name;
use redcode_lines::{LineForm, Reading, has_and, is_name};
use redcode_text::{Token, Word};
use std::alloc::Allocator;

/// A label, and its warning.
pub(crate) type Warned<'s> = (WarningKind, Token<'s>);

/// The first label of a line that has a warning, and that. `is_late` is whether the line comes after the one at which the warrior starts.
pub(crate) fn labels_warning<'s, A: Allocator>(
    named: &NameSet<'_, A>,
    is_late: bool,
    line: &Reading<'_, 's>,
) -> Option<Warned<'s>>
    ensures { option_map (λ warned. warned.0) result ≡ labels_warning (has_name named.now) is_late (line_read line.now) }
{
    first_warning(named, is_late, line.word.is_none(), labels_in(line))
}

/// The labels of a line that may have a warning.
fn labels_in<'l, 's>(line: &Reading<'l, 's>) -> &'l [Token<'s>]
    ensures { pieces result.now ≡ labels_in line.now.form (line_read line.now) }
{
    match (line.form, line.word) {
        (LineForm::Statement, None) if line.behind_labels().is_empty() => line.tokens,
        (LineForm::Statement, Some(Word::Equ | Word::For)) => &[],
        (LineForm::Statement, Some(_)) if !has_and(line.front) => line.front,
        _ => &[],
    }
}

/// The first of these labels that has a warning, and that. They stand on a line of names alone, or don't.
fn first_warning<'s, A: Allocator>(
    named: &NameSet<'_, A>,
    is_late: bool,
    are_alone: bool,
    labels: &[Token<'s>],
) -> Option<Warned<'s>>
    ensures { option_map (λ warned. warned.0) result ≡ first_warning (has_name named.now) is_late are_alone (pieces labels.now) }
{
    let mut rest = labels;
    while let [label, behind @ ..] = rest {
        if let Some(kind) = label_warning(named, is_late, are_alone, label) {
            return Some((kind, *label));
        }
        rest = behind;
    }
    None
}

/// The warning of a label that nothing uses.
fn label_warning<A: Allocator>(
    named: &NameSet<'_, A>,
    is_late: bool,
    is_alone: bool,
    label: &Token<'_>,
) -> Option<WarningKind>
    ensures { result ≡ label_warning (has_name named.now) is_late is_alone (piece_of label.now) }
{
    if is_unused(named, label) {
        unused_warning(is_late, is_alone, label.text)
    } else {
        None
    }
}

/// The warning of an unused label of this name.
fn unused_warning(is_late: bool, is_alone: bool, name: &[u8]) -> Option<WarningKind>
    ensures { result ≡ unused_warning is_late is_alone name.now }
{
    if is_late && is_start_name(name) {
        return Some(WarningKind::NoStart);
    }
    if is_alone {
        return Some(alone_warning(name));
    }
    None
}

/// The warning of an unused label of this name on a line of names alone.
fn alone_warning(name: &[u8]) -> WarningKind
    ensures { result ≡ alone_warning (near_word name.now) }
{
    match near_word(name) {
        Some(_) => WarningKind::UnusedLabel,
        None => WarningKind::NamesAlone,
    }
}

/// Whether a token is a label that no line names.
fn is_unused<A: Allocator>(named: &NameSet<'_, A>, label: &Token<'_>) -> bool
    ensures { result ≡ is_unused (has_name named.now) (piece_of label.now) }
{
    is_name(label) && !ends_with_digit(label.text) && !has_name(named, label.text)
}

/// Whether a name ends with a digit, as one does that copies join.
fn ends_with_digit(name: &[u8]) -> bool
    ensures { result ≡ ends_with_digit name.now }
{
    match name {
        [.., last] => last.is_ascii_digit(),
        [] => false,
    }
}

/// The name of an `EQU` line, if no line names it.
pub(crate) fn unused_equ<'s, A: Allocator>(
    named: &NameSet<'_, A>,
    line: &Reading<'_, 's>,
) -> Option<Token<'s>>
    ensures { is_some result ≡ is_unused_equ (has_name named.now) (line_read line.now) }
{
    match line.word {
        Some(Word::Equ) if !has_and(line.front) => if_unused(named, last_name(line.front)),
        _ => None,
    }
}

/// A name, if there is one and no line names it.
fn if_unused<'s, A: Allocator>(named: &NameSet<'_, A>, name: Option<Token<'s>>) -> Option<Token<'s>>
    ensures { is_some result ≡ is_unused_name (has_name named.now) (option_map (λ t. piece_of t) name.entry) }
{
    match name {
        Some(token) if is_unused(named, &token) => Some(token),
        _ => None,
    }
}

/// The last name among these tokens.
fn last_name<'s>(tokens: &[Token<'s>]) -> Option<Token<'s>>
    ensures { option_map (λ t. piece_of t) result ≡ last_name None (pieces tokens.now) }
{
    let mut found = None;
    let mut rest = tokens;
    while let [token, behind @ ..] = rest {
        if is_name(token) {
            found = Some(*token);
        }
        rest = behind;
    }
    found
}
