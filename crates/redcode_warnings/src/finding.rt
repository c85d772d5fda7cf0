//! What is found in a source, in the order of its lines.

ghost use Rattle.std.specs.Prelude.{◌≡◌, ◌≤◌, ◌++◌, IfOk, OnOk, length, map};
ghost use Rattle.redcode_lines.specs.Views.{line_read};
ghost use Rattle.redcode_warnings.specs.declared.kind.WarningKind.TheVariants.{ChangedTitle, StartOverruled, UnusedEqu};
ghost use Rattle.redcode_warnings.specs.{Label.{is_unused_equ, labels_warning}, Start.{is_late, is_overruled, starts_by}, Titles.is_changed, Views.{has_name, notes}};
ghost use Rattle.redcode_warnings.specs.Warnings.{first_instruction, missing, noted_by, noted_if};
ghost use Rattle.redcode_warnings.specs.Warnings.{noted_in, noted_lines, noted_names, noted_on, noted_some, noted_unread};

use crate::kind::WarningKind;
use crate::label::{labels_warning, unused_equ};
use crate::named::{NameSet, names_of};
use crate::read::{lines_after_end, lines_read};
use crate::start::{Starts, is_instruction, is_late, is_org, is_overruled, starts_of};
use crate::titles::{has_assert, is_blank_text, is_changed, last_author, last_name};
use redcode_lines::{Reading, SourceLine, Span, span_of};
use std::alloc::{AllocError, Allocator};

/// What is found in a source.
#[derive(Clone, Copy)]
pub(crate) struct Finding<'s> {
    pub kind: WarningKind,
    /// The line of the source, counted from 1, or 0 if none is to blame.
    pub line: u32,
    /// The part of the line that is to blame; none for the whole line.
    pub span: Option<Span>,
    /// The label, the name of the `EQU`, the text of the title, or the article of the `ORG` that overrules; else empty.
    pub text: &'s [u8],
}

/// What is found in these lines.
pub(crate) fn findings<'s, A: Allocator + Copy>(
    alloc: A,
    lines: &[SourceLine<'s, A>],
) -> Result<Vec<Finding<'s>, A>, AllocError>
    requires { length lines.now ≤ 65536 }
    ensures { IfOk result (λ found. notes found.items ≡ noted_in lines.now) }
{
    let read = lines_read(alloc, lines)?;
    findings_by(alloc, read.as_slice(), lines_after_end(lines))
}

/// What is found if these lines are read, and the others stand after an `END`.
fn findings_by<'s, A: Allocator + Copy>(
    alloc: A,
    read: &[Reading<'_, 's>],
    unread: &[SourceLine<'s, A>],
) -> Result<Vec<Finding<'s>, A>, AllocError>
    ensures { IfOk result (λ found. notes found.items ≡ noted_by (map line_read read.now) unread.now) }
{
    let named = names_of(alloc, read)?;
    let mut found = Vec::new(alloc);
    find_missing(read, &mut found)?;
    find_in_lines(&named, starts_of(read), read, &mut found)?;
    find_unread(unread, &mut found)?;
    Ok(found)
}

/// Adds what the source as a whole lacks.
fn find_missing<'s, A: Allocator>(
    read: &[Reading<'_, 's>],
    found: &mut Vec<Finding<'s>, A>,
) -> Result<(), AllocError>
    ensures { OnOk result (notes found.new.items ≡ notes found.old.items ++ missing (map line_read read.now)) }
{
    note_if(is_blank_text(last_name(read)), WarningKind::NoName, found)?;
    note_if(
        is_blank_text(last_author(read)),
        WarningKind::NoAuthor,
        found,
    )?;
    note_if(!has_assert(read), WarningKind::NoAssert, found)
}

/// Adds a finding of the source as a whole, if it is one.
fn note_if<'s, A: Allocator>(
    is_found: bool,
    kind: WarningKind,
    found: &mut Vec<Finding<'s>, A>,
) -> Result<(), AllocError>
    ensures { OnOk result (notes found.new.items ≡ notes found.old.items ++ noted_if is_found kind 0) }
{
    if is_found {
        found.push(Finding {
            kind,
            line: 0,
            span: None,
            text: b"",
        })?;
    }
    Ok(())
}

/// Adds what is found in these lines, one after another.
fn find_in_lines<'s, A: Allocator>(
    named: &NameSet<'s, A>,
    starts: Starts,
    read: &[Reading<'_, 's>],
    found: &mut Vec<Finding<'s>, A>,
) -> Result<(), AllocError>
    ensures { OnOk result (notes found.new.items ≡ notes found.old.items
        ++ noted_lines (has_name named.now) (starts_by starts.org starts.is_given starts.code) (map line_read read.now)) }
{
    let mut rest = read;
    while let [line, behind @ ..] = rest {
        find_on(named, starts, line, found)?;
        rest = behind;
    }
    Ok(())
}

/// Adds what is found on a line.
fn find_on<'s, A: Allocator>(
    named: &NameSet<'s, A>,
    starts: Starts,
    line: &Reading<'_, 's>,
    found: &mut Vec<Finding<'s>, A>,
) -> Result<(), AllocError>
    ensures { OnOk result (notes found.new.items ≡ notes found.old.items
        ++ noted_on (has_name named.now) (starts_by starts.org starts.is_given starts.code) (line_read line.now)) }
{
    find_title(line, found)?;
    find_start(starts, line, found)?;
    find_names(named, starts, line, found)
}

/// Adds that a line gives a start that an `ORG` overrules, if it does.
fn find_start<'s, A: Allocator>(
    starts: Starts,
    line: &Reading<'_, 's>,
    found: &mut Vec<Finding<'s>, A>,
) -> Result<(), AllocError>
    ensures { OnOk result (notes found.new.items ≡ notes found.old.items
        ++ noted_if (is_overruled (starts_by starts.org starts.is_given starts.code) (line_read line.now)) StartOverruled line.now.number) }
{
    if is_overruled(starts, line) {
        found.push(Finding {
            kind: WarningKind::StartOverruled,
            line: line.number,
            span: None,
            text: if is_org(line.word) { b"a later" } else { b"an" },
        })?;
    }
    Ok(())
}

/// Adds what is found of a line's labels, and of the name of its `EQU`.
fn find_names<'s, A: Allocator>(
    named: &NameSet<'s, A>,
    starts: Starts,
    line: &Reading<'_, 's>,
    found: &mut Vec<Finding<'s>, A>,
) -> Result<(), AllocError>
    ensures { OnOk result (notes found.new.items ≡ notes found.old.items
        ++ noted_names (has_name named.now) (starts_by starts.org starts.is_given starts.code) (line_read line.now)) }
{
    find_label(named, is_late(starts, line.number), line, found)?;
    find_equ(named, line, found)
}

/// Adds that nothing uses the name of a line's `EQU`, if it has one and nothing does.
fn find_equ<'s, A: Allocator>(
    named: &NameSet<'s, A>,
    line: &Reading<'_, 's>,
    found: &mut Vec<Finding<'s>, A>,
) -> Result<(), AllocError>
    ensures { OnOk result (notes found.new.items
        ≡ notes found.old.items ++ noted_if (is_unused_equ (has_name named.now) (line_read line.now)) UnusedEqu line.now.number) }
{
    if let Some(name) = unused_equ(named, line) {
        found.push(Finding {
            kind: WarningKind::UnusedEqu,
            line: line.number,
            span: Some(span_of(0, &name)),
            text: name.text,
        })?;
    }
    Ok(())
}

/// Adds that a line's title is changed, if it is.
fn find_title<'s, A: Allocator>(
    line: &Reading<'_, 's>,
    found: &mut Vec<Finding<'s>, A>,
) -> Result<(), AllocError>
    ensures { OnOk result (notes found.new.items
        ≡ notes found.old.items ++ noted_if (is_changed line.now.title.now) ChangedTitle line.now.number) }
{
    if is_changed(line.title) {
        found.push(Finding {
            kind: WarningKind::ChangedTitle,
            line: line.number,
            span: None,
            text: line.title,
        })?;
    }
    Ok(())
}

/// Adds the warning of a line's labels, if they have one.
fn find_label<'s, A: Allocator>(
    named: &NameSet<'s, A>,
    is_late: bool,
    line: &Reading<'_, 's>,
    found: &mut Vec<Finding<'s>, A>,
) -> Result<(), AllocError>
    ensures { OnOk result (notes found.new.items
        ≡ notes found.old.items ++ noted_some (labels_warning (has_name named.now) is_late (line_read line.now)) line.now.number) }
{
    if let Some((kind, label)) = labels_warning(named, is_late, line) {
        found.push(Finding {
            kind,
            line: line.number,
            span: Some(span_of(0, &label)),
            text: label.text,
        })?;
    }
    Ok(())
}

/// Adds the first instruction of lines that aren't read, if there is one.
fn find_unread<'s, A: Allocator>(
    unread: &[SourceLine<'s, A>],
    found: &mut Vec<Finding<'s>, A>,
) -> Result<(), AllocError>
    ensures { OnOk result (notes found.new.items ≡ notes found.old.items ++ noted_unread unread.now) }
{
    if let Some(line) = first_instruction(unread) {
        found.push(Finding {
            kind: WarningKind::CodeAfterEnd,
            line,
            span: None,
            text: b"",
        })?;
    }
    Ok(())
}

/// The number of the first instruction among these lines.
fn first_instruction<A: Allocator>(lines: &[SourceLine<'_, A>]) -> Option<u32>
    ensures { result ≡ first_instruction lines.now }
{
    let mut rest = lines;
    while let [line, behind @ ..] = rest {
        if is_instruction(line.word()) {
            return Some(line.number());
        }
        rest = behind;
    }
    None
}
