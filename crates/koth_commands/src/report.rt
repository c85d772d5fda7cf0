//! The report of a source: its refusals, and its warnings if they are asked for.

ghost use Rattle.std.specs.Prelude.{◌≡◌, ◌||◌, ◌&&◌, ◌++◌, All, map, true, false, IfOk, OnOk, MatchResult};
ghost use Rattle.{redcode_asm.specs.Within.MaySpend, redcode_lines.specs.Place.{IsPlaceIn, line_text}, koth_json.specs.Finding.finding_line};
ghost use Rattle.{koth_words.specs.declared.serving.TheConstants.STEPS, koth_commands.specs.Trouble.no_memory};
ghost use Rattle.koth_commands.specs.Report.{has_any, manner_of, status_by, steps_over, steps_told, warnings_if, AreLines, IsAnswered, IsNoteOf, TellsFound};

use crate::answer::Answer;
use crate::name::{name_text, put_name};
use crate::status::Status;
use crate::trouble::Trouble;
use koth_json::{Copied, Finding, Severity, put_finding};
use koth_text::put_number;
use koth_words::{Checked, Form, STEPS};
use redcode_asm::{Unassembled, assemble_within};
use redcode_diagnosis::{Diagnosis, diagnose, line_text, text_of, warning_text_of};
use redcode_warnings::{Warning, warnings};
use std::alloc::{AllocError, Allocator};
use war_types::Settings;

/// Every refusal of a source, and then every warning if they are asked for.
pub(crate) fn report<'t, A: Allocator + Copy>(
    alloc: A,
    settings: &Settings,
    checked: &Checked<'_>,
    name: &str,
    source: &[u8],
) -> Result<Answer<A>, Trouble<'t>>
    ensures { MatchResult result (IsAnswered settings.now (manner_of checked.now) name.now source.now)
        (λ trouble. trouble ≡ no_memory) }
{
    let found = diagnose(alloc, source, settings)?;
    let warned = asked_warnings(alloc, source, checked.warnings)?;
    let (faults, seen) = (found.as_slice(), warned.as_slice());
    let mut text = lines_of(alloc, checked.form, name, source, faults)?;
    let more = lines_of(alloc, checked.form, name, source, seen)?;
    text.extend_from_slice(more.as_slice())?;
    Ok(Answer {
        status: status_of(is_refused(faults, seen, checked.deny)),
        text,
        note: slow_note(alloc, settings, name, source)?,
    })
}

/// The warnings of a source, if they are asked for.
fn asked_warnings<A: Allocator + Copy>(
    alloc: A,
    source: &[u8],
    asked: bool,
) -> Result<Vec<Warning<A>, A>, AllocError>
    ensures told { IfOk result (λ all. map (λ w. (w.kind, w.line)) all.items ≡ warnings_if asked source.now) }
    ensures placed { IfOk result (λ all. All
        (λ w. IsPlaceIn (line_text source.now w.line) w.column w.width) all.items) }
{
    if asked {
        warnings(alloc, source)
    } else {
        Ok(Vec::new(alloc))
    }
}

/// Whether a source with these faults and these warnings is refused: it is if it has a fault, or a warning and these
/// are denied.
fn is_refused<A: Allocator>(found: &[Diagnosis<A>], warned: &[Warning<A>], deny: bool) -> bool
    ensures { result ≡ (has_any found.now || (deny && has_any warned.now)) }
{
    !found.is_empty() || deny && !warned.is_empty()
}

fn status_of(is_refused: bool) -> Status
    ensures { result ≡ status_by false is_refused }
{
    if is_refused {
        Status::Refused
    } else {
        Status::Done
    }
}

/// What is found in a source.
pub(crate) trait Remark<A: Allocator> {
    ghost use Rattle.std.specs.Prelude.{ℕ, IfOk};
    ghost use Rattle.{koth_words.specs.declared.requests.Form.Form, koth_commands.specs.Report.{Found, IsFound, IsFoundLine}};

    /// How bad it is, its kind and its line.
    ghost found: { Self → Found };

    /// Its column and its width.
    ghost place: { Self → ℕ × ℕ };

    /// What people read about it. The error is lack of memory.
    fn told(&self, alloc: A, name: &str, source: &[u8]) -> Result<Vec<u8, A>, AllocError>
        ensures { IfOk result (λ line. IsFoundLine Form.Text name.now (found self.now) (place self.now) line.items) };

    /// What programs read about it.
    fn finding<'f>(&'f self, source: &'f [u8]) -> Finding<'f>
        ensures { IsFound (found self.now) (place self.now) result };
}

impl<A: Allocator + Copy> Remark<A> for Diagnosis<A> {
    ghost use Rattle.koth_commands.specs.Report.{found_fault};

    ghost found = { λ d. found_fault d.fault };

    ghost place = { λ d. (d.column, d.width) };

    fn told(&self, alloc: A, name: &str, source: &[u8]) -> Result<Vec<u8, A>, AllocError> {
        let name = name_text(alloc, name)?;
        text_of(alloc, name.as_slice(), source, self)
    }

    fn finding<'f>(&'f self, source: &'f [u8]) -> Finding<'f> {
        Finding {
            line: self.fault.line,
            column: self.column,
            width: self.width,
            kind: self.fault.kind.name(),
            severity: Severity::Error,
            message: self.sentence.as_slice(),
            text: line_text(source, self.fault.line),
            copy: copied(self),
        }
    }
}

impl<A: Allocator + Copy> Remark<A> for Warning<A> {
    ghost use Rattle.koth_commands.specs.Report.{found_warning};

    ghost found = { λ w. found_warning (w.kind, w.line) };

    ghost place = { λ w. (w.column, w.width) };

    fn told(&self, alloc: A, name: &str, source: &[u8]) -> Result<Vec<u8, A>, AllocError> {
        let name = name_text(alloc, name)?;
        warning_text_of(alloc, name.as_slice(), source, self)
    }

    fn finding<'f>(&'f self, source: &'f [u8]) -> Finding<'f> {
        Finding {
            line: self.line,
            column: self.column,
            width: self.width,
            kind: self.kind.name(),
            severity: Severity::Warning,
            message: self.sentence.as_slice(),
            text: line_text(source, self.line),
            copy: None,
        }
    }
}

/// What is found, one line after another.
fn lines_of<A: Allocator + Copy, R: Remark<A>>(
    alloc: A,
    form: Form,
    name: &str,
    source: &[u8],
    remarks: &[R],
) -> Result<Vec<u8, A>, AllocError>
    requires { All (λ r. IsPlaceIn (line_text source.now (R.found r).line) (R.place r).0 (R.place r).1) remarks.now }
    ensures { IfOk result (λ text. AreLines (TellsFound form name.now source.now)
        (map R.found remarks.now) text.items) }
{
    let mut text = Vec::new(alloc);
    for remark in remarks {
        let line = line_of(alloc, form, name, source, remark)?;
        text.extend_from_slice(line.as_slice())?;
    }
    Ok(text)
}

fn line_of<A: Allocator + Copy, R: Remark<A>>(
    alloc: A,
    form: Form,
    name: &str,
    source: &[u8],
    remark: &R,
) -> Result<Vec<u8, A>, AllocError>
    requires { IsPlaceIn (line_text source.now (R.found remark.now).line) (R.place remark.now).0
        (R.place remark.now).1 }
    ensures { IfOk result (λ line. TellsFound form name.now source.now (R.found remark.now) line.items) }
{
    match form {
        Form::Text => remark.told(alloc, name, source),
        Form::Json => json_line(alloc, name, remark.finding(source)),
    }
}

/// The line of JSON of what is found.
fn json_line<A: Allocator>(
    alloc: A,
    name: &str,
    finding: Finding<'_>,
) -> Result<Vec<u8, A>, AllocError>
    ensures { IfOk result (λ line. line.items ≡ finding_line name.now finding.entry) }
{
    let mut line = Vec::new(alloc);
    put_finding(&mut line, name, finding)?;
    Ok(line)
}

/// The copy of a block that is to blame, if the line is in one.
pub(crate) fn copied<A: Allocator>(diagnosis: &Diagnosis<A>) -> Option<Copied<'_>> {
    match &diagnosis.copy {
        Some(copy) => Some(Copied {
            times: copy.times,
            block: copy.block,
            text: copy.text.as_slice(),
        }),
        None => None,
    }
}

/// Says that the assembly of a source takes more steps than a service allows by default, if it does.
fn slow_note<A: Allocator + Copy>(
    alloc: A,
    settings: &Settings,
    name: &str,
    source: &[u8],
) -> Result<Vec<u8, A>, AllocError>
    ensures { IfOk result (λ note. IsNoteOf name.now source.now note.items) }
{
    let mut note = Vec::new(alloc);
    if is_slow(alloc, settings, source) {
        put_slow_note(&mut note, name)?;
    }
    Ok(note)
}

/// Puts the line that says so.
fn put_slow_note<A: Allocator>(note: &mut Vec<u8, A>, name: &str) -> Result<(), AllocError>
    ensures { OnOk result (note.new.items ≡ note.old.items ++ steps_told name.now) }
{
    put_name(note, name)?;
    put_steps_over(note, STEPS)
}

/// Puts what follows the name in it.
fn put_steps_over<A: Allocator>(note: &mut Vec<u8, A>, steps: u32) -> Result<(), AllocError>
    ensures { OnOk result (note.new.items ≡ note.old.items ++ steps_over steps) }
{
    note.extend_from_slice(b": over ")?;
    put_number(note, u64::from(steps))?;
    note.extend_from_slice(b" steps: a service doesn't assemble it (--steps)\n")
}

/// Whether the assembly of a source takes more steps than a service allows by default.
fn is_slow<A: Allocator + Copy>(alloc: A, settings: &Settings, source: &[u8]) -> bool
    ensures { result ≡ true → MaySpend STEPS source.now }
{
    let assembled = assemble_within(alloc, source, settings, u64::from(STEPS));
    matches!(assembled, Err(Unassembled::StepsSpent))
}
