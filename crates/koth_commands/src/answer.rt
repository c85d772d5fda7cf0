//! What commands answer, and its delivery.

ghost use Rattle.std.specs.{Prelude.{◌≡◌, IfOk, MatchResult, OnErr, OnOk}, Io.KnownBytes.Appends};
ghost use Rattle.{war_types.specs.Fault.kind_name, koth_text.specs.{Refusal.refusal_line, Written.WritesPart}, koth_json.specs.declared.finding.Severity.Severity};
ghost use Rattle.{koth_words.specs.declared.requests.View.View, koth_commands.specs.{Answer.{Delivers, DeliversText, IsRefusal, SaysRefused}, Told.TellsWord, Trouble.{fault_word, no_memory}, declared.trouble.Fault.Fault}};

use crate::cause::{Cause, Reason};
use crate::explanation::{explained, explanation_of};
use crate::report::copied;
use crate::status::Status;
use crate::stream::{StreamFault, write_whole};
use crate::trouble::Trouble;
use koth_json::{Finding, Severity, put_refused};
use koth_text::refusal_line;
use koth_words::View;
use redcode_diagnosis::{Diagnosis, diagnose, line_text};
use std::alloc::{AllocError, Allocator};
use std::io::Write;
use std::marker::Model;
use war_types::{AsmFault, AsmKind, Settings};

/// What a command that was carried out answers.
#[derive(Drop)]
pub struct Answer<A: Allocator> {
    /// How the program ends: done or refused.
    pub status: Status,
    /// What is written on standard output.
    pub text: Vec<u8, A>,
    /// What is written for people, on standard error after it. It may be empty.
    pub note: Vec<u8, A>,
}

impl<A: Allocator> Model for Answer<A> {
    ghost use Rattle.koth_commands.specs.Answer.{AnswerParts, answer_parts};

    ghost Value = { AnswerParts };

    ghost view = { λ a. answer_parts a.status a.text.items a.note.items };
}

impl<A: Allocator> Answer<A> {
    ghost use Rattle.std.specs.Prelude.{[]};
    ghost use Rattle.koth_commands.specs.{Answer.answer_parts, declared.status.Status.Status};

    /// A text, as a command answers it that is done.
    pub fn done(alloc: A, text: Vec<u8, A>) -> Answer<A>
        ensures { result ≡ answer_parts Status.Done text.items [] }
    {
        Answer {
            status: Status::Done,
            text,
            note: Vec::new(alloc),
        }
    }
}

/// Writes what a command answers, or reports why it was not carried out. This alone knows the streams of a command. If
/// no one reads the output, that is not reported unless what was done `lasts`.
pub fn deliver<A: Allocator, O: Write, E: Write>(
    alloc: A,
    done: Result<Answer<A>, Trouble<'_>>,
    lasts: bool,
    output: &mut O,
    errors: &mut E,
) -> Status
    ensures { Delivers done.entry result
        (O.contents output.old) (O.contents output.new) (E.contents errors.old) (E.contents errors.new) }
{
    match done {
        Ok(answer) => write_parts(alloc, &answer, lasts, output, errors),
        Err(trouble) => trouble.tell(alloc, errors),
    }
}

/// Writes an answer and its note, or reports that the output failed.
fn write_parts<A: Allocator, O: Write, E: Write>(
    alloc: A,
    answer: &Answer<A>,
    lasts: bool,
    output: &mut O,
    errors: &mut E,
) -> Status
    ensures { DeliversText answer.now result
        (O.contents output.old) (O.contents output.new) (E.contents errors.old) (E.contents errors.new) }
{
    match write_if_any(output, answer.text.as_slice()) {
        Ok(()) => {
            let _ = write_if_any(errors, answer.note.as_slice());
            answer.status
        }
        Err(fault) => tell_lost(alloc, fault.reason, lasts, errors),
    }
}

/// Reports that the output failed. If no one reads it, that is not reported unless what was done `lasts`.
fn tell_lost<A: Allocator, E: Write>(
    alloc: A,
    reason: Reason,
    lasts: bool,
    errors: &mut E,
) -> Status
    ensures status { result ≡ Status.StreamFault }
    ensures told { TellsWord (fault_word Fault.Stream) (E.contents errors.old) (E.contents errors.new) }
{
    match reason {
        Reason::ReaderGone if !lasts => Status::StreamFault,
        _ => Trouble::stream(Cause::output(reason)).tell(alloc, errors),
    }
}

/// Writes the whole text, and does nothing if that is empty. If the output fails, a part of it is written.
fn write_if_any<W: Write>(output: &mut W, text: &[u8]) -> Result<(), StreamFault>
    ensures whole { OnOk result (Appends (W.contents output.old) (W.contents output.new) text.now) }
    ensures part { OnErr result (WritesPart (W.contents output.old) (W.contents output.new) text.now) }
{
    if text.is_empty() {
        return Ok(());
    }
    write_whole(output, text)
}

/// A source that is refused, and where it was read.
#[derive(Clone, Copy)]
pub struct RefusedSource<'s> {
    /// The path of its file, or the name of the stream that it comes from.
    pub path: &'s str,
    pub text: &'s [u8],
    pub fault: AsmFault,
}

/// The answer to a source that is refused: the line of its refusal, and for people where in the source it is, and why.
/// In the view `Json` it is one line of JSON. The trouble is that memory ran out, here or for the assembly.
pub fn refusal<'t, A: Allocator + Copy>(
    alloc: A,
    settings: &Settings,
    refused: RefusedSource<'_>,
    view: View,
) -> Result<Answer<A>, Trouble<'t>>
    ensures { MatchResult result (IsRefusal view refused.entry.fault) (λ trouble. trouble ≡ no_memory) }
{
    if matches!(refused.fault.kind, AsmKind::Memory) {
        return Err(Trouble::memory());
    }
    Ok(Answer {
        status: Status::Refused,
        text: refusal_text(alloc, settings, refused, view)?,
        note: refusal_note(alloc, settings, refused, view),
    })
}

/// The same for people, of a source whose refusal was told.
pub(crate) fn refusal_told<'t, A: Allocator + Copy>(
    alloc: A,
    refused: RefusedSource<'_>,
    told: Option<Diagnosis<A>>,
) -> Result<Answer<A>, Trouble<'t>>
    ensures { MatchResult result (IsRefusal View.Plain refused.entry.fault) (λ trouble. trouble ≡ no_memory) }
{
    if matches!(refused.fault.kind, AsmKind::Memory) {
        return Err(Trouble::memory());
    }
    Ok(Answer {
        status: Status::Refused,
        text: line_of(alloc, refused.fault)?,
        note: explained(alloc, refused.path, refused.text, told),
    })
}

/// What is written of a source that is refused.
fn refusal_text<A: Allocator + Copy>(
    alloc: A,
    settings: &Settings,
    refused: RefusedSource<'_>,
    view: View,
) -> Result<Vec<u8, A>, AllocError>
    ensures { IfOk result (λ text. SaysRefused view refused.entry.fault text.items) }
{
    match view {
        View::Plain | View::Table => line_of(alloc, refused.fault),
        View::Json => refused_text(alloc, settings, refused),
    }
}

fn line_of<A: Allocator>(alloc: A, fault: AsmFault) -> Result<Vec<u8, A>, AllocError>
    ensures { IfOk result (λ text. text.items ≡ refusal_line fault) }
{
    let mut text = Vec::new(alloc);
    text.extend_from_slice(refusal_line(fault).as_slice())?;
    Ok(text)
}

/// Where in a source its refusal is, and why, if people are to read it.
fn refusal_note<A: Allocator + Copy>(
    alloc: A,
    settings: &Settings,
    refused: RefusedSource<'_>,
    view: View,
) -> Vec<u8, A> {
    match view {
        View::Plain | View::Table => explanation_of(alloc, refused.path, refused.text, settings),
        View::Json => Vec::new(alloc),
    }
}

/// The line of JSON of a source that is refused, of the type `refused`. The error is lack of memory.
pub fn refused_text<A: Allocator + Copy>(
    alloc: A,
    settings: &Settings,
    refused: RefusedSource<'_>,
) -> Result<Vec<u8, A>, AllocError>
    ensures { IfOk result (λ text. SaysRefused View.Json refused.entry.fault text.items) }
{
    let found = diagnose(alloc, refused.text, settings)?;
    let mut line = Vec::new(alloc);
    let finding = refused_finding(refused, found.as_slice().first());
    put_refused(&mut line, refused.path, finding)?;
    Ok(line)
}

/// A refusal as what is found, with the place and the sentence of its diagnosis.
fn refused_finding<'f, A: Allocator>(
    refused: RefusedSource<'f>,
    found: Option<&'f Diagnosis<A>>,
) -> Finding<'f>
    ensures severity { result.severity ≡ Severity.Error }
    ensures kind { result.kind.now ≡ kind_name refused.entry.fault.kind }
    ensures line { result.line ≡ refused.entry.fault.line }
{
    let mut finding = Finding {
        line: refused.fault.line,
        column: 1,
        width: 0,
        kind: refused.fault.kind.name(),
        severity: Severity::Error,
        message: b"",
        text: line_text(refused.text, refused.fault.line),
        copy: None,
    };
    if let Some(diagnosis) = found {
        finding.column = diagnosis.column;
        finding.width = diagnosis.width;
        finding.message = diagnosis.sentence.as_slice();
        finding.copy = copied(diagnosis);
    }
    finding
}
