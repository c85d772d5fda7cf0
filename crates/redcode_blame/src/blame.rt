//! What is to blame for a refusal, and the sentence that explains it.

ghost use Rattle.std.specs.Prelude.{IfOk};
ghost use Rattle.{redcode_lines.specs.Place.line_text, redcode_blame.specs.Place.IsOfLine};

use crate::blocks::{duplicate_name, for_limit, unmatched};
use crate::counts::count;
use crate::equs::{bad_equ, equ_limit};
use crate::expressions::expression;
use crate::operands::{extra_text, missing_operand};
use crate::place::placed;
use crate::said::{Part, say};
use crate::statements::{bad_modifier, bad_operation, pspace};
use crate::tokens::bad_token;
use crate::warriors::{bad_start, empty, say_assertion, source_too_long, too_long};
use redcode_lines::Span;
use redcode_scene::{Row, Scene};
use std::alloc::{AllocError, Allocator};
use war_types::{AsmFault, AsmKind};

/// What is to blame for a refusal, and the sentence that explains it.
#[derive(Drop)]
pub struct Blame<A: Allocator> {
    pub span: Span,
    pub sentence: Vec<u8, A>,
}

/// What is to blame, and the parts of the sentence about it.
#[derive(Clone, Copy)]
pub(crate) struct Told<'p> {
    pub span: Span,
    pub parts: [Part<'p>; 6],
}

/// What is told, unless memory runs out.
pub(crate) type Answer<'p> = Result<Told<'p>, AllocError>;

/// No further part.
pub(crate) const END: Part<'static> = Part::Text("");

/// What is told in this sentence.
pub(crate) fn told_text<'p>(span: Span, text: &'p str) -> Told<'p> {
    told_parts(span, Part::Text(text), END, END)
}

/// What is told in a sentence that begins with a word of the source.
pub(crate) fn told_word<'p>(span: Span, word: &'p [u8], text: &'p str) -> Told<'p> {
    told_parts(span, Part::Word(word), Part::Text(text), END)
}

/// What is told in a sentence that ends with a word of the source.
pub(crate) fn told_before<'p>(span: Span, text: &'p str, word: &'p [u8]) -> Told<'p> {
    told_parts(span, Part::Text(text), Part::Word(word), END)
}

/// What is told in three parts.
pub(crate) fn told_parts<'p>(
    span: Span,
    first: Part<'p>,
    second: Part<'p>,
    third: Part<'p>,
) -> Told<'p> {
    let parts = [first, second, third, END, END, END];
    Told { span, parts }
}

/// What is to blame for a fault of a source: its place is from a token of that line to one of its tokens, or the line.
/// It fails when memory runs out.
pub fn blame_of<A: Allocator + Copy>(
    scene: &Scene<'_, A>,
    fault: AsmFault,
) -> Result<Blame<A>, AllocError>
    ensures { IfOk result (λ blame. IsOfLine (line_text scene.now.source.now fault.line) blame.span) }
{
    let told = told_of(scene, fault)?;
    let span = placed(scene, fault.line, told.span)?;
    let mut sentence = Vec::new(scene.alloc);
    match say_all(&mut sentence, scene, fault, &told.parts) {
        Ok(()) => Ok(Blame { span, sentence }),
        Err(error) => Err(error),
    }
}

/// Says what is told of a fault, and what stands in an assertion that doesn't hold.
fn say_all<A: Allocator + Copy>(
    sentence: &mut Vec<u8, A>,
    scene: &Scene<'_, A>,
    fault: AsmFault,
    parts: &[Part<'_>],
) -> Result<(), AllocError> {
    say(sentence, parts)?;
    match fault.kind {
        AsmKind::AssertFalse => say_assertion(sentence, scene, fault),
        _ => Ok(()),
    }
}

/// What is told of a fault of a source.
fn told_of<'s, A: Allocator + Copy>(scene: &Scene<'s, A>, fault: AsmFault) -> Answer<'s> {
    match fault.kind {
        AsmKind::SourceTooLong => Ok(source_too_long()),
        AsmKind::Empty => Ok(empty(scene)),
        AsmKind::TooLong => Ok(too_long(scene)),
        kind => match scene.row(fault.line) {
            Some(row) => told_on(scene, &row, fault),
            None => Ok(told_text(scene.whole(fault.line), kind.name())),
        },
    }
}

/// What is told of a fault of a line.
fn told_on<'s, A: Allocator + Copy>(
    scene: &Scene<'s, A>,
    row: &Row<'_, 's>,
    fault: AsmFault,
) -> Answer<'s> {
    match fault.kind {
        AsmKind::UnmatchedFor | AsmKind::UnmatchedRof => unmatched(scene, row),
        AsmKind::ForLimit => Ok(for_limit(row)),
        AsmKind::DuplicateName => duplicate_name(scene, row),
        AsmKind::BadEqu => Ok(bad_equ(row)),
        AsmKind::EquLimit => equ_limit(scene, row),
        AsmKind::ForCount(kind) => count(scene, row, kind),
        AsmKind::BadToken => bad_token(scene, row, fault),
        AsmKind::BadOperation => bad_operation(scene, row),
        AsmKind::Pspace => Ok(pspace(row)),
        AsmKind::BadModifier => bad_modifier(scene, row, fault),
        AsmKind::MissingOperand => missing_operand(scene, row, fault),
        AsmKind::Expression(kind) => expression(scene, row, fault, kind),
        AsmKind::ExtraText => extra_text(scene, row, fault),
        AsmKind::BadStart => Ok(bad_start(scene, row)),
        AsmKind::AssertFalse => {
            let span = row.spans(row.reading.tokens);
            Ok(told_text(span, "the assertion doesn't hold"))
        }
        AsmKind::SourceTooLong | AsmKind::Empty | AsmKind::TooLong | AsmKind::Memory => {
            Ok(told_text(row.whole(), fault.kind.name()))
        }
    }
}
