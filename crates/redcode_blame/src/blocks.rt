//! Faults of the walk over a source's lines: blocks, their limit, and names that are defined twice.

use crate::blame::{Answer, END, Told, told_parts, told_text, told_word};
use crate::said::Part;
use redcode_expand::predefined;
use redcode_lines::{Span, has_text, is_name};
use redcode_scene::{
    Definer, Row, Scene, definer_before, is_joined, is_label, misspelt_word, nearest_word,
};
use redcode_text::{Token, Word};
use std::alloc::{AllocError, Allocator};

/// A `FOR` without its `ROF`, or a `ROF` without its `FOR`.
pub(crate) fn unmatched<'s, A: Allocator + Copy>(
    scene: &Scene<'s, A>,
    row: &Row<'_, '_>,
) -> Answer<'s> {
    let number = row.reading.number;
    let (said, missing, end) = match row.reading.word {
        Some(Word::For) => (
            "no `ROF` below ends the block of this `FOR`",
            Word::Rof,
            " a misspelt `ROF`?",
        ),
        _ => (
            "no block is open that this `ROF` could end",
            Word::For,
            " a misspelt `FOR`?",
        ),
    };
    let Some((name, line)) = misspelt_word(scene, number, missing)? else {
        return Ok(told_text(row.word(), said));
    };
    let parts = [
        Part::Text(said),
        Part::Text("; is "),
        Part::Word(name),
        Part::Text(" in line "),
        Part::Number(i64::from(line)),
        Part::Text(end),
    ];
    let span = row.word();
    Ok(Told { span, parts })
}

/// A line past the limit.
pub(crate) fn for_limit(row: &Row<'_, '_>) -> Told<'static> {
    let said = match row.reading.word {
        Some(Word::For) => {
            "more than 4096 lines are written out: a copy of this block without a line counts as one"
        }
        _ => "more than 4096 lines are written out, counted in every copy of a block",
    };
    told_text(row.whole(), said)
}

/// A name that is defined a second time.
pub(crate) fn duplicate_name<'s, A: Allocator + Copy>(
    scene: &Scene<'s, A>,
    row: &Row<'_, 's>,
) -> Answer<'s> {
    let labels = row.reading.labels();
    let mut own = None;
    for (i, label) in labels.iter().enumerate() {
        if !is_label(scene, &row.reading, &labels[..i], label, &labels[i + 1..]) {
            continue;
        }
        if let Some(told) = defined_label(scene, row, label)? {
            return Ok(told);
        }
        own = own.or(Some(label));
    }
    defined_by_copies(scene, row, own)
}

/// A label that is defined before its line, or before on it.
fn defined_label<'s, A: Allocator + Copy>(
    scene: &Scene<'s, A>,
    row: &Row<'_, 's>,
    label: &Token<'s>,
) -> Result<Option<Told<'s>>, AllocError> {
    let span = row.span(label);
    if predefined(scene.settings, 0, label.text).is_some() {
        let said = " is a predefined name, and can't be defined";
        return Ok(Some(told_word(span, label.text, said)));
    }
    let number = row.reading.number;
    if stands_before(row.reading.labels(), label) {
        return Ok(Some(defined_in(scene.alloc, row, label, number)?));
    }
    match definer_before(scene, label.text, number)? {
        Definer::Line(line) => Ok(Some(defined_in(scene.alloc, row, label, line)?)),
        Definer::Joined => {
            let said = "a label to which a counter is joined has this name already";
            Ok(Some(told_text(span, said)))
        }
        Definer::Unknown => Ok(Some(told_word(span, label.text, " is defined already"))),
        Definer::Nothing => Ok(None),
    }
}

/// Whether the name of a label stands among the labels before it.
fn stands_before(labels: &[Token<'_>], label: &Token<'_>) -> bool {
    for token in labels {
        if token.at >= label.at {
            return false;
        }
        if is_name(token) && token.text == label.text {
            return true;
        }
    }
    false
}

/// A name that is defined in an earlier line, or before on the same line.
fn defined_in<'s, A: Allocator + Copy>(
    alloc: A,
    row: &Row<'_, 's>,
    name: &Token<'s>,
    line: u32,
) -> Answer<'s> {
    let line = Part::Number(i64::from(line));
    match operation_meant(alloc, row, name)? {
        Some(word) => Ok(meant_operation(row.span(name), name.text, line, word)),
        None => Ok(told_parts(row.span(name), Part::Word(name.text), ALREADY, line)),
    }
}

/// A name that a line has defined already, where an operation was probably meant.
fn meant_operation<'s>(span: Span, name: &'s [u8], line: Part<'s>, word: &'s [u8]) -> Told<'s> {
    let parts = [
        Part::Word(name),
        ALREADY,
        line,
        Part::Text("; did you mean the operation "),
        Part::Word(word),
        Part::Text("?"),
    ];
    Told { span, parts }
}

/// What is said of a name before the line that has defined it.
const ALREADY: Part<'static> = Part::Text(" is defined already, in line ");

/// The reserved word that was probably meant by a label that is not alone on its line.
fn operation_meant<A: Allocator + Copy>(
    alloc: A,
    row: &Row<'_, '_>,
    name: &Token<'_>,
) -> Result<Option<&'static [u8]>, AllocError> {
    if row.reading.word.is_some() || row.reading.behind_labels().is_empty() {
        return Ok(None);
    }
    nearest_word(alloc, name.text)
}

/// Labels that copies of blocks define again; `own` is the first to which nothing is joined.
fn defined_by_copies<'s, A: Allocator + Copy>(
    scene: &Scene<'_, A>,
    row: &Row<'_, 's>,
    own: Option<&Token<'s>>,
) -> Answer<'s> {
    let labels = row.reading.labels();
    if let Some(name) = no_counter(scene, row.reading.number, labels) {
        let said =
            " is the counter of no block around this line, so `&` joins nothing: each copy defines these anew";
        return Ok(told_word(row.spans(labels), name.text, said));
    }
    match own {
        Some(label) => defined_anew(scene.alloc, row, label),
        None => {
            let said = "a copy of the block joins these to a name that is defined already";
            Ok(told_text(row.spans(labels), said))
        }
    }
}

/// A label that each copy of a block defines again.
fn defined_anew<'s, A: Allocator + Copy>(
    alloc: A,
    row: &Row<'_, 's>,
    label: &Token<'s>,
) -> Answer<'s> {
    let span = row.span(label);
    let Some(word) = operation_meant(alloc, row, label)? else {
        let said =
            "each copy of the block defines this anew; a name of its own ends with `&` and the counter";
        return Ok(told_text(span, said));
    };
    let parts = [
        Part::Word(label.text),
        Part::Text(" is defined anew by each copy of the block; did you mean the operation "),
        Part::Word(word),
        Part::Text("?"),
        END,
        END,
    ];
    Ok(Told { span, parts })
}

/// The first name after an `&` that is no counter, on the line of this number.
fn no_counter<'t, 's, A: Allocator + Copy>(
    scene: &Scene<'_, A>,
    number: u32,
    labels: &'t [Token<'s>],
) -> Option<&'t Token<'s>> {
    for (i, and) in labels.iter().enumerate() {
        let behind = &labels[i + 1..];
        if let [name, ..] = behind
            && has_text(and, b"&")
            && !is_joined(scene, number, &labels[i..])
        {
            return Some(name);
        }
    }
    None
}
