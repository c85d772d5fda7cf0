//! What kinds mean, as people read it.

ghost use Rattle.std.specs.Prelude.{◌≡◌, ◌++◌, IfOk, OnOk, option_copied};
ghost use Rattle.{std.specs.Str.bytes_eq, koth_kinds.specs.{Explained.{both_text, examples_text, line_text, meaning_text, sort_of, Explains, IsAsked}, Kinds.name_of}};

use crate::kind::{Kind, kinds};
use crate::meaning::{Examples, Meaning, meaning_of};
use std::alloc::{AllocError, Allocator};
use war_types::AsmKind;

/// What is written before the examples, or in place of them.
const EARNS: &[u8] = b"A source that earns it:\n";

const OTHER: &[u8] = b"One that doesn't:\n";

const NO_SOURCE: &[u8] = b"No source earns it by what it says.\n";

/// What the kinds of this name mean, each with its examples. It is empty if no kind is called so. If no name is given,
/// there is a line for each kind. The error is lack of memory.
pub fn explained<A: Allocator + Copy>(
    alloc: A,
    name: Option<&str>,
) -> Result<Vec<u8, A>, AllocError>
    ensures { IfOk result (λ text. Explains (option_copied name.entry) text.items) }
{
    let all = kinds();
    let mut text = Vec::new(alloc);
    for kind in all {
        let part = text_of(alloc, name, *kind)?;
        text.extend_from_slice(part.as_slice())?;
    }
    Ok(text)
}

/// What is written of a kind.
fn text_of<A: Allocator + Copy>(
    alloc: A,
    name: Option<&str>,
    kind: Kind,
) -> Result<Vec<u8, A>, AllocError>
    ensures { IfOk result (λ text. IsAsked (option_copied name.entry) kind text.items) }
{
    let mut text = Vec::new(alloc);
    match name {
        None => put_line(&mut text, meaning_of(kind))?,
        Some(name) if is_called(kind, name) => put_meaning(&mut text, meaning_of(kind))?,
        Some(_) => {}
    }
    Ok(text)
}

/// Puts the names of all kinds, each once, with commas. The error is lack of memory.
pub fn put_names<A: Allocator>(text: &mut Vec<u8, A>) -> Result<(), AllocError> {
    let mut separator: &[u8] = b"";
    for kind in kinds() {
        if !is_of_a_count(*kind) {
            text.extend_from_slice(separator)?;
            text.extend_from_slice(kind.name().as_bytes())?;
            separator = b", ";
        }
    }
    Ok(())
}

/// Whether it is a refusal of a count, whose name that of another expression has too.
fn is_of_a_count(kind: Kind) -> bool {
    matches!(kind, Kind::Refusal(AsmKind::ForCount(_)))
}

/// Whether a kind has this name.
fn is_called(kind: Kind, name: &str) -> bool
    ensures { result ≡ bytes_eq (name_of kind) name.now }
{
    kind.name() == name
}

/// Puts a kind's line.
fn put_line<A: Allocator>(text: &mut Vec<u8, A>, meaning: Meaning) -> Result<(), AllocError>
    ensures { OnOk result (text.new.items ≡ text.old.items ++ line_text meaning) }
{
    text.extend_from_slice(sort_of(meaning.kind).as_bytes())?;
    text.extend_from_slice(meaning.kind.name().as_bytes())?;
    text.extend_from_slice(b", ")?;
    text.extend_from_slice(meaning.kind.line().as_bytes())?;
    text.extend_from_slice(b": ")?;
    text.extend_from_slice(meaning.when.as_bytes())?;
    text.extend_from_slice(b"\n")
}

/// Puts a kind's line and its examples.
fn put_meaning<A: Allocator>(text: &mut Vec<u8, A>, meaning: Meaning) -> Result<(), AllocError>
    ensures { OnOk result (text.new.items ≡ text.old.items ++ meaning_text meaning) }
{
    put_line(text, meaning)?;
    put_examples(text, meaning.examples)
}

fn put_examples<A: Allocator>(
    text: &mut Vec<u8, A>,
    examples: Option<Examples>,
) -> Result<(), AllocError>
    ensures { OnOk result (text.new.items ≡ text.old.items ++ examples_text examples) }
{
    match examples {
        None => text.extend_from_slice(NO_SOURCE),
        Some(examples) => put_both(text, examples),
    }
}

fn put_both<A: Allocator>(text: &mut Vec<u8, A>, examples: Examples) -> Result<(), AllocError>
    ensures { OnOk result (text.new.items ≡ text.old.items ++ both_text examples) }
{
    text.extend_from_slice(EARNS)?;
    text.extend_from_slice(examples.earns.as_bytes())?;
    text.extend_from_slice(OTHER)?;
    text.extend_from_slice(examples.other.as_bytes())?;
    Ok(())
}

/// What the line of a kind begins with.
fn sort_of(kind: Kind) -> &'static str
    ensures { result.now ≡ sort_of kind }
{
    match kind {
        Kind::Refusal(_) => "refusal ",
        Kind::Warning(_) => "warning ",
    }
}
