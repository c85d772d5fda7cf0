//! What is reported of a definition or of a kind that a command line names.

ghost use Rattle.koth_commands.specs.Told.{TellsWord};

use crate::name::put_name;
use crate::telling::{Apart, tell_text};
use crate::trouble::{About, Fault, Trouble};
use koth_kinds::put_names;
use std::alloc::{AllocError, Allocator};
use std::io::Write;

/// Writes the word of a fault, followed by a line if there was memory for that.
pub(crate) fn tell_line<A: Allocator, E: Write>(
    word: &str,
    line: Result<Vec<u8, A>, AllocError>,
    errors: &mut E,
)
    ensures { TellsWord word.now (E.contents errors.old) (E.contents errors.new) }
{
    match line {
        Ok(text) => tell_text(word, Apart::Blank, text.as_slice(), errors),
        Err(AllocError) => tell_text(word, Apart::Line, b"", errors),
    }
}

/// What is told of a definition that is none, or whose name no line defines, as a note. It is empty if memory runs out.
pub fn named_note<A: Allocator + Copy>(alloc: A, trouble: Trouble<'_>) -> Vec<u8, A> {
    match note_of(alloc, trouble) {
        Ok(text) => text,
        Err(AllocError) => Vec::new(alloc),
    }
}

fn note_of<A: Allocator + Copy>(alloc: A, trouble: Trouble<'_>) -> Result<Vec<u8, A>, AllocError> {
    let mut text = Vec::new(alloc);
    text.extend_from_slice(trouble.fault.word().as_bytes())?;
    if let About::Definition(words) = trouble.about {
        let line = definition_text(alloc, trouble.fault, words)?;
        text.extend_from_slice(b" ")?;
        text.extend_from_slice(line.as_slice())?;
    }
    Ok(text)
}

/// The definition that is none, or the name that no line defines, and what to do.
pub(crate) fn definition_text<A: Allocator>(
    alloc: A,
    fault: Fault,
    words: &str,
) -> Result<Vec<u8, A>, AllocError> {
    let mut text = Vec::new(alloc);
    match fault {
        Fault::NoEqu => {
            put_name(&mut text, name_in(words))?;
            text.extend_from_slice(
                b": no EQU line of the source defines it, or none that is read",
            )?;
        }
        _ => {
            put_name(&mut text, words)?;
            text.extend_from_slice(
                b": --define takes NAME=VALUE, a name of Redcode and a body without comment",
            )?;
        }
    }
    text.extend_from_slice(b"\n")?;
    Ok(text)
}

/// The name in a definition.
fn name_in(words: &str) -> &str {
    match words.split_once('=') {
        Some((name, _)) => name,
        None => words,
    }
}

/// The name that no kind has, and those that kinds have.
pub(crate) fn kind_text<A: Allocator>(alloc: A, name: &str) -> Result<Vec<u8, A>, AllocError> {
    let mut text = Vec::new(alloc);
    put_name(&mut text, name)?;
    text.extend_from_slice(b": no kind has this name; the kinds are ")?;
    put_names(&mut text)?;
    text.extend_from_slice(b"\n")?;
    Ok(text)
}
