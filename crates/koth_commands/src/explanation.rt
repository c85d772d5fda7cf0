//! The explanation of a refusal, for people.

ghost use Rattle.koth_commands.specs.Told.{WritesSome};

use crate::report::Remark;
use crate::stream::write_whole;
use redcode_diagnosis::{Diagnosis, diagnose};
use std::alloc::{AllocError, Allocator};
use std::io::Write;
use war_types::Settings;

/// Writes why a source is refused: the line's number and text, a caret under the fault, and a sentence. Nothing is
/// written if the source is not refused or memory runs out.
pub fn explain<A: Allocator + Copy, E: Write>(
    alloc: A,
    path: &str,
    source: &[u8],
    settings: &Settings,
    errors: &mut E,
)
    ensures { WritesSome (E.contents errors.old) (E.contents errors.new) }
{
    let text = explanation_of(alloc, path, source, settings);
    let _ = write_whole(errors, text.as_slice());
}

/// Where in a source its first refusal is, and why: the line's number and text, a caret under the fault, and a
/// sentence. It is empty if the source is not refused or memory runs out.
pub fn explanation_of<A: Allocator + Copy>(
    alloc: A,
    path: &str,
    source: &[u8],
    settings: &Settings,
) -> Vec<u8, A> {
    match first_told(alloc, path, source, settings) {
        Ok(Some(text)) => text,
        _ => Vec::new(alloc),
    }
}

/// The explanation of the first refusal of a source, if there is one.
fn first_told<A: Allocator + Copy>(
    alloc: A,
    path: &str,
    source: &[u8],
    settings: &Settings,
) -> Result<Option<Vec<u8, A>>, AllocError> {
    let found = diagnose(alloc, source, settings)?;
    match found.as_slice().first() {
        Some(first) => Ok(Some(first.told(alloc, path, source)?)),
        None => Ok(None),
    }
}

/// The explanation of a refusal that was told. It is empty if none was, or memory runs out.
pub(crate) fn explained<A: Allocator + Copy>(
    alloc: A,
    path: &str,
    source: &[u8],
    told: Option<Diagnosis<A>>,
) -> Vec<u8, A> {
    let Some(first) = told else {
        return Vec::new(alloc);
    };
    match first.told(alloc, path, source) {
        Ok(text) => text,
        Err(_) => Vec::new(alloc),
    }
}
