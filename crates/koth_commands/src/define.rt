//! A source with another body for the `EQU` lines of a name, if one is given.

ghost use Rattle.std.specs.Prelude.{◌≡◌, MatchResult, Some, option_copied};
ghost use Rattle.koth_commands.specs.Define.{IsUndefined, text_by};

use crate::trouble::{Fault, Trouble};
use redcode_define::{define, definition_of};
use std::alloc::{AllocError, Allocator};

/// The text that is assembled for a source: that of the source, with the body of a definition for those of its name if
/// one is given. The trouble is that it is no definition, that no line of the source defines the name, or that memory
/// ran out.
pub fn defined_text<'w, A: Allocator + Copy>(
    alloc: A,
    definition: Option<&'w str>,
    source: Vec<u8, A>,
) -> Result<Vec<u8, A>, Trouble<'w>>
    ensures { MatchResult result
        (λ text. text_by (option_copied definition.entry) source.items ≡ Some text.items)
        (IsUndefined (option_copied definition.entry) source.items) }
{
    match definition {
        None => Ok(source),
        Some(words) => text_with(alloc, words, source.as_slice()),
    }
}

/// The source with the body of a definition for those of its name.
fn text_with<'w, A: Allocator + Copy>(
    alloc: A,
    words: &'w str,
    source: &[u8],
) -> Result<Vec<u8, A>, Trouble<'w>>
    ensures { MatchResult result (λ text. text_by (Some words.now) source.now ≡ Some text.items)
        (IsUndefined (Some words.now) source.now) }
{
    let Some(found) = definition_of(words.as_bytes()) else {
        return Err(Trouble::definition(Fault::BadDefine, words));
    };
    match define(alloc, source, found.name, found.value) {
        Ok(Some(text)) => Ok(text),
        Ok(None) => Err(Trouble::definition(Fault::NoEqu, words)),
        Err(AllocError) => Err(Trouble::memory()),
    }
}
