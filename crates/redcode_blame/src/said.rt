//! Sentences, put together from their parts.

use itoa::Buffer;
use redcode_lines::append_shown;
use std::alloc::{AllocError, Allocator};

/// A part of a sentence.
#[derive(Clone, Copy)]
pub enum Part<'p> {
    /// Words of the sentence itself.
    Text(&'p str),
    /// A word of the source, which is put between backticks.
    Word(&'p [u8]),
    /// Bytes of the source, but for what a terminal acts upon.
    Bytes(&'p [u8]),
    Number(i64),
}

/// Appends these parts to a sentence.
pub fn say<A: Allocator>(sentence: &mut Vec<u8, A>, parts: &[Part<'_>]) -> Result<(), AllocError> {
    for part in parts {
        say_part(sentence, *part)?;
    }
    Ok(())
}

/// Appends a part to a sentence.
fn say_part<A: Allocator>(sentence: &mut Vec<u8, A>, part: Part<'_>) -> Result<(), AllocError> {
    match part {
        Part::Text(text) => sentence.extend_from_slice(text.as_bytes()),
        Part::Word(word) => quote(sentence, word),
        Part::Bytes(bytes) => append_shown(sentence, bytes),
        Part::Number(number) => {
            sentence.extend_from_slice(Buffer::new().format(number).as_bytes())
        }
    }
}

/// Appends a word between backticks.
fn quote<A: Allocator>(sentence: &mut Vec<u8, A>, word: &[u8]) -> Result<(), AllocError> {
    sentence.push(b'`')?;
    append_shown(sentence, word)?;
    sentence.push(b'`')?;
    Ok(())
}
