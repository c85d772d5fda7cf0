//! A misspelt `FOR` or `ROF`.

use crate::nearest::nearest_word;
use crate::scene::Scene;
use redcode_lines::{LineForm, Reading, is_name};
use redcode_text::{Word, word_of};
use std::alloc::{AllocError, Allocator};

/// Bytes of the longest name that may be a misspelt `FOR` or `ROF`.
const LONGEST: usize = 5;

/// The name nearest to a line that may be a misspelt word, and its line: a `FOR` before the line of this number, or a `ROF` after it.
pub fn misspelt_word<'s, A: Allocator + Copy>(
    scene: &Scene<'s, A>,
    number: u32,
    word: Word,
) -> Result<Option<(&'s [u8], u32)>, AllocError> {
    let mut found = None;
    for line in &scene.lines {
        let is_before = line.number() < number;
        if line.number() == number || is_before != matches!(word, Word::For) {
            continue;
        }
        if let Some(name) = misspelt_in(scene.alloc, line.reading(), word)? {
            found = Some((name, line.number()));
            if !is_before {
                break;
            }
        }
    }
    Ok(found)
}

/// The name on a line without a word that may be this word misspelt.
fn misspelt_in<'s, A: Allocator + Copy>(
    alloc: A,
    line: Reading<'_, 's>,
    word: Word,
) -> Result<Option<&'s [u8]>, AllocError> {
    if line.word.is_some() || !matches!(line.form, LineForm::Statement) {
        return Ok(None);
    }
    for token in line.labels() {
        if !is_name(token) || token.text.len() > LONGEST {
            continue;
        }
        match nearest_word(alloc, token.text)? {
            Some(nearest) if is_word(nearest, word) => return Ok(Some(token.text)),
            _ => {}
        }
    }
    Ok(None)
}

/// Whether a text is this one of the two words.
fn is_word(text: &[u8], word: Word) -> bool {
    matches!(
        (word_of(text), word),
        (Some(Word::For), Word::For) | (Some(Word::Rof), Word::Rof)
    )
}
