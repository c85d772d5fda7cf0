//! The nearest name to one that is misspelt.

ghost use Rattle.std.specs.{Prelude.{◌≡◌, IfOk, MatchOption, None, false, map, option_map, true}, Char.to_ascii_uppercase, Str.is_utf8};
ghost use Rattle.redcode_scene.specs.{Nearest.{Suggests, are_apart, are_exchanged, distance, may_tell, near, reserved}, Search.{name_in, nearer, nearest_from, seen}};

use redcode_text::{Word, is_word, word_of};
use std::alloc::{AllocError, Allocator};
use std::str::from_utf8;
use strsim::osa_distance;

/// Bytes of the longest name that a nearest one is looked for.
const NAME_LIMIT: usize = 32;

/// The reserved words but those of P-space, which are refused.
const WORDS: [&[u8]; 22] = [
    b"DAT", b"MOV", b"ADD", b"SUB", b"MUL", b"DIV", b"MOD", b"JMP", b"JMZ", b"JMN", b"DJN", b"CMP",
    b"SEQ", b"SNE", b"SLT", b"SPL", b"NOP", b"EQU", b"FOR", b"ROF", b"ORG", b"END",
];

/// The reserved word that is nearest to a text, upper and lower case being one; `None` if none may be told. It fails
/// when memory runs out.
pub fn nearest_word<A: Allocator + Copy>(
    alloc: A,
    text: &[u8],
) -> Result<Option<&'static [u8]>, AllocError>
    ensures { IfOk result (λ found.
        Suggests (map to_ascii_uppercase text.now) reserved (option_map (λ name. name.now) found)) }
{
    let upper = text.to_ascii_uppercase(alloc)?;
    nearest_among(alloc, upper.as_slice(), &WORDS)
}

/// The first of these names to which the fewest edits lead, of those that may be told. It fails when memory runs out.
pub(crate) fn nearest_among<'n, A: Allocator + Copy>(
    alloc: A,
    word: &[u8],
    names: &[&'n [u8]],
) -> Result<Option<&'n [u8]>, AllocError>
    ensures { IfOk result (λ found.
        Suggests word.now (map (λ name. name.now) names.entry.now) (option_map (λ name. name.now) found)) }
{
    let best = nearest_in(alloc, word, names)?;
    Ok(found_in(best))
}

/// The same with how many edits lead to it.
fn nearest_in<'n, A: Allocator + Copy>(
    alloc: A,
    word: &[u8],
    names: &[&'n [u8]],
) -> Result<Option<(usize, &'n [u8])>, AllocError>
    ensures { IfOk result (λ best.
        option_map seen best ≡ nearest_from word.now None (map (λ name. name.now) names.entry.now)) }
{
    let mut best = None;
    let mut rest = names;
    while let [name, behind @ ..] = rest {
        let edits = near(alloc, word, name)?;
        best = nearer(best, edits, name);
        rest = behind;
    }
    Ok(best)
}

/// The name of the nearest one and its edits.
fn found_in<'n>(best: Option<(usize, &'n [u8])>) -> Option<&'n [u8]>
    ensures { option_map (λ name. name.now) result ≡ name_in (option_map seen best.entry) }
{
    match best {
        Some((_, name)) => Some(name),
        None => None,
    }
}

/// The nearer one of the nearest name so far and another one.
fn nearer<'n>(
    best: Option<(usize, &'n [u8])>,
    edits: Option<usize>,
    name: &'n [u8],
) -> Option<(usize, &'n [u8])>
    ensures { option_map seen result ≡ nearer (option_map seen best.entry) edits name.entry.now }
{
    match (best, edits) {
        (_, None) => best,
        (Some((least, _)), Some(edits)) if least <= edits => best,
        (_, Some(edits)) => Some((edits, name)),
    }
}

/// How many edits lead from a misspelt name to one that may be told in its place, none if they differ only in letter
/// case; `None` if it may not.
fn near<A: Allocator + Copy>(
    alloc: A,
    word: &[u8],
    name: &[u8],
) -> Result<Option<usize>, AllocError>
    ensures { IfOk result (λ edits. edits ≡ near word.now name.now) }
{
    if is_word(name, word) {
        return Ok(Some(0));
    }
    if are_apart(word, name) {
        return Ok(None);
    }
    match distance(alloc, word, name)? {
        Some(edits) if may_tell(word, name, edits) => Ok(Some(edits)),
        _ => Ok(None),
    }
}

/// How many edits lead from one text of UTF-8 to another; `None` if one is no such text.
fn distance<A: Allocator + Copy>(
    alloc: A,
    word: &[u8],
    name: &[u8],
) -> Result<Option<usize>, AllocError>
    ensures { IfOk result (λ edits. edits ≡ distance word.now name.now) }
{
    match (text_in(word), text_in(name)) {
        (Some(word), Some(name)) => Ok(Some(osa_distance(alloc, word, name)?)),
        _ => Ok(None),
    }
}

/// Bytes as a text, if they are UTF-8.
fn text_in(bytes: &[u8]) -> Option<&str>
    ensures { MatchOption result (is_utf8 bytes.now ≡ false)
        (λ text. (text.now ≡ bytes.now) × (is_utf8 bytes.now ≡ true)) }
{
    match from_utf8(bytes) {
        Ok(text) => Some(text),
        Err(_) => None,
    }
}

/// Whether no edits are counted between two names: one is too long, or they differ in length by over two bytes.
fn are_apart(word: &[u8], name: &[u8]) -> bool
    ensures { result ≡ are_apart word.now name.now }
{
    if word.len() > NAME_LIMIT || name.len() > NAME_LIMIT {
        return true;
    }
    name.len() > word.len() + 2 || word.len() > name.len() + 2
}

/// Whether a name to which this number of edits leads may be told: two at most, and less than half of the bytes of the
/// misspelt one. In a word of three letters none may be replaced.
fn may_tell(word: &[u8], name: &[u8], edits: usize) -> bool
    ensures { result ≡ may_tell word.now name.now edits }
{
    if edits > 2 || word.len() <= 2 * edits {
        return false;
    }
    edits == 0 || word.len() != 3 || name.len() != 3 || are_exchanged(word, name)
}

/// Whether two names of three letters have two neighbours exchanged.
fn are_exchanged(word: &[u8], name: &[u8]) -> bool
    ensures { result ≡ are_exchanged word.now name.now }
{
    match (word, name) {
        ([a, b, c], [d, e, f]) => {
            (*a == *e && *b == *d && *c == *f) || (*a == *d && *b == *f && *c == *e)
        }
        _ => false,
    }
}

/// Whether a name is an operation.
pub fn is_operation(name: &[u8]) -> bool {
    matches!(word_of(name), Some(Word::Operation(_)))
}

/// Whether a name is a reserved word.
pub fn is_reserved(name: &[u8]) -> bool {
    word_of(name).is_some()
}
