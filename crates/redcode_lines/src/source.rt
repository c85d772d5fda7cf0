//! The lines of a source, and those that begin with a semicolon.

ghost use Rattle.std.specs.{Prelude.{◌≡◌, ◌+◌, ◌<◌, ◌≤◌, ◌∷◌, drop, length, IfSome}, Option.option_map};
ghost use Rattle.redcode_lines.specs.Source.{begins, begins_alone, directive_of, lines_of, live_lines, numbered_from, remark_of, seen};

use redcode_text::{is_blank, is_word};

/// What a line is that begins with a semicolon.
#[derive(Clone, Copy, PartialEq, Eq)]
pub enum Directive {
    Redcode,
    Name,
    Author,
    Assert,
    /// A comment.
    Remark,
}

/// The number of the first line that is read, and the source from there on. If there is a `;redcode` line, all
/// before the first one is ignored.
pub fn live_source(source: &[u8]) -> (u32, &[u8])
    requires { length source.now ≤ 65536 }
    ensures lines { numbered_from result.0 (lines_of result.1.now) ≡ live_lines source.entry.now }
    ensures counted { 1 ≤ result.0 }
    ensures short { result.0 + length result.1.now ≤ 65537 }
{
    let mut rest = source;
    let mut number = 1;
    // Takes no step: a source's bytes are passed once before the walk.
    while !rest.is_empty() {
        let (line, behind) = first_line(rest);
        if matches!(directive_of(line), Some((Directive::Redcode, _))) {
            return (number, rest);
        }
        rest = behind;
        number += 1;
    }
    (1, source)
}

/// The first line without the line feed that ends it, and what is after that.
pub fn first_line(source: &[u8]) -> (&[u8], &[u8])
    requires { 0 < length source.now }
    ensures lines { lines_of source.entry.now ≡ result.0.now ∷ lines_of result.1.now }
    ensures shorter { length result.1.now < length source.entry.now }
    ensures short { length result.0.now ≤ length source.entry.now }
{
    // Takes no step: a source's bytes are passed before the walk.
    for (i, byte) in source.iter().enumerate() {
        if *byte == b'\n' {
            return (&source[..i], &source[i + 1..]);
        }
    }
    source.split_at(source.len())
}

/// The directive of a line that begins with a semicolon, whatever blanks stand before it, and the text after its word.
pub fn directive_of(line: &[u8]) -> Option<(Directive, &[u8])>
    ensures found { option_map seen result ≡ directive_of line.entry.now }
    ensures short { IfSome result (λ found. length found.1.now ≤ length line.entry.now) }
{
    // Takes no step: the blanks before a line's first byte are passed twice, before the walk.
    for (i, byte) in line.iter().enumerate() {
        if *byte == b';' {
            return Some(remark_of(&line[i + 1..]));
        }
        if !is_blank(*byte) {
            break;
        }
    }
    None
}

/// What stands after the semicolon: `redcode`, whatever follows, or `name`, `author` or `assert` before a blank or
/// the end of the line. Upper and lower case are one.
fn remark_of(text: &[u8]) -> (Directive, &[u8])
    ensures found { seen result ≡ remark_of text.entry.now }
    ensures short { length result.1.now ≤ length text.entry.now }
{
    if begins(b"redcode", text) {
        (Directive::Redcode, &[])
    } else if begins_alone(b"name", text) {
        (Directive::Name, behind(4, text))
    } else if begins_alone(b"author", text) {
        (Directive::Author, behind(6, text))
    } else if begins_alone(b"assert", text) {
        (Directive::Assert, behind(6, text))
    } else {
        (Directive::Remark, &[])
    }
}

fn begins_alone(word: &[u8], text: &[u8]) -> bool
    ensures { result ≡ begins_alone word.now text.now }
{
    begins(word, text) && text.get(word.len()).is_none_or(|byte| is_blank(*byte))
}

fn begins(word: &[u8], text: &[u8]) -> bool
    ensures { result ≡ begins word.now text.now }
{
    is_word(word, &text[..text.len().min(word.len())])
}

/// The text without its first `bytes` bytes.
pub(crate) fn behind(bytes: usize, text: &[u8]) -> &[u8]
    ensures behind { result.now ≡ drop bytes text.entry.now }
    ensures short { length result.now ≤ length text.entry.now }
{
    &text[text.len().min(bytes)..]
}
