//! The tag of a text, and whether a request names it: then the browser has that text already.

ghost use Rattle.std.specs.Prelude.{◌≡◌, ◌++◌, length, map, codes, All, IfOk};
ghost use Rattle.std.specs.{List.list_any, Str.str_eq_ignore_ascii_case};
ghost use Rattle.httparse.specs.{Grammar.RequestHead, Spans.{header_bytes, IsHeaderWithin, IsRequestAt, IsRequestWithin}};
ghost use Rattle.koth_http.specs.Tags.{begins_with, has_part, knows, names_tag, tag_of};

use hex::encode;
use httparse::spans::{HeaderSpan, RequestSpans};
use sha2::{Digest, Sha256};
use std::alloc::{AllocError, Allocator};

/// The tag of a text: its SHA-256 in hexadecimal digits, between quotation marks. The error is a lack of memory.
pub(crate) fn tag_of<A: Allocator + Copy>(alloc: A, text: &[u8]) -> Result<Vec<u8, A>, AllocError>
    ensures { IfOk result (λ tag. tag.items ≡ tag_of text.now) }
{
    let digits = encode(alloc, Sha256::digest(text))?;
    let mut tag = Vec::new(alloc);
    tag.extend_from_slice(b"\"")?;
    tag.extend_from_slice(digits.as_bytes())?;
    tag.extend_from_slice(b"\"")?;
    Ok(tag)
}

/// Whether a head names this tag, by the spans of its parts in the bytes.
pub(crate) fn knows(bytes: &[u8], head: RequestSpans, fields: &[HeaderSpan], tag: &[u8]) -> bool
    requires { IsRequestWithin bytes.now fields.now head }
    ensures { (h : RequestHead) → IsRequestAt bytes.now fields.now head h → result ≡ knows h tag.now }
{
    is_among(bytes, &fields[..head.headers], tag)
}

/// Whether one of these fields, whose spans lie in the bytes, names this tag.
fn is_among(bytes: &[u8], fields: &[HeaderSpan], tag: &[u8]) -> bool
    requires { All (IsHeaderWithin (length bytes.now)) fields.now }
    ensures { result ≡ list_any (names_tag tag.now) (map (header_bytes bytes.now) fields.now) }
{
    let mut is_found = false;
    for at in (0..fields.len()).rev() {
        let field = fields[at];
        is_found = names_tag(field.name.of(bytes), field.value.of(bytes), tag) || is_found;
    }
    is_found
}

/// Whether a field of this name and this value names this tag.
fn names_tag(name: &[u8], value: &[u8], tag: &[u8]) -> bool
    ensures { result ≡ names_tag tag.now (name.now, value.now) }
{
    name.eq_ignore_ascii_case(b"if-none-match") && has_part(value, tag)
}

/// Whether a part is somewhere in a text.
fn has_part(text: &[u8], part: &[u8]) -> bool
    ensures { result ≡ has_part part.now text.now }
{
    let mut rest = text;
    while let [_, behind @ ..] = rest {
        if begins_with(rest, part) {
            return true;
        }
        rest = behind;
    }
    false
}

fn begins_with(text: &[u8], part: &[u8]) -> bool
    ensures { result ≡ begins_with part.now text.now }
{
    text.len() >= part.len() && &text[..part.len()] == part
}
