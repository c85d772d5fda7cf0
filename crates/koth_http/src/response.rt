//! What a browser is answered.

ghost use Rattle.std.specs.{Prelude.{◌≡◌, IfOk}, List.{flat_map}};
ghost use Rattle.koth_http.specs.Response.{bare_response, IsPageResponse, IsTaggedResponse, kept_by, missing, refusal_page, refusal_response, response, response_unless};

use crate::refusal::Refusal;
use crate::tags::tag_of;
use crate::target::Page;
use crate::visit::Visit;
use itoa::Buffer;
use std::alloc::{AllocError, Allocator};

/// The first line of an answer with a page.
const PAGE_LINE: &[u8] = b"HTTP/1.1 200 OK\r\n";

/// The page of a refusal, before its sentence and after it.
const PAGE_BEFORE: &[u8] = b"<!DOCTYPE html>\n<html lang=\"en\"><title>King of the Hill</title><p>";

const PAGE_AFTER: &[u8] = b"</p></html>\n";

/// The fields of a body before its kind, before its length and after that.
const KIND: &[u8] = b"Content-Type: ";

const LENGTH: &[u8] = b"\r\nContent-Length: ";

const END: &[u8] = b"\r\n";

/// The fields of every answer, before what may keep it.
const KEEPING: &[u8] = b"Connection: close\r\nCache-Control: ";

/// The fields of every answer, after what may keep it.
const FIELDS_AFTER: &[u8] =
    b"\r\nX-Content-Type-Options: nosniff\r\nContent-Security-Policy: default-src 'none'; style-src 'unsafe-inline'; script-src 'unsafe-inline'; frame-ancestors 'none'; base-uri 'none'; form-action 'none'\r\nReferrer-Policy: no-referrer\r\nCross-Origin-Resource-Policy: same-origin\r\n\r\n";

/// An answer may not be kept.
const NOT_KEPT: &[u8] = b"no-store";

/// What a text is: a page, which is in ASCII, an object for programs, or lines for people and programs.
const HTML: &[u8] = b"text/html; charset=us-ascii";

const JSON: &[u8] = b"application/json";

const PLAIN: &[u8] = b"text/plain; charset=us-ascii";

/// The answer to a visit with the text of a page. It has the length of its body in any case, and the body only if that is asked for. A text
/// of the hill has a tag: if the visit names it, the answer says that the browser has it already. The error is a lack of memory.
pub fn page_response<A: Allocator + Copy>(
    alloc: A,
    visit: &Visit<A>,
    page: Page,
    text: &[u8],
    with_body: bool,
) -> Result<Vec<u8, A>, AllocError>
    ensures { IfOk result (λ r. IsPageResponse visit.now page text.now with_body r.items) }
{
    match page {
        Page::Hill => tagged_response(alloc, visit, HTML, text, with_body),
        Page::Data => tagged_response(alloc, visit, JSON, text, with_body),
        Page::Health | Page::Robots => response(alloc, PAGE_LINE, PLAIN, NOT_KEPT, text, with_body),
        Page::Icon => bare_response(alloc, b"HTTP/1.1 204 No Content\r\n", NOT_KEPT),
        Page::Round { .. } => response(alloc, PAGE_LINE, HTML, NOT_KEPT, text, with_body),
    }
}

/// Why there is no text of a page. A hill that takes no more warriors has none of its health.
pub fn missing(page: Page) -> Refusal
    ensures { result ≡ missing page }
{
    match page {
        Page::Health => Refusal::Worn,
        _ => Refusal::NotFound,
    }
}

/// The answer that refuses a page, with a sentence for people. The error is a lack of memory.
pub fn refusal_response<A: Allocator + Copy>(
    alloc: A,
    refusal: Refusal,
    with_body: bool,
) -> Result<Vec<u8, A>, AllocError>
    ensures { IfOk result (λ r. r.items ≡ refusal_response refusal with_body) }
{
    let page = refusal_page(alloc, refusal)?;
    response(
        alloc,
        refusal.line(),
        HTML,
        NOT_KEPT,
        page.as_slice(),
        with_body,
    )
}

/// The three digits of the status of an answer.
pub fn status_of(response: &[u8]) -> &[u8] {
    response.get(9..12).unwrap_or(&[])
}

fn refusal_page<A: Allocator>(alloc: A, refusal: Refusal) -> Result<Vec<u8, A>, AllocError>
    ensures { IfOk result (λ page. page.items ≡ refusal_page refusal) }
{
    joined(alloc, &[PAGE_BEFORE, refusal.sentence(), PAGE_AFTER])
}

/// The answer with a text that has a tag, or that the browser has it already.
fn tagged_response<A: Allocator + Copy>(
    alloc: A,
    visit: &Visit<A>,
    kind: &[u8],
    text: &[u8],
    with_body: bool,
) -> Result<Vec<u8, A>, AllocError>
    ensures { IfOk result (λ r. IsTaggedResponse visit.now kind.now text.now with_body r.items) }
{
    let tag = tag_of(alloc, text)?;
    let is_known = visit.knows(tag.as_slice());
    response_unless_known(alloc, is_known, tag.as_slice(), kind, text, with_body)
}

/// The answer with a text that has this tag, unless the browser has it already.
fn response_unless_known<A: Allocator + Copy>(
    alloc: A,
    is_known: bool,
    tag: &[u8],
    kind: &[u8],
    text: &[u8],
    with_body: bool,
) -> Result<Vec<u8, A>, AllocError>
    ensures { IfOk result (λ r. r.items ≡ response_unless is_known tag.now kind.now text.now with_body) }
{
    let keeping = kept_by(alloc, tag)?;
    if is_known {
        bare_response(alloc, b"HTTP/1.1 304 Not Modified\r\n", keeping.as_slice())
    } else {
        response(alloc, PAGE_LINE, kind, keeping.as_slice(), text, with_body)
    }
}

/// An answer may be kept by this tag.
fn kept_by<A: Allocator>(alloc: A, tag: &[u8]) -> Result<Vec<u8, A>, AllocError>
    ensures { IfOk result (λ keeping. keeping.items ≡ kept_by tag.now) }
{
    let mut keeping = Vec::new(alloc);
    keeping.extend_from_slice(b"no-cache\r\nETag: ")?;
    keeping.extend_from_slice(tag)?;
    Ok(keeping)
}

/// An answer with a body of this kind, or only with its head.
fn response<'t, A: Allocator>(
    alloc: A,
    line: &'t [u8],
    kind: &'t [u8],
    keeping: &'t [u8],
    body: &'t [u8],
    with_body: bool,
) -> Result<Vec<u8, A>, AllocError>
    ensures { IfOk result (λ r. r.items ≡ response line.now kind.now keeping.now body.now with_body) }
{
    let mut digits = Buffer::new();
    let len = digits.format(body.len()).as_bytes();
    let sent: &[u8] = if with_body { body } else { &[] };
    joined(
        alloc,
        &[
            line,
            KIND,
            kind,
            LENGTH,
            len,
            END,
            KEEPING,
            keeping,
            FIELDS_AFTER,
            sent,
        ],
    )
}

/// An answer that has no body in any case.
fn bare_response<A: Allocator>(
    alloc: A,
    line: &[u8],
    keeping: &[u8],
) -> Result<Vec<u8, A>, AllocError>
    ensures { IfOk result (λ r. r.items ≡ bare_response line.now keeping.now) }
{
    joined(alloc, &[line, KEEPING, keeping, FIELDS_AFTER])
}

/// These parts, one after the other.
fn joined<A: Allocator>(alloc: A, parts: &[&[u8]]) -> Result<Vec<u8, A>, AllocError>
    ensures { IfOk result (λ text. text.items ≡ flat_map (λ part. part.now) parts.now) }
{
    let mut text = Vec::new(alloc);
    for part in parts {
        text.extend_from_slice(part)?;
    }
    Ok(text)
}
