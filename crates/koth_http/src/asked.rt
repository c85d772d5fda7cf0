//! What a browser asks, by the bytes that came from it.

ghost use Rattle.std.specs.Prelude.{◌≡◌, ◌≤◌, not, bytes_eq, codes, Bool, length, map};
ghost use Rattle.httparse.specs.{Grammar.RequestHead, Spans.{IsRequestAt, IsRequestWithin}};
ghost use Rattle.koth_http.specs.Asked.{FindsAsked, IsAsked, IsAskedBy, asked_of, is_reading, most_bytes, page_by, page_unless, refused};
ghost use Rattle.koth_http.specs.{Host.{host_by, host_fault, IsJudged}, Tags.IsToldOf, Target.page_named};

use crate::host::{Hosts, host_fault, hosts_in, is_own, parts_of};
use crate::refusal::Refusal;
use crate::tags::knows;
use crate::target::{Page, page_named};
use httparse::spans::{EMPTY_HEADER_SPAN, HeaderSpan, RequestSpans, parse_request};
use httparse::{Error, Status};

/// Bytes of the head of a request.
pub(crate) const MOST_BYTES: usize = 8_192;

/// Fields in the head of a request.
const MOST_FIELDS: usize = 64;

/// What a browser asks.
#[derive(Clone, Copy)]
pub struct Asked {
    /// The page, or why there is none.
    pub page: Result<Page, Refusal>,
    /// Whether the answer has its body: not if it is asked for by `HEAD`.
    pub with_body: bool,
}

/// What these bytes ask of a hill with these names, or nothing while they may become a request.
pub(crate) fn asked_in(names: &[&str], bytes: &[u8]) -> Option<Asked>
    requires { length bytes.now ≤ most_bytes }
    ensures found { FindsAsked (map (λ name. name.now) names.now) bytes.now result }
    ensures said { IsAsked (map (λ name. name.now) names.now) bytes.now result }
{
    let mut fields = [EMPTY_HEADER_SPAN; MOST_FIELDS];
    match parse_request(bytes, &mut fields) {
        Ok(Status::Complete(head)) => Some(asked_by(names, bytes, head, &fields)),
        Ok(Status::Partial) if bytes.len() < MOST_BYTES => None,
        Ok(Status::Partial) => Some(refused(Refusal::HeadTooLarge)),
        Err(Error::TooManyHeaders) => Some(refused(Refusal::HeadTooLarge)),
        Err(_) => Some(refused(Refusal::BadRequest)),
    }
}

/// Whether the head in these bytes names this tag.
pub(crate) fn is_known(bytes: &[u8], tag: &[u8]) -> bool
    ensures { IsToldOf bytes.now tag.now result }
{
    let mut fields = [EMPTY_HEADER_SPAN; MOST_FIELDS];
    match parse_request(bytes, &mut fields) {
        Ok(Status::Complete(head)) => knows(bytes, head, &fields, tag),
        Ok(Status::Partial) | Err(_) => false,
    }
}

/// What a head asks of a hill with these names, by the spans of its parts in the bytes.
fn asked_by(names: &[&str], bytes: &[u8], head: RequestSpans, fields: &[HeaderSpan]) -> Asked
    requires { IsRequestWithin bytes.now fields.now head }
    ensures { (h : RequestHead) → IsRequestAt bytes.now fields.now head h → IsAskedBy (map (λ name. name.now) names.now) h result }
{
    let hosts = hosts_in(bytes, &fields[..head.headers]);
    let (method, target) = (head.method.of(bytes), head.path.of(bytes));
    asked_of(names, head.version, hosts, method, target)
}

fn refused(refusal: Refusal) -> Asked
    ensures { result ≡ refused refusal }
{
    Asked {
        page: Err(refusal),
        with_body: true,
    }
}

/// What a method of HTTP/1.`minor` asks of a target of a hill with these names, where the head has these fields `Host`.
fn asked_of(names: &[&str], minor: u8, hosts: Hosts<'_>, method: &[u8], target: &[u8]) -> Asked
    ensures { (own : Bool) × IsJudged (map (λ name. name.now) names.now) (host_by target.now hosts.entry.first.now) own
        × (result ≡ asked_of minor hosts.entry.count own method.now target.now) }
{
    let parts = parts_of(target);
    let own = is_own(names, parts.host.unwrap_or(hosts.first));
    asked_of_host(minor, hosts.count, own, method, parts.origin)
}

/// What a method asks of what its target asks of the host, which is this machine's or isn't.
fn asked_of_host(minor: u8, count: usize, own: bool, method: &[u8], origin: &[u8]) -> Asked
    ensures page { result.page ≡ page_unless (host_fault minor count own) (page_by method.now (page_named origin.now)) }
    ensures body { result.with_body ≡ not (bytes_eq method.now (codes "HEAD")) }
{
    Asked {
        page: page_unless(
            host_fault(minor, count, own),
            page_by(method, page_named(origin)),
        ),
        with_body: method != b"HEAD".as_slice(),
    }
}

/// The page, unless there is a reason against it.
fn page_unless(fault: Option<Refusal>, page: Result<Page, Refusal>) -> Result<Page, Refusal>
    ensures { result ≡ page_unless fault page }
{
    match fault {
        Some(refusal) => Err(refusal),
        None => page,
    }
}

/// The page that a method may have.
fn page_by(method: &[u8], page: Option<Page>) -> Result<Page, Refusal>
    ensures { result ≡ page_by method.now page }
{
    match page {
        Some(page) if is_reading(method) => Ok(page),
        Some(_) => Err(Refusal::MethodNotAllowed),
        None => Err(Refusal::NotFound),
    }
}

fn is_reading(method: &[u8]) -> bool
    ensures { result ≡ is_reading method.now }
{
    method == b"GET".as_slice() || method == b"HEAD".as_slice()
}
