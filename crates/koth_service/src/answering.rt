//! What a browser is answered.

ghost use Rattle.std.specs.Prelude.{◌≡◌, IfOk};
ghost use Rattle.koth_service.specs.{Answering.IsAnswer, Connections.{AnswersOnceKnown, IsFoundResponse}};

use crate::host::Host;
use hill_store::Store;
use koth_http::{Asked, Page, Refusal, Visit, missing, page_response, refusal_response};
use sector_disk::Device;
use std::alloc::{AllocError, Allocator};

/// The answer to what the bytes of a connection ask, once that is known. `AllocError` comes if there is no memory for
/// it.
pub(crate) fn answer_visit<D: Device, A: Allocator + Copy, H: Host<D, A>>(
    alloc: A,
    store: &Store<D, A>,
    host: &H,
    visit: &Visit<A>,
) -> Result<Option<Vec<u8, A>>, AllocError>
    ensures { IfOk result (AnswersOnceKnown (H.shows host.now store.now) visit.now) }
{
    match visit.asked(host.names()) {
        Some(asked) => Ok(Some(answer(alloc, store, host, visit, asked)?)),
        None => Ok(None),
    }
}

/// The answer to what a browser asks: the page that it asks for, of the hill that stands now, or that there is no such
/// page, or no memory for it. A request that asks for no page is answered by why it doesn't. `AllocError` comes if
/// there is no memory for the answer.
fn answer<D: Device, A: Allocator + Copy, H: Host<D, A>>(
    alloc: A,
    store: &Store<D, A>,
    host: &H,
    visit: &Visit<A>,
    asked: Asked,
) -> Result<Vec<u8, A>, AllocError>
    ensures { IfOk result (λ answer. IsAnswer (H.shows host.now store.now) visit.now asked answer.items) }
{
    match asked.page {
        Ok(page) => found_response(alloc, visit, page, host.page(store, page), asked.with_body),
        Err(refusal) => refusal_response(alloc, refusal, asked.with_body),
    }
}

/// The answer to what was found of a page, or to there being no memory for it.
fn found_response<A: Allocator + Copy>(
    alloc: A,
    visit: &Visit<A>,
    page: Page,
    found: Result<Option<Vec<u8, A>>, AllocError>,
    with_body: bool,
) -> Result<Vec<u8, A>, AllocError>
    ensures { IfOk result (λ answer. IsFoundResponse visit.now page found with_body answer.items) }
{
    match found {
        Ok(Some(text)) => page_response(alloc, visit, page, text.as_slice(), with_body),
        Ok(None) => refusal_response(alloc, missing(page), with_body),
        Err(AllocError) => refusal_response(alloc, Refusal::Unavailable, with_body),
    }
}
