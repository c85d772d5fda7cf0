//! What a line of the log reports.

use crate::ends::{end_text, unasked_text};
use crate::titles::Titled;
use hill_store::Reply;
use koth_service::{Event, HowEnded, PeerEnd};
use std::alloc::Allocator;
use std::net::SocketAddr;

/// What a line of the log reports.
#[derive(Drop)]
pub(crate) enum Report<'t, A: Allocator> {
    /// What happened with a peer or a browser.
    Event(SocketAddr, Event<'t>),
    /// What a submission of a peer was answered.
    Answer(SocketAddr, Answer<'t, A>),
    /// A hill was created in this file, and browsers see it or don't.
    Created { hill: &'t str, is_shown: bool },
    /// What there is to know of the seed of that hill.
    Seed(&'t str),
    /// Browsers see the hill at this address.
    Pages(SocketAddr),
    /// So many lines were dropped.
    Dropped(u64),
}

/// A reply, whose the warrior is that was placed, and who was pushed off for it.
#[derive(Drop)]
pub(crate) struct Answer<'t, A: Allocator> {
    pub(crate) reply: Reply,
    pub(crate) whose: Option<&'t Titled<A>>,
    pub(crate) pushed: Option<&'t Titled<A>>,
}

/// An event that has no parts, by its kind and in words.
#[derive(Clone, Copy)]
pub(crate) struct Simple {
    pub(crate) kind: &'static str,
    pub(crate) words: &'static str,
}

/// The event, unless it is a request.
pub(crate) fn simple_of(event: Event<'_>) -> Option<Simple> {
    match event {
        Event::Connected => of_words("connected", "connected"),
        Event::Ended(HowEnded::By(PeerEnd::StoreFailed)) => of_words(
            "failed",
            end_text(HowEnded::By(PeerEnd::StoreFailed)),
        ),
        Event::Ended(how) => of_words("ended", end_text(how)),
        Event::Refused => of_words(
            "turned_away",
            "refused: as many peers of its address are connected as may be",
        ),
        Event::Unasked(why) => of_words("no_page", unasked_text(why)),
        Event::Asked { .. } => None,
    }
}

fn of_words(kind: &'static str, words: &'static str) -> Option<Simple> {
    Some(Simple { kind, words })
}
