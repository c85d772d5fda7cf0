//! How the log says that a session ended, or that a browser got no page.

use koth_service::{HowEnded, PeerEnd, WhyUnasked};

pub(crate) fn end_text(how: HowEnded) -> &'static str {
    match how {
        HowEnded::By(PeerEnd::Quit) => "ended by QUIT",
        HowEnded::By(PeerEnd::EndOfInput) => "ended by the peer",
        HowEnded::By(PeerEnd::Limit) => "ended: 16 MiB were taken",
        HowEnded::By(PeerEnd::Unread) => "ended: the peer takes no answer",
        HowEnded::By(PeerEnd::StepsSpent) => "ended: the source takes too long to assemble",
        HowEnded::By(PeerEnd::StoreFailed) => "DISK the device failed: the hill was opened again",
        HowEnded::By(PeerEnd::Memory) => "ended: memory ran out",
        HowEnded::Silent => "ended: the peer was silent for too long",
        HowEnded::Browser => "ended: a browser, and not an author",
        HowEnded::Displaced => "ended: its place was given to another peer",
        HowEnded::Gone => "ended: the peer is gone",
    }
}

pub(crate) fn unasked_text(why: WhyUnasked) -> &'static str {
    match why {
        WhyUnasked::Refused => "no page: as many browsers of its address are connected as may be",
        WhyUnasked::Displaced => "no page: its slot was given to another browser",
        WhyUnasked::Late => "no page: its request took too long",
        WhyUnasked::Gone => "no page: the browser is gone",
        WhyUnasked::Memory => "no page: memory ran out",
    }
}
