//! The lines of a log for programs: objects of JSON, by `koth_news`.

use crate::report::{Answer, Report, simple_of};
use crate::texts::SHOWN;
use crate::titles::Titled;
use hill_store::Reply;
use jiff::Timestamp;
use koth_news::{
    Asking, Judged, When, Whom, put_asked, put_dropped, put_fault, put_happened, put_noted,
    put_outcome,
};
use koth_service::Event;
use std::alloc::{AllocError, Allocator};
use std::net::SocketAddr;

/// The line of this report. The error is lack of memory.
pub(crate) fn line<A: Allocator + Copy>(
    alloc: A,
    time: Timestamp,
    report: &Report<'_, A>,
) -> Result<Vec<u8, A>, AllocError> {
    let time = format!(in alloc; "{}", time)?;
    let mut line = Vec::new(alloc);
    put_report(&mut line, alloc, time.as_bytes(), report)?;
    Ok(line)
}

fn put_report<A: Allocator + Copy>(
    line: &mut Vec<u8, A>,
    alloc: A,
    time: &[u8],
    report: &Report<'_, A>,
) -> Result<(), AllocError> {
    match *report {
        Report::Event(peer, event) => {
            let peer = format!(in alloc; "{}", peer)?;
            put_event(line, time, peer.as_bytes(), event)
        }
        Report::Answer(peer, ref answer) => {
            let peer = format!(in alloc; "{}", peer)?;
            put_answer(line, time, peer.as_bytes(), answer)
        }
        Report::Created { hill, .. } => put_noted(line, time, "created", hill.as_bytes()),
        Report::Seed(hint) => put_noted(line, time, "seed", hint.trim_ascii_end().as_bytes()),
        Report::Pages(address) => {
            let address = format!(in alloc; "http://{}/", address)?;
            put_noted(line, time, "pages", address.as_bytes())
        }
        Report::Dropped(count) => put_dropped(line, time, count),
    }
}

fn put_event<'w, A: Allocator>(
    line: &mut Vec<u8, A>,
    time: &'w [u8],
    peer: &'w [u8],
    event: Event<'w>,
) -> Result<(), AllocError> {
    let when = When { time, peer };
    match (simple_of(event), event) {
        (Some(simple), _) => put_happened(line, when, simple.kind, simple.words.as_bytes()),
        (
            None,
            Event::Asked {
                line: first,
                status,
                bytes,
            },
        ) => {
            let asking = Asking {
                request: &first[..first.len().min(SHOWN)],
                whole: first.len() <= SHOWN,
                status: number_of(status),
                bytes: bytes as u64,
            };
            put_asked(line, when, asking)
        }
        (None, _) => Ok(()),
    }
}

/// The number that these digits write.
fn number_of(digits: &[u8]) -> u64 {
    match str::from_utf8(digits) {
        Ok(digits) => digits.parse::<u64>().unwrap_or(0),
        Err(_) => 0,
    }
}

fn put_answer<'w, A: Allocator>(
    line: &mut Vec<u8, A>,
    time: &'w [u8],
    peer: &'w [u8],
    answer: &'w Answer<'_, A>,
) -> Result<(), AllocError> {
    let when = When { time, peer };
    let (whose, pushed) = (whom_of(answer.whose), whom_of(answer.pushed));
    match answer.reply {
        Reply::Placed { entry, rank, score } => {
            let judged = Judged::Placed {
                entry,
                rank,
                points: score,
            };
            put_outcome(line, when, judged, whose, pushed)
        }
        Reply::Fell { entry, score } => {
            let judged = Judged::Fell {
                entry,
                points: score,
            };
            put_outcome(line, when, judged, whose, pushed)
        }
        Reply::Refused(fault) => put_fault(line, when, fault),
        Reply::Memory => put_happened(line, when, "memory", b"MEMORY"),
        Reply::Worn => put_happened(line, when, "worn", b"WORN"),
        Reply::Disk => put_happened(line, when, "failed", b"DISK"),
        Reply::Reopen => put_happened(line, when, "failed", b"REOPEN"),
    }
}

fn whom_of<A: Allocator>(titled: Option<&Titled<A>>) -> Option<Whom<'_>> {
    match titled {
        Some(titled) => Some(Whom {
            entry: titled.entry,
            name: titled.name.as_slice(),
            author: titled.author.as_slice(),
        }),
        None => None,
    }
}
