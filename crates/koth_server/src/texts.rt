//! The lines of a log for people.

use crate::report::{Answer, Report, simple_of};
use jiff::Timestamp;
use koth_commands::name_text;
use koth_service::Event;
use koth_session::line_of;
use std::alloc::{AllocError, Allocator};
use std::net::SocketAddr;

/// Bytes of the first line of a request that a line of the log has at most.
pub(crate) const SHOWN: usize = 200;

/// The line of this report, after the time. The error is lack of memory.
pub(crate) fn line<A: Allocator + Copy>(
    alloc: A,
    time: Timestamp,
    report: &Report<'_, A>,
) -> Result<String<A>, AllocError> {
    match *report {
        Report::Event(peer, event) => event_line(alloc, time, peer, event),
        Report::Answer(peer, ref answer) => answer_line(alloc, time, peer, answer),
        Report::Created { hill, is_shown } => created_line(alloc, time, hill, is_shown),
        Report::Seed(hint) => format!(in alloc; "{} {}", time, hint),
        Report::Pages(address) => format!(in alloc; "{} pages at http://{}/\n", time, address),
        Report::Dropped(count) => count_line(alloc, time, count),
    }
}

fn count_line<A: Allocator>(
    alloc: A,
    time: Timestamp,
    count: u64,
) -> Result<String<A>, AllocError> {
    let what = if count == 1 { "line was" } else { "lines were" };
    format!(in alloc; "{} {} {} dropped\n", time, count, what)
}

/// The line of what happened: the peer or the browser, and the event.
fn event_line<A: Allocator>(
    alloc: A,
    time: Timestamp,
    peer: SocketAddr,
    event: Event<'_>,
) -> Result<String<A>, AllocError> {
    match (simple_of(event), event) {
        (Some(simple), _) => format!(in alloc; "{} {}: {}\n", time, peer, simple.words),
        (
            None,
            Event::Asked {
                line,
                status,
                bytes,
            },
        ) => {
            let shown = &line[..line.len().min(SHOWN)];
            let rest = if line.len() > SHOWN { ".." } else { "" };
            format!(in alloc;
                "{} {}: asked \"{}\"{}: {}, {} bytes\n",
                time,
                peer,
                shown.escape_ascii(),
                rest,
                status.escape_ascii(),
                bytes
            )
        }
        (None, _) => Ok(String::new(alloc)),
    }
}

/// The line of a submission's reply. That of a warrior on the hill names it, and who was pushed off for it.
fn answer_line<A: Allocator>(
    alloc: A,
    time: Timestamp,
    peer: SocketAddr,
    answer: &Answer<'_, A>,
) -> Result<String<A>, AllocError> {
    let line = line_of(&answer.reply);
    let text = str::from_utf8(line.as_slice().trim_ascii_end()).unwrap_or("answered");
    match (answer.whose, answer.pushed) {
        (None, _) => format!(in alloc; "{} {}: {}\n", time, peer, text),
        (Some(whose), None) => format!(in alloc;
            "{} {}: {} \"{}\" by \"{}\"\n",
            time,
            peer,
            text,
            whose.name.as_slice().escape_ascii(),
            whose.author.as_slice().escape_ascii()
        ),
        (Some(whose), Some(pushed)) => format!(in alloc;
            "{} {}: {} \"{}\" by \"{}\", pushed {} \"{}\" by \"{}\"\n",
            time,
            peer,
            text,
            whose.name.as_slice().escape_ascii(),
            whose.author.as_slice().escape_ascii(),
            pushed.entry,
            pushed.name.as_slice().escape_ascii(),
            pushed.author.as_slice().escape_ascii()
        ),
    }
}

/// The line of a hill that was created: its file, and what shows it to browsers if nothing does.
fn created_line<A: Allocator + Copy>(
    alloc: A,
    time: Timestamp,
    hill: &str,
    is_shown: bool,
) -> Result<String<A>, AllocError> {
    let pages = if is_shown {
        ""
    } else {
        "; --http PORT shows it to browsers"
    };
    let name = name_text(alloc, hill)?;
    let hill = str::from_utf8(name.as_slice()).unwrap_or("a hill");
    format!(in alloc; "{} created {}{}\n", time, hill, pages)
}
