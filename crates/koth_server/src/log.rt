//! What a service reports while it runs: its connections, its submissions, requests of browsers and its faults, each
//! with the time.

ghost use Rattle.koth_commands.specs.Told.{WritesSome};

use crate::report::{Answer, Report};
use crate::titles::{Titled, Titles};
use crate::{objects, texts};
use hill_store::Reply;
use jiff::Timestamp;
use koth_commands::write_whole;
use koth_keeping::seed_hint;
use koth_service::{Event, HowEnded, LogWrite, PeerEnd};
use koth_words::{Form, Service};
use std::alloc::{AllocError, Allocator};
use std::cell::Cell;
use std::net::SocketAddr;
use std::rt::Clock;

/// What a line says of a seed that was drawn.
const DRAWN: &str = "the seed of this hill was drawn, and only its file has it\n";

/// The log of a service. A line that can't be written at once is dropped, and the next one that can is preceded by how
/// many were.
#[derive(Drop)]
pub struct Log<'r, R> {
    clock: &'r R,
    quiet: bool,
    /// Lines for people, or objects.
    form: Form,
    /// How many lines were dropped and not reported yet.
    dropped: Cell<u64>,
}

impl<'r, R: Clock> Log<'r, R> {
    /// A log by this clock, of lines in this form. A quiet log reports only devices that failed.
    pub fn new(clock: &'r R, quiet: bool, form: Form) -> Log<'r, R> {
        Log {
            clock,
            quiet,
            form,
            dropped: Cell::new(0),
        }
    }

    /// Reports what happened with a peer or a browser, unless the log is quiet.
    pub(crate) fn tell<A: Allocator + Copy, E: LogWrite>(
        &self,
        alloc: A,
        peer: SocketAddr,
        event: Event<'_>,
        errors: &mut E,
    )
        ensures { WritesSome (E.contents errors.old) (E.contents errors.new) }
    {
        if self.quiet && !is_fault(event) {
            return;
        }
        self.put(alloc, &Report::Event(peer, event), errors);
    }

    /// Reports what a submission was answered, by the titles of those on the hill before it and of those there now,
    /// unless the log is quiet.
    pub(crate) fn tell_answer<'t, A: Allocator + Copy, E: LogWrite>(
        &self,
        alloc: A,
        peer: SocketAddr,
        reply: Reply,
        before: &'t Titles<A>,
        now: &'t Titles<A>,
        errors: &mut E,
    )
        ensures { WritesSome (E.contents errors.old) (E.contents errors.new) }
    {
        if self.quiet {
            return;
        }
        let whose = placed_in(reply, now);
        let pushed = match whose {
            Some(_) => before.missing_in(now),
            None => None,
        };
        let answer = Answer {
            reply,
            whose,
            pushed,
        };
        self.put(alloc, &Report::Answer(peer, answer), errors);
    }

    /// Reports that the hill of a service was created, and that its seed was drawn, or what it means if everybody knows
    /// it, unless the log is quiet.
    pub(crate) fn tell_created<A: Allocator + Copy, E: LogWrite>(
        &self,
        alloc: A,
        service: &Service<'_>,
        seed: u32,
        errors: &mut E,
    )
        ensures { WritesSome (E.contents errors.old) (E.contents errors.new) }
    {
        if self.quiet {
            return;
        }
        let created = Report::Created {
            hill: service.hill,
            is_shown: service.http.is_some(),
        };
        self.put(alloc, &created, errors);
        let hint = if service.draw_seed {
            DRAWN
        } else {
            seed_hint(seed)
        };
        self.tell_hint(alloc, hint, errors);
    }

    /// Reports where browsers see the hill, if they do.
    pub(crate) fn tell_pages<A: Allocator + Copy, E: LogWrite>(
        &self,
        alloc: A,
        address: Option<SocketAddr>,
        errors: &mut E,
    )
        ensures { WritesSome (E.contents errors.old) (E.contents errors.new) }
    {
        let Some(address) = address else {
            return;
        };
        self.put(alloc, &Report::Pages(address), errors);
    }

    /// Reports what there is to know of the seed of a hill, if there is anything.
    fn tell_hint<A: Allocator + Copy, E: LogWrite>(&self, alloc: A, hint: &str, errors: &mut E)
        ensures { WritesSome (E.contents errors.old) (E.contents errors.new) }
    {
        match hint {
            "" => {}
            hint => self.put(alloc, &Report::Seed(hint), errors),
        }
    }

    /// Writes the line of a report if it can be written at once, and else drops it.
    fn put<A: Allocator + Copy, E: LogWrite>(
        &self,
        alloc: A,
        report: &Report<'_, A>,
        errors: &mut E,
    )
        ensures { WritesSome (E.contents errors.old) (E.contents errors.new) }
    {
        let is_put = match self.line(alloc, report) {
            Ok(line) => self.put_counted(alloc, line.as_slice(), errors),
            Err(AllocError) => false,
        };
        if !is_put {
            self.dropped.set(self.dropped.get().saturating_add(1));
        }
    }

    /// Writes a line after the count of those that were dropped before it, and returns whether it is written.
    fn put_counted<A: Allocator + Copy, E: LogWrite>(
        &self,
        alloc: A,
        line: &[u8],
        errors: &mut E,
    ) -> bool
        ensures { WritesSome (E.contents errors.old) (E.contents errors.new) }
    {
        self.put_count(alloc, errors) && put_line(line, errors)
    }

    /// Writes how many lines were dropped, if some were. It returns whether that is written, or there is nothing to
    /// write.
    fn put_count<A: Allocator + Copy, E: LogWrite>(&self, alloc: A, errors: &mut E) -> bool
        ensures { WritesSome (E.contents errors.old) (E.contents errors.new) }
    {
        let count = self.dropped.get();
        if count == 0 {
            return true;
        }
        let Ok(line) = self.line(alloc, &Report::Dropped(count)) else {
            return false;
        };
        let is_put = put_line(line.as_slice(), errors);
        if is_put {
            self.dropped.set(0);
        }
        is_put
    }

    /// The line of a report, after the time by the clock.
    fn line<A: Allocator + Copy>(
        &self,
        alloc: A,
        report: &Report<'_, A>,
    ) -> Result<Vec<u8, A>, AllocError> {
        match self.form {
            Form::Text => Ok(texts::line(alloc, self.seconds(), report)?.into_bytes()),
            Form::Json => objects::line(alloc, self.seconds(), report),
        }
    }

    /// The time by the clock, in whole seconds; that of 1970 if the clock can't be read.
    fn seconds(&self) -> Timestamp {
        match Timestamp::now(self.clock) {
            Ok(now) => Timestamp::from_second(now.as_second()).unwrap_or(Timestamp::UNIX_EPOCH),
            Err(_) => Timestamp::UNIX_EPOCH,
        }
    }
}

/// Writes a line, and returns whether all of it was written.
fn put_line<E: LogWrite>(line: &[u8], errors: &mut E) -> bool
    ensures { WritesSome (E.contents errors.old) (E.contents errors.new) }
{
    errors.begin_line() && write_whole(errors, line).is_ok()
}

/// The warrior that was placed by this reply, as it is on the hill now.
fn placed_in<A: Allocator + Copy>(reply: Reply, now: &Titles<A>) -> Option<&Titled<A>> {
    match reply {
        Reply::Placed { entry, .. } => now.of_entry(entry),
        _ => None,
    }
}

/// Whether it is a device that failed.
fn is_fault(event: Event<'_>) -> bool {
    matches!(event, Event::Ended(HowEnded::By(PeerEnd::StoreFailed)))
}
