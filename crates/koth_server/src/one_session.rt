//! The command `session`: one session over standard input and output, on the hill in a file.

ghost use Rattle.std.specs.Prelude.{◌≡◌, ◌≢◌, Some};
ghost use Rattle.{koth_commands.specs.{Streams.streams, Told.TellsWord, declared.status.Status.TheVariants.Refused}, koth_server.specs.Session.{EndsOnHill, EndsOnFile, TellsEnd}};

use hill_file::TryLock;
use koth_commands::trouble::Trouble;
use koth_commands::{Apart, Cause, Reason, Status, tell_text};
use koth_files::{HillStore, open_within};
use koth_session::{Counted, SessionEnd, session_within};
use koth_words::Session;
use std::alloc::Allocator;
use std::io::{Read, Write};
use std::rt::{Clock, Files};

/// What messages call the input.
const INPUT: &str = "standard input";

/// Serves one session on the hill in a file: its commands come from the input, and its answers go to the output. It
/// assembles no source in more than the steps that are given. The hill is locked while the session lasts. If another
/// program has its lock, that is tried again for as long as the arguments say.
pub(crate) fn session<'f, R: Files + Clock, A: Allocator + Copy, I: Read, O: Write, E: Write>(
    rt: &'f R,
    alloc: A,
    session: Session<'f>,
    input: &mut I,
    output: &mut O,
    errors: &mut E,
) -> Status
where
    R::File: TryLock,
    ensures ends { EndsOnFile session.entry.hill.now result
        (streams (I.remaining input.old) (O.contents output.old) (E.contents errors.old))
        (streams (I.remaining input.new) (O.contents output.new) (E.contents errors.new)) }
    ensures words { result ≢ Status.WordFault }
{
    match open_within(rt, alloc, session.hill, session.wait) {
        Ok(mut store) => session_on(alloc, session, &mut store, input, output, errors),
        Err(trouble) => trouble.tell(alloc, errors),
    }
}

/// Serves the session on a store, and reports how it ended.
fn session_on<'f, R: Files + Clock, A: Allocator + Copy, I: Read, O: Write, E: Write>(
    alloc: A,
    session: Session<'f>,
    store: &mut HillStore<'f, R, A>,
    input: &mut I,
    output: &mut O,
    errors: &mut E,
) -> Status
where
    R::File: TryLock,
    ensures ends { EndsOnHill session.entry.hill.now result
        (streams (I.remaining input.old) (O.contents output.old) (E.contents errors.old))
        (streams (I.remaining input.new) (O.contents output.new) (E.contents errors.new)) }
    ensures words { result ≢ Status.WordFault }
{
    let steps = Some(u64::from(session.steps));
    let mut commands = Counted::new(input);
    let mut answers = Counted::new(output);
    let end = session_within(alloc, steps, &mut commands, &mut answers, store);
    tell_end(alloc, session.hill, end, errors)
}

/// Reports how a session ended on the hill in this file, unless all its commands were answered.
fn tell_end<A: Allocator, E: Write>(
    alloc: A,
    hill: &str,
    end: Option<SessionEnd>,
    errors: &mut E,
) -> Status
    ensures ends { TellsEnd hill.now end result (E.contents errors.old) (E.contents errors.new) }
    ensures words { result ≢ Status.WordFault }
{
    match end {
        Some(SessionEnd::Quit | SessionEnd::EndOfInput) => Status::Done,
        Some(SessionEnd::ReadFault) => { Trouble::file(INPUT, Reason::Device).tell(alloc, errors) }
        Some(SessionEnd::WriteFault) => {
            Trouble::stream(Cause::output(Reason::Device)).tell(alloc, errors)
        }
        Some(SessionEnd::StoreFailed) => Trouble::file(hill, Reason::Device).tell(alloc, errors),
        Some(SessionEnd::Memory) => Trouble::memory().tell(alloc, errors),
        Some(SessionEnd::Limit) => refused(
            "LIMIT",
            b"16 MiB were taken; begin another session\n",
            errors,
        ),
        None => refused(
            "STEPS",
            b"the source takes too long to assemble; --steps gives it more\n",
            errors,
        ),
    }
}

/// Reports by a word and a text that a session ended for what its peer sent.
fn refused<E: Write>(word: &str, text: &[u8], errors: &mut E) -> Status
    ensures status { result ≡ Refused }
    ensures told { TellsWord word.now (E.contents errors.old) (E.contents errors.new) }
{
    tell_text(word, Apart::Blank, text, errors);
    Status::Refused
}
