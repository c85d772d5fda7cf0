//! A run of the program, from its arguments to its status.

ghost use Rattle.std.specs.Prelude.{◌≡◌, ◌≢◌, None, map, string_bytes};
ghost use Rattle.{koth_commands.specs.Streams.streams, koth_server.specs.Run.{viewed, EndsRequest, EndsRequestUnder, EndsRun, EndsWithout, Leaves}};

use crate::one_session::session;
use crate::serve::serve;
use crate::settled::settled;
use hill_file::TryLock;
use koth_candidates::fight_candidates;
use koth_commands::asm::asm;
use koth_commands::check::check;
use koth_commands::kinds::explain_kind;
use koth_commands::trouble::Trouble;
use koth_commands::{Answer, Status, deliver, lines_text, write_whole};
use koth_contests::fight::fight;
use koth_hills::{perform_page, perform_show, perform_submit, perform_try, tell_lost_header};
use koth_keeping::{perform_audit, perform_copy, perform_create, perform_migrate, perform_reseed};
use koth_rank::{join, rank};
use koth_remote::{perform_show_to, perform_submit_to};
use koth_rounds::replay::replay;
use koth_rounds::trace::trace;
use koth_service::LogWrite;
use koth_words::{NoRequest, Request, Sent, View, parse};
use std::alloc::{AllocError, Allocator, Global};
use std::io::{Read, Write};
use std::net::Net;
use std::random::RandomSource;
use std::rt::{Clock, Files};
use war_types::RawSettings;

/// What is written of arguments that are wrong if there is no memory to say why.
const UNSHOWN: &[u8] = b"error: the arguments are wrong, and there is no memory to say why\n";

/// Does what the arguments ask for, and returns the exit status: 0 done, 1 refused, 2 wrong arguments, 3 a stream or a
/// file failed, 4 out of memory. The first of `words` is the program's name. They are parsed on `heap`, and all other
/// memory comes from `alloc`. If the arguments don't say how tables are laid out, they are in `view`: columns for a
/// terminal, and else lines for programs.
pub fn run<
    R: Files + Net + Clock + RandomSource,
    A: Allocator + Copy,
    I: Read,
    O: Write,
    E: LogWrite,
>(
    rt: &R,
    heap: Global,
    alloc: A,
    words: &[String],
    view: View,
    input: &mut I,
    output: &mut O,
    errors: &mut E,
) -> u8
where
    R::File: TryLock,
    ensures ends { Leaves result (λ status. EndsRun view (map (λ w. string_bytes w) words.now) status
        (streams (I.remaining input.old) (O.contents output.old) (E.contents errors.old))
        (streams (I.remaining input.new) (O.contents output.new) (E.contents errors.new))) }
{
    carry_out(rt, heap, alloc, words, view, input, output, errors).code()
}

fn carry_out<
    R: Files + Net + Clock + RandomSource,
    A: Allocator + Copy,
    I: Read,
    O: Write,
    E: LogWrite,
>(
    rt: &R,
    heap: Global,
    alloc: A,
    words: &[String],
    view: View,
    input: &mut I,
    output: &mut O,
    errors: &mut E,
) -> Status
where
    R::File: TryLock,
    ensures ends { EndsRun view (map (λ w. string_bytes w) words.now) result
        (streams (I.remaining input.old) (O.contents output.old) (E.contents errors.old))
        (streams (I.remaining input.new) (O.contents output.new) (E.contents errors.new)) }
{
    match parse(heap, words, view) {
        Ok(request) => fulfil(rt, alloc, &request, view, input, output, errors),
        Err(none) => answer_without(heap, alloc, none, output, errors),
    }
}

/// Carries out a request.
fn fulfil<
    R: Files + Net + Clock + RandomSource,
    A: Allocator + Copy,
    I: Read,
    O: Write,
    E: LogWrite,
>(
    rt: &R,
    alloc: A,
    request: &Request<'_>,
    view: View,
    input: &mut I,
    output: &mut O,
    errors: &mut E,
) -> Status
where
    R::File: TryLock,
    ensures { EndsRequest view request.now result
        (streams (I.remaining input.old) (O.contents output.old) (E.contents errors.old))
        (streams (I.remaining input.new) (O.contents output.new) (E.contents errors.new)) }
{
    match settled(rt, alloc, request.given()) {
        Ok(settings) => fulfil_under(rt, alloc, settings, request, view, input, output, errors),
        Err(trouble) => trouble.tell(alloc, errors),
    }
}

/// Carries out a request under these settings, if its command takes any.
fn fulfil_under<
    R: Files + Net + Clock + RandomSource,
    A: Allocator + Copy,
    I: Read,
    O: Write,
    E: LogWrite,
>(
    rt: &R,
    alloc: A,
    settings: RawSettings,
    request: &Request<'_>,
    view: View,
    input: &mut I,
    output: &mut O,
    errors: &mut E,
) -> Status
where
    R::File: TryLock,
    ensures { EndsRequestUnder settings view request.now result
        (streams (I.remaining input.old) (O.contents output.old) (E.contents errors.old))
        (streams (I.remaining input.new) (O.contents output.new) (E.contents errors.new)) }
{
    let done = match *request {
        Request::Asm(_, wanted) => {
            return asm(rt, alloc, settings, wanted, input, output, errors);
        }
        Request::Check(_, ref checked) => {
            return check(rt, alloc, settings, checked, input, output, errors);
        }
        Request::Fight(_, ref fighters) => {
            let view = viewed(fighters.view, view);
            return fight(rt, alloc, settings, fighters, view, input, output, errors);
        }
        Request::Many(_, ref candidates) => {
            let opponents = candidates.opponents.as_slice();
            return fight_candidates(rt, alloc, settings, opponents, input, output, errors);
        }
        Request::Join(ref joined) => {
            let parts = joined.parts.as_slice();
            return join(rt, alloc, parts, viewed(joined.view, view), output, errors);
        }
        Request::Rank(_, ref ranking) => {
            let view = viewed(ranking.view, view);
            return rank(rt, alloc, settings, ranking, view, input, output, errors);
        }
        Request::Replay(_, watched) => {
            return replay(rt, alloc, settings, watched, input, output, errors);
        }
        Request::Trace(_, traced) => {
            return trace(rt, alloc, settings, traced, input, output, errors);
        }
        Request::Explain(kind) => return explain_kind(alloc, kind, output, errors),
        Request::Serve(given, ref service) => {
            tell_lost_header(rt, alloc, service.hill, errors);
            return serve(rt, alloc, given, service, output, errors);
        }
        Request::Session(asked) => {
            tell_lost_header(rt, alloc, asked.hill, errors);
            return session(rt, alloc, asked, input, output, errors);
        }
        Request::Create(_, creation) => perform_create(rt, alloc, settings, creation),
        Request::Migrate(files) => perform_migrate(rt, alloc, files),
        Request::Submit(files) => {
            tell_lost_header(rt, alloc, files.hill, errors);
            let view = viewed(files.view, view);
            perform_submit(rt, alloc, files.hill, files.wait, files.source, view, input)
        }
        Request::SubmitTo(_, sent) => {
            let view = viewed(sent.view, view);
            return submit_elsewhere(rt, alloc, settings, sent, view, input, output, errors);
        }
        Request::ShowTo(shown) => perform_show_to(rt, alloc, shown, viewed(shown.view, view)),
        Request::Try(files, define) => {
            tell_lost_header(rt, alloc, files.hill, errors);
            let (source, view) = (files.source, viewed(files.view, view));
            perform_try(rt, alloc, files.hill, source, define, view, input)
        }
        Request::Show(shown) => {
            tell_lost_header(rt, alloc, shown.hill, errors);
            perform_show(rt, alloc, shown, viewed(shown.view, view))
        }
        Request::Page(hill) => {
            tell_lost_header(rt, alloc, hill, errors);
            perform_page(rt, alloc, hill)
        }
        Request::Audit(audited) => {
            tell_lost_header(rt, alloc, audited.hill, errors);
            perform_audit(rt, alloc, audited.hill, viewed(audited.view, view))
        }
        Request::Copy(files) => {
            tell_lost_header(rt, alloc, files.hill, errors);
            perform_copy(rt, alloc, files)
        }
        Request::Reseed(files) => {
            tell_lost_header(rt, alloc, files.hill, errors);
            perform_reseed(rt, alloc, files)
        }
    };
    deliver(alloc, done, lasts(request), output, errors)
}

/// Submits a source to a hill elsewhere, and writes what came of it, also if no one reads that.
fn submit_elsewhere<R: Files + Net, A: Allocator + Copy, I: Read, O: Write, E: Write>(
    rt: &R,
    alloc: A,
    settings: RawSettings,
    sent: Sent<'_>,
    view: View,
    input: &mut I,
    output: &mut O,
    errors: &mut E,
) -> Status
    ensures { result ≢ Status.WordFault }
{
    let done = perform_submit_to(rt, alloc, settings, sent, view, input, output);
    deliver(alloc, done, true, output, errors)
}

/// Whether what a request's command does stays, so that it is reported also if no one reads the answer.
fn lasts(request: &Request<'_>) -> bool {
    matches!(
        *request,
        Request::Create(..)
            | Request::Submit(_)
            | Request::Migrate(_)
            | Request::Copy(_)
            | Request::Reseed(_)
    )
}

/// Writes why the arguments ask for no command: help on the output, a fault on standard error.
fn answer_without<A: Allocator, O: Write, E: Write>(
    heap: Global,
    alloc: A,
    none: NoRequest,
    output: &mut O,
    errors: &mut E,
) -> Status
    ensures { EndsWithout none result
        (streams None (O.contents output.old) (E.contents errors.old))
        (streams None (O.contents output.new) (E.contents errors.new)) }
{
    match none {
        NoRequest::Help(text) => {
            let answer = Answer::done(heap, text.into_bytes());
            deliver(heap, Ok(answer), false, output, errors)
        }
        NoRequest::WordFault(text) => {
            tell_fault(heap, text.as_str(), errors);
            Status::WordFault
        }
        NoRequest::Memory => Trouble::memory().tell(alloc, errors),
    }
}

/// Writes what is wrong with the arguments. They may be names of files, so nothing that a terminal acts upon is written
/// of them.
fn tell_fault<E: Write>(heap: Global, text: &str, errors: &mut E) {
    let _ = match lines_text(heap, text) {
        Ok(shown) => write_whole(errors, shown.as_slice()),
        Err(AllocError) => write_whole(errors, UNSHOWN),
    };
}

/// The view that the arguments ask for, and else the usual one.
fn viewed(asked: Option<View>, usual: View) -> View
    ensures { result ≡ viewed asked usual }
{
    asked.unwrap_or(usual)
}
