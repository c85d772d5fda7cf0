//! The requests that the arguments of a command line make.

ghost use Rattle.std.specs.Prelude.{◌≡◌, ◌≢◌, ◌⊎◌, codes, map, IfOk, IfErr, IsErrAnd, string_bytes};
ghost use Rattle.clap.specs.Words.{found_of, kind_of, rows_of, subcommand_name_of, subcommand_of, subcommand_rows_of};
ghost use Rattle.koth_words.specs.Words.{given_in, koth_app, AreClear, AreTaken, AreWrong, AskForHelp, Asks, AsksBy, HasAddress, IsCommandName, IsHelp, IsRefusal, NamesCommand};

use crate::clear::unclear;
use crate::contests::{
    assembled_named, candidates_named, checked_named, fighters_named, joined_named, ranking_named,
    traced_named, watched_named,
};
use crate::given::{
    audited_named, copied_named, creation_named, file_named, flag_given, is_remote,
    migration_named, option_given, reseeded_named, sent_named, shown_at_named, shown_named,
    submission_named, text_given,
};
use crate::habits::{begin_with_source, fight_of, habit_among};
use crate::requests::{NoRequest, Request, View};
use crate::serving::{service_named, session_named};
use crate::settings::{given_named, settings_given};
use clap::error::ErrorKind;
use clap::{ArgMatches, Error};
use koth_options::koth_command;
use std::alloc::{AllocError, Global};

/// What a command line asks for, where tables are in `view` unless it asks for another. The first of `words` is the
/// program's name.
///
/// Words that are taken (`AreTaken`) give the request of their command: words that `koth_app` takes by `clap`'s own
/// definition, and that are clear (`AreClear`). Those that ask for help or for the version give that text. All others
/// give a text that says what is wrong. Without memory for any of these the answer is `NoRequest::Memory`.
pub fn parse(heap: Global, words: &[String], view: View) -> Result<Request<'_>, NoRequest>
    ensures request { IfOk result (λ request.
        AsksBy (subcommand_of koth_app (map (λ w. string_bytes w) words.entry.now)) request) }
    ensures taken { AreTaken view (map (λ w. string_bytes w) words.entry.now)
        → IfErr result (λ e. e ≡ NoRequest.Memory) }
    ensures wrong { AreWrong view (map (λ w. string_bytes w) words.entry.now) → IsErrAnd result IsRefusal }
    ensures help { AskForHelp (map (λ w. string_bytes w) words.entry.now) → IsErrAnd result IsHelp }
{
    let command = match koth_command(heap) {
        Ok(command) => command,
        Err(AllocError) => return Err(NoRequest::Memory),
    };
    match command.try_get_matches_from(words) {
        Ok(matches) => request_of(heap, &matches, view),
        Err(error) => Err(no_request(heap, &error, words)),
    }
}

fn request_of<'w>(
    heap: Global,
    matches: &ArgMatches<'w>,
    view: View,
) -> Result<Request<'w>, NoRequest>
    requires { NamesCommand (subcommand_name_of matches.now) }
    ensures request { IfOk result (λ request. AsksBy (subcommand_rows_of matches.now) request) }
    ensures taken { AreClear view (given_in (subcommand_rows_of matches.now))
        → IfErr result (λ e. e ≡ NoRequest.Memory) }
    ensures wrong { (AreClear view (given_in (subcommand_rows_of matches.now)) → ⊥) → IsErrAnd result IsRefusal }
{
    let Some((name, given)) = matches.subcommand() else {
        unreachable!()
    };
    if let Some(why) = unclear(view, given) {
        return Err(word_fault(heap, why));
    }
    match asked(heap, name, given) {
        Ok(request) => Ok(request),
        Err(AllocError) => Err(NoRequest::Memory),
    }
}

/// The request of the command of this name.
fn asked<'w>(heap: Global, name: &str, given: &ArgMatches<'w>) -> Result<Request<'w>, AllocError>
    requires name { IsCommandName name.now }
    requires listen { HasAddress (rows_of (found_of given.now)) }
    ensures { IfOk result (Asks (name.now, rows_of (found_of given.now))) }
{
    match name {
        "asm" => Ok(Request::Asm(given_named(given), assembled_named(given))),
        "check" => match checked_named(heap, given) {
            Ok(checked) => Ok(Request::Check(given_named(given), checked)),
            Err(error) => Err(error),
        },
        "fight" => fight_asked(heap, given),
        "create" => Ok(Request::Create(given_named(given), creation_named(given))),
        "submit" => Ok(submission_asked(given)),
        "show" => Ok(table_asked(given)),
        "serve" => match service_named(heap, given) {
            Ok(service) => Ok(Request::Serve(settings_given(given), service)),
            Err(error) => Err(error),
        },
        "session" => Ok(Request::Session(session_named(given))),
        "audit" => Ok(Request::Audit(audited_named(given))),
        "migrate" => Ok(Request::Migrate(migration_named(given))),
        "page" => Ok(Request::Page(file_named(given, "FILE"))),
        "replay" => Ok(Request::Replay(given_named(given), watched_named(given))),
        "trace" => Ok(Request::Trace(given_named(given), traced_named(given))),
        "try" => Ok(Request::Try(submission_named(given), text_given(given, "define"))),
        "copy" => Ok(Request::Copy(copied_named(given))),
        "reseed" => Ok(Request::Reseed(reseeded_named(given))),
        "rank" => rank_asked(heap, given),
        "explain" => Ok(Request::Explain(text_given(given, "KIND"))),
        _ => unreachable!(),
    }
}

/// The request of `fight`: of one older warrior, or of many.
fn fight_asked<'w>(heap: Global, given: &ArgMatches<'w>) -> Result<Request<'w>, AllocError>
    ensures { IfOk result (Asks (codes "fight", rows_of (found_of given.now))) }
{
    if flag_given(given, "many") {
        return match candidates_named(heap, given) {
            Ok(candidates) => Ok(Request::Many(given_named(given), candidates)),
            Err(error) => Err(error),
        };
    }
    match fighters_named(heap, given) {
        Ok(fighters) => Ok(Request::Fight(given_named(given), fighters)),
        Err(error) => Err(error),
    }
}

/// The request of `rank`: of a field, or of the parts of its matches.
fn rank_asked<'w>(heap: Global, given: &ArgMatches<'w>) -> Result<Request<'w>, AllocError>
    ensures { IfOk result (Asks (codes "rank", rows_of (found_of given.now))) }
{
    if flag_given(given, "join") {
        return match joined_named(heap, given) {
            Ok(joined) => Ok(Request::Join(joined)),
            Err(error) => Err(error),
        };
    }
    match ranking_named(heap, given) {
        Ok(ranking) => Ok(Request::Rank(given_named(given), ranking)),
        Err(error) => Err(error),
    }
}

/// The request of `submit`: to a hill in a file, or to one elsewhere.
fn submission_asked<'w>(given: &ArgMatches<'w>) -> Request<'w>
    ensures { Asks (codes "submit", rows_of (found_of given.now)) result }
{
    if is_remote(given) {
        Request::SubmitTo(given_named(given), sent_named(given))
    } else {
        Request::Submit(submission_named(given))
    }
}

/// The request of `show`: of a hill in a file, or of one elsewhere.
fn table_asked<'w>(given: &ArgMatches<'w>) -> Request<'w>
    ensures { Asks (codes "show", rows_of (found_of given.now)) result }
{
    if option_given(given, "to") {
        Request::ShowTo(shown_at_named(given))
    } else {
        Request::Show(shown_named(given))
    }
}

/// The refusal of words, as `clap` writes its own.
fn word_fault(heap: Global, why: &str) -> NoRequest
    ensures { IsRefusal result }
{
    match format!(in heap; "error: {why}\n\nFor more information, try '--help'.\n") {
        Ok(text) => NoRequest::WordFault(text),
        Err(AllocError) => NoRequest::Memory,
    }
}

/// Why words that `clap` doesn't take give no request.
fn no_request(heap: Global, error: &Error, words: &[String]) -> NoRequest
    ensures memory { kind_of error.now ≡ ErrorKind.OutOfMemory → result ≡ NoRequest.Memory }
    ensures wrong { kind_of error.now ≢ ErrorKind.DisplayHelp
        → kind_of error.now ≢ ErrorKind.DisplayVersion
        → IsRefusal result }
    ensures help { (kind_of error.now ≡ ErrorKind.DisplayHelp) ⊎ (kind_of error.now ≡ ErrorKind.DisplayVersion)
        → IsHelp result }
{
    if error.kind() == ErrorKind::OutOfMemory {
        return NoRequest::Memory;
    }
    if error.kind() == ErrorKind::UnknownArgument {
        if let Some(why) = habit_among(words) {
            return word_fault(heap, why);
        }
    }
    if error.kind() == ErrorKind::InvalidSubcommand && begin_with_source(words) {
        return match fight_of(heap, words) {
            Ok(why) => word_fault(heap, why.as_str()),
            Err(AllocError) => NoRequest::Memory,
        };
    }
    match error.to_string(heap) {
        Ok(text) if error.use_stderr() => NoRequest::WordFault(text),
        Ok(text) => NoRequest::Help(text),
        Err(AllocError) => NoRequest::Memory,
    }
}
