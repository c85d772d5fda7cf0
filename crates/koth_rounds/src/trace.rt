//! The command `trace`: from the sources of two warriors to the turns of one round of their match.

ghost use Rattle.std.specs.Prelude.{◌≡◌, true, None, IfOk, MatchResult, is_some};
ghost use Rattle.{war_types.specs.Settings.settings_of, koth_commands.specs.{Streams.streams, Trouble.IsReadFault}, koth_contests.specs.Pair.ArePairOf};
ghost use Rattle.koth_rounds.specs.{Asked.{has_round, may_have, HasNone, IsShown, ShowsNone}, Ends.IsAnswer, Trace.{view_of, EndsTrace, EndsTraceUnder, IsTraced}};

use crate::asked::{none_told, number_of, number_past, refuse_round};
use crate::traced::trace_text;
use koth_commands::trouble::Trouble;
use koth_commands::{Answer, Status, deliver, refuse_settings};
use koth_contests::{Pair, answer_none, pair_from};
use koth_words::{Form, Traced, View};
use std::alloc::{AllocError, Allocator};
use std::io::{Read, Write};
use std::rt::Files;
use war_types::{RawSettings, Settings};

/// Plays a round of the match of two warriors, the older one with a definition if one is given, under the settings that
/// are given, and writes its turns, each with what it changed. Settings that are out of their ranges are refused before anything is read, and so is a round that the
/// match doesn't have. The older warrior is read and assembled before the younger one's source is opened.
pub fn trace<R: Files, A: Allocator + Copy, I: Read, O: Write, E: Write>(
    rt: &R,
    alloc: A,
    given: RawSettings,
    traced: Traced<'_>,
    input: &mut I,
    output: &mut O,
    errors: &mut E,
) -> Status
    ensures { EndsTrace traced.entry.round (is_some traced.entry.define) traced.entry.last traced.entry.form (settings_of given) result
        (streams None (O.contents output.old) (E.contents errors.old))
        (streams None (O.contents output.new) (E.contents errors.new)) }
{
    match Settings::new(given) {
        Ok(settings) => match number_past(&settings, traced.round) {
            Some(number) => refuse_round(alloc, given.rounds, number, errors),
            None => trace_asked(rt, alloc, &settings, traced, input, output, errors),
        },
        Err(fault) => refuse_settings(alloc, given, fault, errors),
    }
}

/// Plays a round that the match may have, and writes its turns.
fn trace_asked<R: Files, A: Allocator + Copy, I: Read, O: Write, E: Write>(
    rt: &R,
    alloc: A,
    settings: &Settings,
    traced: Traced<'_>,
    input: &mut I,
    output: &mut O,
    errors: &mut E,
) -> Status
    requires { may_have settings.now traced.round ≡ true }
    ensures { EndsTraceUnder settings.now traced.entry.round (is_some traced.entry.define) traced.entry.last
        traced.entry.form result
        (O.contents output.old) (O.contents output.new) (E.contents errors.old) (E.contents errors.new) }
{
    let done = trace_under(rt, alloc, settings, traced, input);
    deliver(alloc, done, false, output, errors)
}

/// Plays a round of the match of two warriors, and answers with its turns.
fn trace_under<'w, R: Files, A: Allocator + Copy, I: Read>(
    rt: &R,
    alloc: A,
    settings: &Settings,
    traced: Traced<'w>,
    input: &mut I,
) -> Result<Answer<A>, Trouble<'w>>
    requires { may_have settings.now traced.round ≡ true }
    ensures { MatchResult result
        (IsAnswer settings.now (view_of traced.entry.form)
        (IsTraced settings.now traced.entry.round traced.entry.last traced.entry.form)
        (ShowsNone settings.now traced.entry.round (is_some traced.entry.define)))
        IsReadFault }
{
    let (older, younger) = (traced.older, traced.younger);
    match pair_from(rt, alloc, settings, traced.define, older, younger, input) {
        Ok(pair) => answer_pair(alloc, settings, &pair, traced),
        Err(none) => answer_none(alloc, settings, none, view_of(traced.form)),
    }
}

fn view_of(form: Form) -> View
    ensures { result ≡ view_of form }
{
    match form {
        Form::Text => View::Plain,
        Form::Json => View::Json,
    }
}

fn answer_pair<'w, A: Allocator + Copy>(
    alloc: A,
    settings: &Settings,
    pair: &Pair<A>,
    traced: Traced<'w>,
) -> Result<Answer<A>, Trouble<'w>>
    requires pair { ArePairOf settings.now pair.now }
    requires round { may_have settings.now traced.round ≡ true }
    ensures { MatchResult result
        (IsAnswer settings.now (view_of traced.entry.form)
        (IsTraced settings.now traced.entry.round traced.entry.last traced.entry.form)
        (HasNone settings.now traced.entry.round))
        IsReadFault }
{
    match answer_round(alloc, settings, pair, traced) {
        Ok(answer) => Ok(answer),
        Err(AllocError) => Err(Trouble::memory()),
    }
}

/// The turns of the round that is asked for, or a sentence that there is none.
fn answer_round<A: Allocator + Copy>(
    alloc: A,
    settings: &Settings,
    pair: &Pair<A>,
    traced: Traced<'_>,
) -> Result<Answer<A>, AllocError>
    requires pair { ArePairOf settings.now pair.now }
    requires round { may_have settings.now traced.round ≡ true }
    ensures { IfOk result (IsAnswer settings.now (view_of traced.entry.form)
        (IsTraced settings.now traced.entry.round traced.entry.last traced.entry.form)
        (HasNone settings.now traced.entry.round)) }
{
    let found = number_of(alloc, settings, &pair.older, &pair.younger, traced.round)?;
    match found {
        Some(number) => answer_number(alloc, settings, pair, traced, number),
        None => {
            let note = none_told(alloc, settings, traced.round)?;
            Ok(Answer {
                status: Status::Refused,
                text: Vec::new(alloc),
                note,
            })
        }
    }
}

/// The turns of the round that is asked for, which has this number.
fn answer_number<A: Allocator + Copy>(
    alloc: A,
    settings: &Settings,
    pair: &Pair<A>,
    traced: Traced<'_>,
    number: u32,
) -> Result<Answer<A>, AllocError>
    requires pair { ArePairOf settings.now pair.now }
    requires has { has_round settings.now number ≡ true }
    requires shown { IsShown settings.now pair.now.older pair.now.younger traced.round number }
    ensures { IfOk result (IsAnswer settings.now (view_of traced.entry.form)
        (IsTraced settings.now traced.entry.round traced.entry.last traced.entry.form)
        (HasNone settings.now traced.entry.round)) }
{
    let (last, form) = (traced.last, traced.form);
    let text = trace_text(
        alloc,
        settings,
        &pair.older,
        &pair.younger,
        number,
        last,
        form,
    )?;
    Ok(Answer::done(alloc, text))
}
