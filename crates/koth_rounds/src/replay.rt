//! The command `replay`: from the sources of two warriors to the page of one round of their match.

ghost use Rattle.std.specs.Prelude.{◌≡◌, true, None, IfErr, IfOk, OnOk, MatchResult, is_some};
ghost use Rattle.{war_types.specs.Settings.settings_of, koth_commands.specs.{Streams.streams, Trouble.IsReadFault}, koth_contests.specs.Pair.ArePairOf};
ghost use Rattle.koth_rounds.specs.{Asked.{has_round, may_have, HasNone, IsShown, ShowsNone}, Ends.IsAnswer, Replay.{with_page, EndsReplay, EndsReplayUnder, IsPage, IsWatched}};

use crate::asked::{none_told, number_of, number_past, refuse_round};
use crate::page::{page_told, sentence_told, told_round};
use crate::page_file::write_page;
use koth_commands::trouble::Trouble;
use koth_commands::{Answer, Reason, Status, deliver, refuse_settings};
use koth_contests::{Pair, answer_none, pair_from};
use koth_words::{Round, View, Watched};
use mars_core::Arena;
use std::alloc::{AllocError, Allocator};
use std::io::{Read, Write};
use std::rt::Files;
use war_types::{RawSettings, Settings};

/// Plays a round of the match of two warriors, the older one with a definition if one is given, under the settings that
/// are given, and writes the page that shows it, on
/// the output or to a file, which is made only where there is a page; and for people, on standard error, how it ended,
/// and why. Settings that are out of their ranges are refused
/// before anything is read, and so is a round that the match doesn't have. The older warrior is read and assembled
/// before the younger one's source is opened.
pub fn replay<R: Files, A: Allocator + Copy, I: Read, O: Write, E: Write>(
    rt: &R,
    alloc: A,
    given: RawSettings,
    watched: Watched<'_>,
    input: &mut I,
    output: &mut O,
    errors: &mut E,
) -> Status
    ensures { EndsReplay watched.entry.round (is_some watched.entry.define) (is_some watched.entry.page) (settings_of given) result
        (streams None (O.contents output.old) (E.contents errors.old))
        (streams None (O.contents output.new) (E.contents errors.new)) }
{
    match Settings::new(given) {
        Ok(settings) => match number_past(&settings, watched.round) {
            Some(number) => refuse_round(alloc, given.rounds, number, errors),
            None => replay_asked(rt, alloc, &settings, watched, input, output, errors),
        },
        Err(fault) => refuse_settings(alloc, given, fault, errors),
    }
}

/// Plays a round that the match may have, and writes its page.
fn replay_asked<R: Files, A: Allocator + Copy, I: Read, O: Write, E: Write>(
    rt: &R,
    alloc: A,
    settings: &Settings,
    watched: Watched<'_>,
    input: &mut I,
    output: &mut O,
    errors: &mut E,
) -> Status
    requires { may_have settings.now watched.round ≡ true }
    ensures { EndsReplayUnder settings.now watched.entry.round (is_some watched.entry.define)
        (is_some watched.entry.page) result
        (O.contents output.old) (O.contents output.new) (E.contents errors.old) (E.contents errors.new) }
{
    let done = replay_under(rt, alloc, settings, watched, input);
    deliver(alloc, done, false, output, errors)
}

/// Plays a round of the match of two warriors, and answers with its page.
fn replay_under<'w, R: Files, A: Allocator + Copy, I: Read>(
    rt: &R,
    alloc: A,
    settings: &Settings,
    watched: Watched<'w>,
    input: &mut I,
) -> Result<Answer<A>, Trouble<'w>>
    requires { may_have settings.now watched.round ≡ true }
    ensures { MatchResult result
        (IsAnswer settings.now View.Plain (IsPage settings.now watched.entry.round (is_some watched.entry.page))
        (ShowsNone settings.now watched.entry.round (is_some watched.entry.define)))
        IsReadFault }
{
    let (older, younger) = (watched.older, watched.younger);
    match pair_from(rt, alloc, settings, watched.define, older, younger, input) {
        Ok(pair) => answer_pair(rt, alloc, settings, &pair, watched),
        Err(none) => answer_none(alloc, settings, none, View::Plain),
    }
}

fn answer_pair<'w, R: Files, A: Allocator + Copy>(
    rt: &R,
    alloc: A,
    settings: &Settings,
    pair: &Pair<A>,
    watched: Watched<'w>,
) -> Result<Answer<A>, Trouble<'w>>
    requires pair { ArePairOf settings.now pair.now }
    requires round { may_have settings.now watched.round ≡ true }
    ensures { MatchResult result
        (IsAnswer settings.now View.Plain (IsPage settings.now watched.entry.round (is_some watched.entry.page))
        (HasNone settings.now watched.entry.round))
        IsReadFault }
{
    match answer_round(alloc, settings, pair, watched.round) {
        Ok(mut answer) => match put_page(rt, alloc, watched.page, &mut answer) {
            Ok(()) => Ok(answer),
            Err(trouble) => Err(trouble),
        },
        Err(AllocError) => Err(Trouble::memory()),
    }
}

/// The page of the round that is asked for and its sentence, or a sentence that there is none.
fn answer_round<A: Allocator + Copy>(
    alloc: A,
    settings: &Settings,
    pair: &Pair<A>,
    round: Round,
) -> Result<Answer<A>, AllocError>
    requires pair { ArePairOf settings.now pair.now }
    requires round { may_have settings.now round ≡ true }
    ensures { IfOk result (IsAnswer settings.now View.Plain (IsWatched settings.now round)
        (HasNone settings.now round)) }
{
    let found = number_of(alloc, settings, &pair.older, &pair.younger, round)?;
    match found {
        Some(number) => answer_number(alloc, settings, pair, round, number),
        None => {
            let note = none_told(alloc, settings, round)?;
            Ok(Answer {
                status: Status::Refused,
                text: Vec::new(alloc),
                note,
            })
        }
    }
}

/// The page of the round that is asked for, which has this number, and its sentence.
fn answer_number<A: Allocator + Copy>(
    alloc: A,
    settings: &Settings,
    pair: &Pair<A>,
    round: Round,
    number: u32,
) -> Result<Answer<A>, AllocError>
    requires pair { ArePairOf settings.now pair.now }
    requires has { has_round settings.now number ≡ true }
    requires shown { IsShown settings.now pair.now.older pair.now.younger round number }
    ensures { IfOk result (IsAnswer settings.now View.Plain (IsWatched settings.now round)
        (HasNone settings.now round)) }
{
    let mut arena = Arena::new(alloc, settings)?;
    let told = told_round(&mut arena, settings, &pair.older, &pair.younger, number);
    let text = page_told(
        alloc,
        &mut arena,
        settings,
        &pair.older,
        &pair.younger,
        number,
        &told,
    )?;
    let note = sentence_told(alloc, &pair.older, &pair.younger, &told)?;
    Ok(Answer {
        status: Status::Done,
        text,
        note,
    })
}

/// Writes the page of an answer to the file that is named, in place of the output, if a file is named and there is a
/// page.
fn put_page<'w, R: Files, A: Allocator + Copy>(
    rt: &R,
    alloc: A,
    page: Option<&'w str>,
    answer: &mut Answer<A>,
) -> Result<(), Trouble<'w>>
    ensures put { OnOk result (answer.new ≡ with_page (is_some page.entry) answer.old) }
    ensures failed { IfErr result IsReadFault }
{
    match page {
        Some(path) if matches!(answer.status, Status::Done) => {
            match write_page(rt, alloc, path, answer.text.as_slice()) {
                Ok(()) => {}
                Err(Reason::Memory) => return Err(Trouble::memory()),
                Err(reason) => return Err(Trouble::file(path, reason)),
            }
            answer.text.clear();
            Ok(())
        }
        _ => Ok(()),
    }
}
