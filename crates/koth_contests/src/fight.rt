//! The command `fight`: from the sources of a warrior and of its opponents to the counts of their matches.

ghost use Rattle.std.specs.Prelude.{◌≡◌, [], true, None, IfOk, MatchOption, MatchResult};
ghost use Rattle.{war_types.specs.Settings.settings_of, koth_commands.specs.{Pair.IsWarriorOf, Streams.{source_name, streams}, Trouble.{no_memory, IsReadFault}}};
ghost use Rattle.koth_contests.specs.{Lines.entrant, Fight.{bout_line, bout_text, definition_of, EndsFight, EndsFightUnder, EndsMany, IsAlone, IsFoughtOf, IsToldOf, MayBeMany, MayBeNoMatch}, Pair.{ArePairOf, IsAnswer}};

use crate::lines::{contender, contest_line};
use crate::meeting::{Terms, meet_all};
use crate::opponents::{is_folder, opponents_of};
use crate::pair::{Pair, answer_none, pair_from, warrior_from};
use crate::rounds::rounds_text;
use koth_commands::trouble::Trouble;
use koth_commands::{Answer, Status, deliver, refuse_settings, source_name};
use koth_match::Bout;
use koth_text::{Tally, bout_view};
use koth_words::{Fighters, Source, View};
use mars_core::Arena;
use std::alloc::{AllocError, Allocator};
use std::io::{Read, Write};
use std::rt::Files;
use war_types::{RawSettings, Settings, Warrior};

/// Most opponents that are met: more don't fit the memory.
const MOST_OPPONENTS: usize = 4_294_967_296;

/// What is told if rounds are asked for of a folder.
const NO_ROUNDS: &[u8] =
    b"error: the argument '--each' takes one opponent, and no folder\n\nFor more information, try '--help'.\n";

/// Plays the matches of a warrior against its opponents, under the settings that are given, and writes their counts.
/// Settings that are out of their ranges are refused before anything is read. Of two sources it writes the counts of
/// their match, or with `each` its rounds; of more it writes a line for each opponent as soon as that was fought. The
/// older warrior is read and assembled, with a definition if one is given, before another source is opened.
pub fn fight<R: Files, A: Allocator + Copy, I: Read, O: Write, E: Write>(
    rt: &R,
    alloc: A,
    given: RawSettings,
    fighters: &Fighters<'_>,
    view: View,
    input: &mut I,
    output: &mut O,
    errors: &mut E,
) -> Status
    ensures { EndsFight fighters.now view (settings_of given) result
        (streams None (O.contents output.old) (E.contents errors.old))
        (streams None (O.contents output.new) (E.contents errors.new)) }
{
    match Settings::new(given) {
        Ok(settings) => fight_under(rt, alloc, &settings, fighters, view, input, output, errors),
        Err(fault) => refuse_settings(alloc, given, fault, errors),
    }
}

fn fight_under<R: Files, A: Allocator + Copy, I: Read, O: Write, E: Write>(
    rt: &R,
    alloc: A,
    settings: &Settings,
    fighters: &Fighters<'_>,
    view: View,
    input: &mut I,
    output: &mut O,
    errors: &mut E,
) -> Status
    ensures { EndsFightUnder settings.now fighters.now view result
        (O.contents output.old) (O.contents output.new) (E.contents errors.old) (E.contents errors.new) }
{
    match lone_opponent(rt, fighters) {
        Some(younger) => {
            let done = fight_two(rt, alloc, settings, fighters, younger, view, input);
            deliver(alloc, done, false, output, errors)
        }
        None => fight_many(rt, alloc, settings, fighters, view, input, output, errors),
    }
}

/// The opponent whose match alone is told, if there is such a one: with `each` the first opponent, else the only one,
/// if it is no folder and isn't met in the other order too.
fn lone_opponent<'w, R: Files>(rt: &R, fighters: &Fighters<'w>) -> Option<Source<'w>>
    ensures { MatchOption result (MayBeMany fighters.now.each fighters.now.opponents.items)
        (IsAlone fighters.now.both fighters.now.each fighters.now.opponents.items) }
{
    match fighters.opponents.as_slice() {
        [first, ..] if fighters.each => Some(*first),
        [only] if !fighters.both && !is_folder(rt, *only) => Some(*only),
        _ => None,
    }
}

/// Plays the match of the older warrior and of `younger`, and answers its counts or its rounds. If rounds are asked for
/// of a folder, which may have many opponents, nothing is read, and the note says so.
fn fight_two<'f, R: Files, A: Allocator + Copy, I: Read>(
    rt: &R,
    alloc: A,
    settings: &Settings,
    fighters: &Fighters<'f>,
    younger: Source<'f>,
    view: View,
    input: &mut I,
) -> Result<Answer<A>, Trouble<'f>>
    ensures { MatchResult result (IsAnswer settings.now view
        (IsFoughtOf (definition_of fighters.now) settings.now fighters.now.older younger.entry fighters.now.each view
        (I.remaining input.old) (I.remaining input.new)) (MayBeNoMatch fighters.now)) IsReadFault }
{
    if is_folder_of_rounds(rt, fighters.each, younger) {
        return no_rounds(alloc);
    }
    let older = fighters.older;
    match pair_from(rt, alloc, settings, fighters.define, older, younger, input) {
        Ok(pair) => match text_of(alloc, settings, older, younger, &pair, fighters.each, view) {
            Ok(text) => Ok(Answer::done(alloc, text)),
            Err(AllocError) => Err(Trouble::memory()),
        },
        Err(none) => answer_none(alloc, settings, none, view),
    }
}

/// Whether rounds are asked for of a folder.
fn is_folder_of_rounds<R: Files>(rt: &R, each: bool, younger: Source<'_>) -> bool
    ensures { result ≡ true → each ≡ true }
{
    each && is_folder(rt, younger)
}

/// The answer if rounds are asked for of a folder.
fn no_rounds<'t, A: Allocator + Copy>(alloc: A) -> Result<Answer<A>, Trouble<'t>>
    ensures { MatchResult result (λ answer. (answer.status ≡ Status.Refused) × (answer.text ≡ []))
        (λ trouble. trouble ≡ no_memory) }
{
    let mut note = Vec::new(alloc);
    note.extend_from_slice(NO_ROUNDS)?;
    Ok(Answer {
        status: Status::Refused,
        text: Vec::new(alloc),
        note,
    })
}

/// Plays the match of two warriors, and gives the text of its counts or of its rounds.
fn text_of<A: Allocator + Copy>(
    alloc: A,
    settings: &Settings,
    older: Source<'_>,
    younger: Source<'_>,
    pair: &Pair<A>,
    each: bool,
    view: View,
) -> Result<Vec<u8, A>, AllocError>
    requires { ArePairOf settings.now pair.now }
    ensures { IfOk result (λ text. IsToldOf settings.now each view (entrant (source_name older.entry) pair.now.older)
        (entrant (source_name younger.entry) pair.now.younger) text.items) }
{
    if each {
        return rounds_text(alloc, settings, &pair.older, &pair.younger, view);
    }
    let mut arena = Arena::new(alloc, settings)?;
    let bout = koth_match::fight(&mut arena, &pair.older, &pair.younger, settings);
    let first = source_name(older);
    let second = source_name(younger);
    bout_text(alloc, view, first, second, pair, bout)
}

/// The counts of a match of two warriors whose sources messages call `older` and `younger`: as a line for programs, in
/// columns for people, or as a line of JSON.
fn bout_text<A: Allocator + Copy>(
    alloc: A,
    view: View,
    older: &str,
    younger: &str,
    pair: &Pair<A>,
    bout: Bout,
) -> Result<Vec<u8, A>, AllocError>
    ensures { IfOk result (λ text. text.items
        ≡ bout_text view (entrant older.now pair.now.older) (entrant younger.now pair.now.younger) bout) }
{
    match view {
        View::Plain => bout_line(alloc, bout),
        View::Table => bout_view(alloc, &pair.older, &pair.younger, bout),
        View::Json => bout_object(alloc, older, younger, pair, bout),
    }
}

/// The line of JSON of a match: a contest of the older warrior against the younger one.
fn bout_object<A: Allocator>(
    alloc: A,
    older: &str,
    younger: &str,
    pair: &Pair<A>,
    bout: Bout,
) -> Result<Vec<u8, A>, AllocError>
    ensures { IfOk result (λ text. text.items
        ≡ bout_text View.Json (entrant older.now pair.now.older) (entrant younger.now pair.now.younger) bout) }
{
    contest_line(
        alloc,
        View::Json,
        contender(older, &pair.older),
        contender(younger, &pair.younger),
        Tally::of_older(bout),
    )
}

fn bout_line<A: Allocator + Copy>(alloc: A, bout: Bout) -> Result<Vec<u8, A>, AllocError>
    ensures { IfOk result (λ line. line.items ≡ bout_line bout) }
{
    let line = format!(in alloc; "{} {} {}\n", bout.older_wins, bout.younger_wins, bout.ties)?;
    Ok(line.into_bytes())
}

/// Plays the matches of a warrior against all that the words for opponents stand for.
fn fight_many<R: Files, A: Allocator + Copy, I: Read, O: Write, E: Write>(
    rt: &R,
    alloc: A,
    settings: &Settings,
    fighters: &Fighters<'_>,
    view: View,
    input: &mut I,
    output: &mut O,
    errors: &mut E,
) -> Status
    ensures { EndsMany (definition_of fighters.now) settings.now fighters.now.older fighters.now.opponents.items
        (record { both = fighters.now.both; view = view }) result
        (O.contents output.old) (O.contents output.new) (E.contents errors.old) (E.contents errors.new) }
{
    let terms = Terms {
        both: fighters.both,
        view,
    };
    match warrior_from(rt, alloc, settings, fighters.define, fighters.older, input) {
        Ok(mine) => meet_found(
            rt, alloc, settings, &mine, fighters, terms, input, output, errors,
        ),
        Err(none) => {
            let done = answer_none(alloc, settings, none, view);
            deliver(alloc, done, false, output, errors)
        }
    }
}

/// Plays the matches of mine against all that the words for opponents stand for.
fn meet_found<R: Files, A: Allocator + Copy, I: Read, O: Write, E: Write>(
    rt: &R,
    alloc: A,
    settings: &Settings,
    mine: &Warrior<A>,
    fighters: &Fighters<'_>,
    terms: Terms,
    input: &mut I,
    output: &mut O,
    errors: &mut E,
) -> Status
    requires { IsWarriorOf settings.now mine.now }
    ensures { EndsMany (definition_of fighters.now) settings.now fighters.now.older fighters.now.opponents.items
        terms result
        (O.contents output.old) (O.contents output.new) (E.contents errors.old) (E.contents errors.new) }
{
    let Ok(opponents) = opponents_of(rt, alloc, fighters.opponents.as_slice()) else {
        return Trouble::memory().tell(alloc, errors);
    };
    if opponents.len() > MOST_OPPONENTS {
        return Trouble::memory().tell(alloc, errors);
    }
    let file = source_name(fighters.older);
    let found = opponents.as_slice();
    meet_all(
        rt, alloc, settings, file, mine, found, terms, input, output, errors,
    )
}
