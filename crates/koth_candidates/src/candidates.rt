//! The command `fight --many`: from the sources of opponents to the lines of candidates.

ghost use Rattle.std.specs.Prelude.{◌≡◌, ◌≤◌, None, length, All};
ghost use Rattle.{war_types.specs.{Settings.settings_of, Warrior.Fits}, koth_commands.specs.{Streams.streams, Told.WritesSome}};
ghost use Rattle.{koth_contests.specs.Opponents.names_of, koth_field.specs.Field.entrants_of};
ghost use Rattle.koth_candidates.specs.Candidates.{AnswersInput, EndsAnswers, EndsCandidates, EndsCandidatesUnder, EndsWith};

use crate::answers::answer_of;
use crate::sources::{Taken, next_source};
use koth_commands::trouble::Trouble;
use koth_commands::{Status, refuse_settings, write_whole};
use koth_contests::{Opponent, opponents_of, write_line};
use koth_field::{Member, field_of};
use koth_words::Source;
use mars_core::Arena;
use std::alloc::{AllocError, Allocator};
use std::io::{BufReader, Read, Write};
use std::rt::Files;
use war_types::{RawSettings, Settings};

/// Most opponents.
const MOST_OPPONENTS: usize = 10_000;

/// What is told where the input ends within a source.
const CUT: &[u8] = b"the input ends within a source: end each one with a line that is only a dot\n";

/// Plays the match of each candidate, whose source comes on the input, as the older warrior against each opponent, under
/// the settings that are given. It writes a line for each candidate before it reads the next. Settings that are out of
/// their ranges are refused before anything is read, and so is an opponent that has no warrior.
pub fn fight_candidates<R: Files, A: Allocator + Copy, I: Read, O: Write, E: Write>(
    rt: &R,
    alloc: A,
    given: RawSettings,
    opponents: &[Source<'_>],
    input: &mut I,
    output: &mut O,
    errors: &mut E,
) -> Status
    ensures { EndsCandidates opponents.now (settings_of given) result
        (streams None (O.contents output.old) (E.contents errors.old))
        (streams None (O.contents output.new) (E.contents errors.new)) }
{
    match Settings::new(given) {
        Ok(settings) => fight_under(rt, alloc, &settings, opponents, input, output, errors),
        Err(fault) => refuse_settings(alloc, given, fault, errors),
    }
}

fn fight_under<R: Files, A: Allocator + Copy, I: Read, O: Write, E: Write>(
    rt: &R,
    alloc: A,
    settings: &Settings,
    opponents: &[Source<'_>],
    input: &mut I,
    output: &mut O,
    errors: &mut E,
) -> Status
    ensures { EndsCandidatesUnder settings.now opponents.now result
        (O.contents output.old) (O.contents output.new) (E.contents errors.old) (E.contents errors.new) }
{
    let Ok(sources) = opponents_of(rt, alloc, opponents) else {
        return Trouble::memory().tell(alloc, errors);
    };
    if sources.len() > MOST_OPPONENTS {
        return refuse(b"a field has at most 10000 warriors\n", errors);
    }
    let found = sources.as_slice();
    fight_sources(rt, alloc, settings, found, input, output, errors)
}

/// Answers the candidates on the input, if each of these sources has a warrior.
fn fight_sources<R: Files, A: Allocator + Copy, I: Read, O: Write, E: Write>(
    rt: &R,
    alloc: A,
    settings: &Settings,
    sources: &[Opponent<A>],
    input: &mut I,
    output: &mut O,
    errors: &mut E,
) -> Status
    requires { length sources.now ≤ 10000 }
    ensures { EndsWith settings.now (names_of sources.now) result
        (O.contents output.old) (O.contents output.new) (E.contents errors.old) (E.contents errors.new) }
{
    let mut members = Vec::new(alloc);
    match field_of(rt, alloc, settings, sources, &mut members, input, errors) {
        Status::Done => answer_input(alloc, settings, members.as_slice(), input, output, errors),
        failed => failed,
    }
}

/// Tells why nothing more is answered.
fn refuse<E: Write>(why: &[u8], errors: &mut E) -> Status
    ensures status { result ≡ Status.Refused }
    ensures told { WritesSome (E.contents errors.old) (E.contents errors.new) }
{
    let _ = write_whole(errors, why);
    Status::Refused
}

/// Answers each candidate on the input, of which it reads many bytes at once.
fn answer_input<A: Allocator + Copy, I: Read, O: Write, E: Write>(
    alloc: A,
    settings: &Settings,
    opponents: &[Member<A>],
    input: &mut I,
    output: &mut O,
    errors: &mut E,
) -> Status
    requires fit { All (λ m. Fits settings.now m.warrior) opponents.now }
    requires few { length opponents.now ≤ 65536 }
    ensures { AnswersInput settings.now (entrants_of opponents.now) result
        (O.contents output.old) (O.contents output.new) (E.contents errors.old) (E.contents errors.new) }
{
    let Ok(mut reader) = BufReader::new(alloc, input) else {
        return Trouble::memory().tell(alloc, errors);
    };
    let Ok(mut arena) = Arena::new(alloc, settings) else {
        return Trouble::memory().tell(alloc, errors);
    };
    answer_all(
        alloc,
        settings,
        &mut arena,
        opponents,
        &mut reader,
        output,
        errors,
    )
}

/// Answers each candidate on the input.
pub fn answer_all<A: Allocator + Copy, I: Read, O: Write, E: Write>(
    alloc: A,
    settings: &Settings,
    arena: &mut Arena<A>,
    opponents: &[Member<A>],
    input: &mut I,
    output: &mut O,
    errors: &mut E,
) -> Status
    requires settings { arena.old.settings ≡ settings.now }
    requires fit { All (λ m. Fits settings.now m.warrior) opponents.now }
    requires few { length opponents.now ≤ 65536 }
    ensures { EndsAnswers settings.now (entrants_of opponents.now) result (I.remaining input.old) (I.remaining input.new)
        (O.contents output.old) (O.contents output.new) (E.contents errors.old) (E.contents errors.new) }
{
    for _ in 0..u64::MAX {
        let script = match next_source(alloc, input) {
            Ok(Taken::Source(script)) => script,
            Ok(Taken::End) => return Status::Done,
            Ok(Taken::Cut) => return refuse(CUT, errors),
            Err(trouble) => return trouble.tell(alloc, errors),
        };
        let line = answer_of(alloc, settings, arena, opponents, script.source());
        match write_line(alloc, line, output, errors) {
            Status::Done => {}
            failed => return failed,
        }
    }
    refuse(CUT, errors)
}
