//! One warrior, mine, against others, one after the other.

ghost use Rattle.std.specs.Prelude.{◌≡◌, ◌+◌, ◌≤◌, length, string_bytes};
ghost use Rattle.{war_types.specs.Warrior.Fits, koth_contests.specs.{Contest.{most_rounds, rounds_in}, Lines.entrant, Met.{EndsMade, EndsMeetings, IsLineAnswer, Meets, Notes, TellsNone}, Opponents.names_of, Pair.IsNoneOf}};

use crate::contest::{added, contest_tally};
use crate::lines::{contender, contest_line, heading_line, sum_line};
use crate::opponents::Opponent;
use crate::pair::NoWarrior;
use koth_commands::trouble::Trouble;
use koth_commands::{Answer, Status, deliver, explain, write_whole};
use koth_text::Tally;
use koth_words::View;
use mars_core::Arena;
use std::alloc::{AllocError, Allocator};
use std::io::{Read, Write};
use std::rt::Files;
use war_types::{Settings, Warrior};

/// How contests are played and told.
#[derive(Clone, Copy)]
pub struct Terms {
    /// Whether each match is played in the other order too.
    pub both: bool,
    pub view: View,
}

/// Plays mine against the opponents, in their order. It writes a line for each as soon as that was fought, and at the
/// end a line of all together. `file` is what messages call mine's source. If an opponent has no warrior, standard
/// error says why, and the next one is fought.
pub(crate) fn meet_all<R: Files, A: Allocator + Copy, B: Allocator, I: Read, O: Write, E: Write>(
    rt: &R,
    alloc: A,
    settings: &Settings,
    file: &str,
    mine: &Warrior<B>,
    opponents: &[Opponent<A>],
    terms: Terms,
    input: &mut I,
    output: &mut O,
    errors: &mut E,
) -> Status
    requires mine { Fits settings.now mine.now }
    requires few { length opponents.now ≤ 4294967296 }
    ensures { EndsMeetings settings.now terms (entrant file.now mine.now) (names_of opponents.now) result
        (O.contents output.old) (O.contents output.new) (E.contents errors.old) (E.contents errors.new) }
{
    let Ok(mut arena) = Arena::new(alloc, settings) else {
        return Trouble::memory().tell(alloc, errors);
    };
    let mut sum = Tally {
        won: 0,
        lost: 0,
        tied: 0,
    };
    match write_line(alloc, heading_line(alloc, terms.view), output, errors) {
        Status::Done => {}
        failed => return failed,
    }
    let mut status = Status::Done;
    let mut fought: u64 = 0;
    for place in 0..opponents.len() {
        tell_progress(alloc, terms.view, place, opponents.len(), errors);
        let next = &opponents[place];
        match meet(
            rt, alloc, settings, &mut arena, file, mine, next, terms, &mut sum, input, output,
            errors,
        ) {
            Status::Done => fought += 1,
            Status::Refused => status = Status::Refused,
            failed => return failed,
        }
    }
    let line = sum_line(alloc, terms.view, contender(file, mine), fought, sum);
    match write_line(alloc, line, output, errors) {
        Status::Done => status,
        failed => failed,
    }
}

/// Plays mine against an opponent, writes its line and adds its rounds to the sum; or tells why it has no warrior.
fn meet<R: Files, A: Allocator + Copy, B: Allocator, I: Read, O: Write, E: Write>(
    rt: &R,
    alloc: A,
    settings: &Settings,
    arena: &mut Arena<A>,
    file: &str,
    mine: &Warrior<B>,
    opponent: &Opponent<A>,
    terms: Terms,
    sum: &mut Tally,
    input: &mut I,
    output: &mut O,
    errors: &mut E,
) -> Status
    requires settings { arena.old.settings ≡ settings.now }
    requires mine { Fits settings.now mine.now }
    requires rounds { rounds_in sum.old + most_rounds ≤ u64.MAX }
    ensures meets { Meets settings.now terms (entrant file.now mine.now)
        (string_bytes opponent.now.name) sum.old sum.new result
        (O.contents output.old) (O.contents output.new) (E.contents errors.old) (E.contents errors.new) }
    ensures rounds { rounds_in sum.new ≤ rounds_in sum.old + most_rounds }
    ensures settings { arena.new.settings ≡ arena.old.settings }
{
    match opponent.warrior(rt, alloc, settings, input) {
        Ok(other) => {
            let tally = contest_tally(arena, mine, &other, settings, terms.both);
            *sum = added(*sum, tally);
            let line = contest_line(
                alloc,
                terms.view,
                contender(file, mine),
                contender(opponent.name.as_str(), &other),
                tally,
            );
            write_line(alloc, line, output, errors)
        }
        Err(none) => tell_none(alloc, settings, &none, errors),
    }
}

/// Tells why an opponent has no warrior. That is a refusal, unless memory ran out.
pub fn tell_none<A: Allocator + Copy, E: Write>(
    alloc: A,
    settings: &Settings,
    none: &NoWarrior<'_, A>,
    errors: &mut E,
) -> Status
    requires { IsNoneOf settings.now none.now }
    ensures { TellsNone result (E.contents errors.old) (E.contents errors.new) }
{
    match none {
        NoWarrior::Refused(name, text, _) => {
            explain(alloc, name, text.as_slice(), settings, errors);
            Status::Refused
        }
        NoWarrior::Failed(trouble) | NoWarrior::Undefined(trouble) => {
            match trouble.tell(alloc, errors) {
                Status::NoMemory => Status::NoMemory,
                _ => Status::Refused,
            }
        }
    }
}

/// Says in the view for people which opponent is next. `place` counts from 0. The next line is written over it.
fn tell_progress<A: Allocator, E: Write>(
    alloc: A,
    view: View,
    place: usize,
    count: usize,
    errors: &mut E,
)
    requires { place ≤ 4294967296 }
    ensures { Notes view (E.contents errors.old) (E.contents errors.new) }
{
    if let View::Table = view {
        if let Ok(text) = format!(in alloc; "opponent {} of {}\r", place + 1, count) {
            let _ = write_whole(errors, text.as_bytes());
        }
    }
}

/// Writes a line, if there was memory for it.
pub fn write_line<A: Allocator + Copy, O: Write, E: Write>(
    alloc: A,
    line: Result<Vec<u8, A>, AllocError>,
    output: &mut O,
    errors: &mut E,
) -> Status
    ensures { EndsMade line result
        (O.contents output.old) (O.contents output.new) (E.contents errors.old) (E.contents errors.new) }
{
    deliver(alloc, line_answer(alloc, line), false, output, errors)
}

/// The answer that has this line, if there was memory for it.
fn line_answer<'t, A: Allocator + Copy>(
    alloc: A,
    line: Result<Vec<u8, A>, AllocError>,
) -> Result<Answer<A>, Trouble<'t>>
    ensures { IsLineAnswer line result }
{
    match line {
        Ok(text) => Ok(Answer::done(alloc, text)),
        Err(AllocError) => Err(Trouble::memory()),
    }
}
