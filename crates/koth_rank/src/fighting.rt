//! The matches of a field, each pair's once.

ghost use Rattle.std.specs.Prelude.{◌≡◌, ◌<◌, ◌≤◌, ◌++◌, ◌∷◌, [], true, length, All, List, OnOk};
ghost use Rattle.{war_types.specs.Warrior.Fits, koth_text.specs.Tally.points_of, koth_contests.specs.{Met.EndsLine, Lines.{counts_columns, counts_told}}};
ghost use Rattle.{koth_field.specs.Field.{entrant_of, entrants_of}, koth_standings.specs.{Pairs.IsPair, Standings.{AreOf, most_matches}, declared.pairs.Pair.Pair}};
ghost use Rattle.koth_rank.specs.Matches.{kept_line, kept_match, number_of, count_of, pair_line, pair_tally, told_match, EndsMatches};

use crate::plan::{Fought, Plan};
use crate::progress::Progress;
use koth_commands::trouble::Trouble;
use koth_commands::{Status, put_name};
use koth_contests::{contender, contest_line, contest_tally, put_file, write_line};
use koth_field::Member;
use koth_standings::{Pair, PairsOfPart};
use koth_text::Piece::{Number, Padded, Right, Text};
use koth_text::columns::Alignment;
use koth_text::{Tally, put_all};
use koth_words::{Part, View};
use mars_core::Arena;
use std::alloc::{AllocError, Allocator};
use std::io::Write;
use std::rt::Clock;
use war_types::Settings;

/// Plays the match of each pair of a field that the plan has, and adds it to what came of those before, which is
/// nothing. For programs that read JSON it writes the line of each match as soon as that was fought.
pub(crate) fn fight_field<R: Clock, A: Allocator + Copy, O: Write, E: Write>(
    rt: &R,
    alloc: A,
    settings: &Settings,
    members: &[Member<A>],
    plan: Plan,
    fought: &mut Fought<A>,
    output: &mut O,
    errors: &mut E,
) -> Status
    requires fit { All (λ m. Fits settings.now m.warrior) members.now }
    requires few { length members.now ≤ 65536 }
    requires none { AreOf (pair_tally settings.now plan.terms.both (entrants_of members.now))
        (length members.now) [] fought.old.standings }
    requires empty { fought.old.kept.items ≡ [] }
    ensures { EndsMatches settings.now plan (entrants_of members.now) fought.new.standings fought.new.kept.items result
        (O.contents output.old) (O.contents output.new) (E.contents errors.old) (E.contents errors.new) }
{
    match Arena::new(alloc, settings) {
        Ok(mut arena) => fight_pairs(
            rt, alloc, settings, &mut arena, members, plan, fought, output, errors,
        ),
        Err(_) => Trouble::memory().tell(alloc, errors),
    }
}

fn fight_pairs<R: Clock, A: Allocator + Copy, O: Write, E: Write>(
    rt: &R,
    alloc: A,
    settings: &Settings,
    arena: &mut Arena<A>,
    members: &[Member<A>],
    plan: Plan,
    fought: &mut Fought<A>,
    output: &mut O,
    errors: &mut E,
) -> Status
    requires settings { arena.old.settings ≡ settings.now }
    requires fit { All (λ m. Fits settings.now m.warrior) members.now }
    requires few { length members.now ≤ 65536 }
    requires none { AreOf (pair_tally settings.now plan.terms.both (entrants_of members.now))
        (length members.now) [] fought.old.standings }
    requires empty { fought.old.kept.items ≡ [] }
    ensures { EndsMatches settings.now plan (entrants_of members.now) fought.new.standings fought.new.kept.items result
        (O.contents output.old) (O.contents output.new) (E.contents errors.old) (E.contents errors.new) }
{
    let number = number_of(plan.share);
    let count = count_of(plan.share);
    let mut left = PairsOfPart::of(members.len(), number, count);
    let mut progress = Progress::new(rt, members.len(), number, count);
    while let Some(pair) = left.next() {
        match fight_pair(
            alloc, settings, arena, members, pair, plan, fought, output, errors,
        ) {
            Status::Done => progress.tell(rt, alloc, plan.terms.view, errors),
            failed => return failed,
        }
    }
    Status::Done
}

fn number_of(share: Option<Part>) -> u32
    ensures { result ≡ number_of share }
{
    match share {
        Some(share) => share.number,
        None => 1,
    }
}

fn count_of(share: Option<Part>) -> u32
    ensures { result ≡ count_of share }
{
    match share {
        Some(share) => share.count,
        None => 1,
    }
}

/// Plays the match of a pair, and adds it to what came of those before.
fn fight_pair<A: Allocator + Copy, O: Write, E: Write>(
    alloc: A,
    settings: &Settings,
    arena: &mut Arena<A>,
    members: &[Member<A>],
    pair: Pair,
    plan: Plan,
    fought: &mut Fought<A>,
    output: &mut O,
    errors: &mut E,
) -> Status
    requires settings { arena.old.settings ≡ settings.now }
    requires fit { All (λ m. Fits settings.now m.warrior) members.now }
    requires pair { IsPair (length members.now) pair }
    requires many { length fought.old.standings.counts ≡ length members.now }
    requires few { fought.old.standings.matches < most_matches }
    ensures counts { (ps : List Pair)
        → AreOf (pair_tally settings.now plan.terms.both (entrants_of members.now)) (length members.now) ps fought.old.standings
        → AreOf (pair_tally settings.now plan.terms.both (entrants_of members.now))
        (length members.now) (ps ++ pair ∷ []) fought.new.standings }
    ensures kept { result ≡ Status.Done → fought.new.kept.items
        ≡ fought.old.kept.items ++ kept_line settings.now plan (entrants_of members.now) pair }
    ensures settings { arena.new.settings ≡ arena.old.settings }
    ensures ends { EndsLine (pair_line settings.now plan.terms (entrants_of members.now) pair) result
        (O.contents output.old) (O.contents output.new) (E.contents errors.old) (E.contents errors.new) }
{
    let older = &members[pair.older];
    let younger = &members[pair.younger];
    let both = plan.terms.both;
    let tally = contest_tally(arena, &older.warrior, &younger.warrior, settings, both);
    fought.standings.add(pair, tally);
    let kept = &mut fought.kept;
    keep_and_tell(alloc, plan, older, younger, tally, kept, output, errors)
}

/// Keeps the line of a match that comes after the table, and writes that for programs that read JSON.
fn keep_and_tell<A: Allocator + Copy, O: Write, E: Write>(
    alloc: A,
    plan: Plan,
    older: &Member<A>,
    younger: &Member<A>,
    tally: Tally,
    kept: &mut Vec<u8, A>,
    output: &mut O,
    errors: &mut E,
) -> Status
    requires { points_of tally ≤ u64.MAX }
    ensures kept { result ≡ Status.Done → kept.new.items ≡ kept.old.items
        ++ kept_match plan.matches plan.terms.view (entrant_of older.now) (entrant_of younger.now) tally }
    ensures ends { EndsLine (told_match plan.terms.view (entrant_of older.now) (entrant_of younger.now) tally) result
        (O.contents output.old) (O.contents output.new) (E.contents errors.old) (E.contents errors.new) }
{
    match keep_match(kept, plan, older, younger, tally) {
        Ok(()) => tell_match(
            alloc,
            plan.terms.view,
            older,
            younger,
            tally,
            output,
            errors,
        ),
        Err(AllocError) => Trouble::memory().tell(alloc, errors),
    }
}

/// Keeps the line of a match that comes after the table, if such lines are asked for.
fn keep_match<A: Allocator>(
    kept: &mut Vec<u8, A>,
    plan: Plan,
    older: &Member<A>,
    younger: &Member<A>,
    tally: Tally,
) -> Result<(), AllocError>
    requires { points_of tally ≤ u64.MAX }
    ensures { OnOk result (kept.new.items ≡ kept.old.items
        ++ kept_match plan.matches plan.terms.view (entrant_of older.now) (entrant_of younger.now) tally) }
{
    if !plan.matches {
        return Ok(());
    }
    match plan.terms.view {
        View::Plain => put_match_told(kept, older, younger, tally),
        View::Table => put_match_columns(kept, older, younger, tally),
        View::Json => Ok(()),
    }
}

fn put_match_told<A: Allocator>(
    kept: &mut Vec<u8, A>,
    older: &Member<A>,
    younger: &Member<A>,
    tally: Tally,
) -> Result<(), AllocError>
    requires { points_of tally ≤ u64.MAX }
    ensures { OnOk result (kept.new.items ≡ kept.old.items
        ++ kept_match true View.Plain (entrant_of older.now) (entrant_of younger.now) tally) }
{
    put_counts(kept, tally)?;
    put_file(kept, older.file.as_str())?;
    kept.extend_from_slice(b"\t")?;
    put_name(kept, younger.file.as_str())?;
    kept.extend_from_slice(b"\n")
}

fn put_counts<A: Allocator>(kept: &mut Vec<u8, A>, tally: Tally) -> Result<(), AllocError>
    requires { points_of tally ≤ u64.MAX }
    ensures { OnOk result (kept.new.items ≡ kept.old.items ++ counts_told tally) }
{
    put_all(
        kept,
        &[
            Number(tally.won),
            Text(b" "),
            Number(tally.lost),
            Text(b" "),
            Number(tally.tied),
            Text(b" "),
            Number(tally.points()),
        ],
    )
}

fn put_match_columns<A: Allocator>(
    kept: &mut Vec<u8, A>,
    older: &Member<A>,
    younger: &Member<A>,
    tally: Tally,
) -> Result<(), AllocError>
    requires { points_of tally ≤ u64.MAX }
    ensures { OnOk result (kept.new.items ≡ kept.old.items
        ++ kept_match true View.Table (entrant_of older.now) (entrant_of younger.now) tally) }
{
    put_counts_columns(kept, tally)?;
    let name = older.warrior.name().bytes();
    put_all(
        kept,
        &[Text(b"  "), Padded(Alignment::Left, 24, name), Text(b"  ")],
    )?;
    kept.extend_from_slice(younger.warrior.name().bytes())?;
    kept.extend_from_slice(b"\n")
}

fn put_counts_columns<A: Allocator>(kept: &mut Vec<u8, A>, tally: Tally) -> Result<(), AllocError>
    requires { points_of tally ≤ u64.MAX }
    ensures { OnOk result (kept.new.items ≡ kept.old.items ++ counts_columns tally) }
{
    put_all(
        kept,
        &[
            Right(6, tally.won),
            Right(6, tally.lost),
            Right(6, tally.tied),
            Right(8, tally.points()),
        ],
    )
}

/// Writes the line of a match for programs that read JSON.
fn tell_match<A: Allocator + Copy, O: Write, E: Write>(
    alloc: A,
    view: View,
    older: &Member<A>,
    younger: &Member<A>,
    tally: Tally,
    output: &mut O,
    errors: &mut E,
) -> Status
    requires { points_of tally ≤ u64.MAX }
    ensures { EndsLine (told_match view (entrant_of older.now) (entrant_of younger.now) tally) result
        (O.contents output.old) (O.contents output.new) (E.contents errors.old) (E.contents errors.new) }
{
    match view {
        View::Plain | View::Table => Status::Done,
        View::Json => {
            let first = contender(older.file.as_str(), &older.warrior);
            let second = contender(younger.file.as_str(), &younger.warrior);
            let line = contest_line(alloc, View::Json, first, second, tally);
            write_line(alloc, line, output, errors)
        }
    }
}
