//! The command `rank`: from the sources of a field to its table.

ghost use Rattle.std.specs.Prelude.{◌≡◌, ◌≤◌, ◌++◌, ℕ, None, List, length, All, IfOk};
ghost use Rattle.{war_types.specs.{Settings.settings_of, Warrior.Fits}, koth_commands.specs.{Streams.streams, Told.WritesSome}};
ghost use Rattle.{koth_contests.specs.Opponents.names_of, koth_field.specs.Field.entrants_of, koth_standings.specs.Standings.AreOf};
ghost use Rattle.koth_rank.specs.{Matches.{kept_lines, pair_tally, pairs_fought}, Rank.{most_of, most_sources, plan_of, refused_after, EndsRank, EndsRankUnder, EndsSources}, Table.{contenders_of, matches_heading, EndsTable, IsTableOf, IsTold}};

use crate::fighting::fight_field;
use crate::part::part_of_field;
use crate::plan::{Fought, Plan};
use crate::table::{contenders_of, put_matches_heading, table_of};
use koth_commands::trouble::Trouble;
use koth_commands::{Status, refuse_settings, write_whole};
use koth_contests::{Opponent, Terms, opponents_of, write_line};
use koth_field::{Member, field_of};
use koth_standings::Standings;
use koth_words::{Ranking, View};
use std::alloc::{AllocError, Allocator};
use std::io::{Read, Write};
use std::rt::{Clock, Files};
use war_types::{RawSettings, Settings};

/// Most sources of a field.
const MOST_SOURCES: usize = 10_000;

/// Most sources of a field whose matches are told one by one.
const MOST_TOLD: usize = 100;

/// What is told of a field that has more.
const TOO_MANY: &[u8] = b"a field has at most 10000 warriors\n";

/// And where its matches are to be told.
const TOO_MANY_TOLD: &[u8] =
    b"the matches of at most 100 warriors are told: leave out --matches, or rank fewer\n";

/// Plays the match of each two warriors of a field, under the settings that are given, and writes the warriors by
/// points. Settings that are out of their ranges are refused before anything is read. A source that has no warrior is
/// told and left out. A field of more than 10,000 sources is refused, and one of more than 100 if each match is to be
/// told too. Of a part of the matches their counts are written, and no table.
pub fn rank<R: Files + Clock, A: Allocator + Copy, I: Read, O: Write, E: Write>(
    rt: &R,
    alloc: A,
    given: RawSettings,
    ranking: &Ranking<'_>,
    view: View,
    input: &mut I,
    output: &mut O,
    errors: &mut E,
) -> Status
    ensures { EndsRank ranking.now view (settings_of given) result
        (streams None (O.contents output.old) (E.contents errors.old))
        (streams None (O.contents output.new) (E.contents errors.new)) }
{
    match Settings::new(given) {
        Ok(settings) => rank_under(rt, alloc, &settings, ranking, view, input, output, errors),
        Err(fault) => refuse_settings(alloc, given, fault, errors),
    }
}

fn rank_under<R: Files + Clock, A: Allocator + Copy, I: Read, O: Write, E: Write>(
    rt: &R,
    alloc: A,
    settings: &Settings,
    ranking: &Ranking<'_>,
    view: View,
    input: &mut I,
    output: &mut O,
    errors: &mut E,
) -> Status
    ensures { EndsRankUnder settings.now (plan_of ranking.now view) ranking.now.field.items result
        (O.contents output.old) (O.contents output.new) (E.contents errors.old) (E.contents errors.new) }
{
    let plan = plan_of(ranking, view);
    let Ok(sources) = opponents_of(rt, alloc, ranking.field.as_slice()) else {
        return Trouble::memory().tell(alloc, errors);
    };
    if sources.len() > most_of(plan) {
        return refuse_many(plan, errors);
    }
    let found = sources.as_slice();
    rank_sources(rt, alloc, settings, found, plan, input, output, errors)
}

/// What is fought and told by these words, in this view.
fn plan_of(ranking: &Ranking<'_>, view: View) -> Plan
    ensures { result ≡ plan_of ranking.now view }
{
    Plan {
        terms: Terms {
            both: ranking.both,
            view,
        },
        matches: ranking.matches,
        share: ranking.part,
    }
}

/// Most sources of a field of which this is fought and told.
fn most_of(plan: Plan) -> usize
    ensures value { result ≡ most_of plan }
    ensures most { result ≤ most_sources }
{
    if plan.matches {
        MOST_TOLD
    } else {
        MOST_SOURCES
    }
}

/// Tells that a field has too many sources.
fn refuse_many<E: Write>(plan: Plan, errors: &mut E) -> Status
    ensures status { result ≡ Status.Refused }
    ensures told { WritesSome (E.contents errors.old) (E.contents errors.new) }
{
    let _ = write_whole(errors, too_many(plan.matches));
    Status::Refused
}

fn too_many(matches: bool) -> &'static [u8] {
    if matches { TOO_MANY_TOLD } else { TOO_MANY }
}

/// Ranks the warriors of these sources.
fn rank_sources<R: Files + Clock, A: Allocator + Copy, I: Read, O: Write, E: Write>(
    rt: &R,
    alloc: A,
    settings: &Settings,
    sources: &[Opponent<A>],
    plan: Plan,
    input: &mut I,
    output: &mut O,
    errors: &mut E,
) -> Status
    requires { length sources.now ≤ most_sources }
    ensures { EndsSources settings.now plan (names_of sources.now) result
        (O.contents output.old) (O.contents output.new) (E.contents errors.old) (E.contents errors.new) }
{
    let mut members = Vec::new(alloc);
    match field_of(rt, alloc, settings, sources, &mut members, input, errors) {
        Status::Done => rank_field(
            rt,
            alloc,
            settings,
            members.as_slice(),
            plan,
            output,
            errors,
        ),
        Status::Refused => {
            let field = members.as_slice();
            refused_after(rank_field(rt, alloc, settings, field, plan, output, errors))
        }
        failed => failed,
    }
}

/// How the command ends whose field lacks a source's warrior: as refused, unless what came after that failed.
fn refused_after(ranked: Status) -> Status
    ensures { result ≡ refused_after ranked }
{
    match ranked {
        Status::Done => Status::Refused,
        failed => failed,
    }
}

/// Plays the matches of a field, and writes its table.
fn rank_field<R: Clock, A: Allocator + Copy, O: Write, E: Write>(
    rt: &R,
    alloc: A,
    settings: &Settings,
    members: &[Member<A>],
    plan: Plan,
    output: &mut O,
    errors: &mut E,
) -> Status
    requires fit { All (λ m. Fits settings.now m.warrior) members.now }
    requires few { length members.now ≤ 65536 }
    ensures { EndsTable settings.now plan (entrants_of members.now) result
        (O.contents output.old) (O.contents output.new) (E.contents errors.old) (E.contents errors.new) }
{
    let Ok(standings) = Standings::new(alloc, members.len()) else {
        return Trouble::memory().tell(alloc, errors);
    };
    let kept = Vec::new(alloc);
    let mut fought = Fought { standings, kept };
    match fight_field(
        rt,
        alloc,
        settings,
        members,
        plan,
        &mut fought,
        output,
        errors,
    ) {
        Status::Done => {
            let told = told_of(alloc, settings, members, plan, &fought);
            write_line(alloc, told, output, errors)
        }
        failed => failed,
    }
}

/// What is written when all have fought: the table, or of a part its counts.
fn told_of<A: Allocator + Copy>(
    alloc: A,
    settings: &Settings,
    members: &[Member<A>],
    plan: Plan,
    fought: &Fought<A>,
) -> Result<Vec<u8, A>, AllocError>
    requires fit { All (λ m. Fits settings.now m.warrior) members.now }
    requires are { AreOf (pair_tally settings.now plan.terms.both (entrants_of members.now))
        (length (entrants_of members.now)) (pairs_fought plan (length (entrants_of members.now)))
        fought.now.standings }
    requires kept { fought.now.kept.items ≡ kept_lines settings.now plan (entrants_of members.now)
        (pairs_fought plan (length (entrants_of members.now))) }
    ensures { IfOk result (λ text. IsTold plan.share settings.now plan (entrants_of members.now) text.items) }
{
    match plan.share {
        Some(share) => part_of_field(
            alloc,
            settings,
            members,
            plan.terms.both,
            share,
            &fought.standings,
        ),
        None => table_told(alloc, members, plan, fought),
    }
}

/// The table, and the lines of matches that were kept.
fn table_told<A: Allocator + Copy>(
    alloc: A,
    members: &[Member<A>],
    plan: Plan,
    fought: &Fought<A>,
) -> Result<Vec<u8, A>, AllocError>
    requires { length fought.now.standings.counts ≡ length members.now }
    ensures { IfOk result (λ text. (table : List ℕ) × IsTableOf plan.terms.view
        (contenders_of (entrants_of members.now)) fought.now.standings.counts table
        × (text.items ≡ table ++ (matches_heading plan.matches plan.terms.view ++ fought.now.kept.items))) }
{
    let view = plan.terms.view;
    let contenders = contenders_of(alloc, members)?;
    let mut text = table_of(alloc, view, contenders.as_slice(), &fought.standings)?;
    put_matches_heading(&mut text, plan.matches, view)?;
    text.extend_from_slice(fought.kept.as_slice())?;
    Ok(text)
}
