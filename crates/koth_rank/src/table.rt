//! The lines of ranked warriors.

ghost use Rattle.std.specs.Prelude.{◌≡◌, ◌<◌, ◌≤◌, ◌++◌, codes, get_or, length, map, All, IfOk, OnOk};
ghost use Rattle.{koth_text.specs.Tally.points_of, koth_json.specs.{Contest.contender_parts, declared.contest.Contender.Contender}, koth_contests.specs.Lines.{opponent_columns, opponent_told}, koth_field.specs.Field.entrants_of};
ghost use Rattle.koth_rank.specs.Table.{contenders_of, heading, matches_heading, ranked_columns, ranked_line, ranked_lines, ranked_told, IsTableOf};

use koth_contests::{contender, put_both_names, put_file};
use koth_field::Member;
use koth_json::{Contender, put_ranked};
use koth_standings::Standings;
use koth_text::Piece::{Number, Right, Text};
use koth_text::{Tally, put_all};
use koth_words::View;
use std::alloc::{AllocError, Allocator};

/// What lines say of the members of a field. The error is lack of memory.
pub(crate) fn contenders_of<'m, A: Allocator + Copy>(
    alloc: A,
    members: &'m [Member<A>],
) -> Result<Vec<Contender<'m>, A>, AllocError>
    ensures { IfOk result (λ contenders. map contender_parts contenders.items
        ≡ contenders_of (entrants_of members.entry.now)) }
{
    let mut contenders = Vec::new(alloc);
    for place in 0..members.len() {
        let member = &members[place];
        contenders.push(contender(member.file.as_str(), &member.warrior))?;
    }
    Ok(contenders)
}

/// The table of a field: a line for each warrior by points, and of equals the earlier first. A line has the rank, the
/// points, the rounds won, lost and tied, and what the warrior's source is called. For people they are in columns under
/// a heading, with the name of the warrior before the source's. The error is lack of memory.
pub(crate) fn table_of<A: Allocator + Copy>(
    alloc: A,
    view: View,
    contenders: &[Contender<'_>],
    standings: &Standings<A>,
) -> Result<Vec<u8, A>, AllocError>
    requires { length standings.now.counts ≡ length contenders.now }
    ensures { IfOk result (λ text.
        IsTableOf view (map contender_parts contenders.now) standings.now.counts text.items) }
{
    match standings.ranking(alloc) {
        Ok(ranked) => lines_of(alloc, view, contenders, standings, ranked.as_slice()),
        Err(error) => Err(error),
    }
}

/// The heading, and the lines of the warriors at these places, the first with rank 1.
fn lines_of<A: Allocator>(
    alloc: A,
    view: View,
    contenders: &[Contender<'_>],
    standings: &Standings<A>,
    ranked: &[usize],
) -> Result<Vec<u8, A>, AllocError>
    requires many { length standings.now.counts ≡ length contenders.now }
    requires within { All (λ place. place < length contenders.now) ranked.now }
    ensures { IfOk result (λ text. text.items
        ≡ heading view ++ ranked_lines view (map contender_parts contenders.now) standings.now.counts ranked.now) }
{
    let mut text = Vec::new(alloc);
    put_heading(&mut text, view)?;
    put_lines(&mut text, view, contenders, standings, ranked)?;
    Ok(text)
}

/// Puts the heading of the lines, which is empty for programs.
fn put_heading<A: Allocator>(text: &mut Vec<u8, A>, view: View) -> Result<(), AllocError>
    ensures { OnOk result (text.new.items ≡ text.old.items ++ heading view) }
{
    match view {
        View::Plain | View::Json => Ok(()),
        View::Table => text.extend_from_slice(
            b" rank   points     won    lost    tied  warrior                   file\n",
        ),
    }
}

/// Puts the heading of the lines of matches, if these are asked for.
pub(crate) fn put_matches_heading<A: Allocator>(
    text: &mut Vec<u8, A>,
    matches: bool,
    view: View,
) -> Result<(), AllocError>
    ensures { OnOk result (text.new.items ≡ text.old.items ++ matches_heading matches view) }
{
    match view {
        View::Table if matches => text.extend_from_slice(
            b"   won  lost  tied  points  older                     younger\n",
        ),
        _ => Ok(()),
    }
}

fn put_lines<A: Allocator>(
    text: &mut Vec<u8, A>,
    view: View,
    contenders: &[Contender<'_>],
    standings: &Standings<A>,
    ranked: &[usize],
) -> Result<(), AllocError>
    requires many { length standings.now.counts ≡ length contenders.now }
    requires within { All (λ place. place < length contenders.now) ranked.now }
    ensures { OnOk result (text.new.items ≡ text.old.items
        ++ ranked_lines view (map contender_parts contenders.now) standings.now.counts ranked.now) }
{
    for at in 0..ranked.len() {
        let place = place_at(ranked, at);
        put_line(
            text,
            view,
            at as u64 + 1,
            contenders[place],
            standings.tally(place),
        )?;
    }
    Ok(())
}

/// The place with this number in a ranking.
fn place_at(ranked: &[usize], at: usize) -> usize
    requires { at < length ranked.now }
    ensures { result ≡ get_or ranked.now at 0 }
{
    ranked[at]
}

/// Puts the line of a warrior with its rank.
fn put_line<A: Allocator>(
    text: &mut Vec<u8, A>,
    view: View,
    rank: u64,
    warrior: Contender<'_>,
    tally: Tally,
) -> Result<(), AllocError>
    requires { points_of tally ≤ u64.MAX }
    ensures { OnOk result (text.new.items ≡ text.old.items
        ++ ranked_line view rank (contender_parts warrior.entry) tally) }
{
    match view {
        View::Plain => put_told(text, rank, warrior, tally),
        View::Table => put_columns(text, rank, warrior, tally),
        View::Json => put_ranked(text, rank, warrior, tally, tally.points()),
    }
}

fn put_told<A: Allocator>(
    text: &mut Vec<u8, A>,
    rank: u64,
    warrior: Contender<'_>,
    tally: Tally,
) -> Result<(), AllocError>
    requires { points_of tally ≤ u64.MAX }
    ensures { OnOk result (text.new.items ≡ text.old.items
        ++ (ranked_told rank tally ++ (opponent_told warrior.entry.file.now ++ codes "\n"))) }
{
    put_numbers(text, rank, tally)?;
    put_file(text, warrior.file)?;
    text.extend_from_slice(b"\n")
}

fn put_numbers<A: Allocator>(
    text: &mut Vec<u8, A>,
    rank: u64,
    tally: Tally,
) -> Result<(), AllocError>
    requires { points_of tally ≤ u64.MAX }
    ensures { OnOk result (text.new.items ≡ text.old.items ++ ranked_told rank tally) }
{
    put_all(
        text,
        &[
            Number(rank),
            Text(b" "),
            Number(tally.points()),
            Text(b" "),
            Number(tally.won),
            Text(b" "),
            Number(tally.lost),
            Text(b" "),
            Number(tally.tied),
        ],
    )
}

fn put_columns<A: Allocator>(
    text: &mut Vec<u8, A>,
    rank: u64,
    warrior: Contender<'_>,
    tally: Tally,
) -> Result<(), AllocError>
    requires { points_of tally ≤ u64.MAX }
    ensures { OnOk result (text.new.items ≡ text.old.items
        ++ (ranked_columns rank tally
        ++ (opponent_columns warrior.entry.name.now warrior.entry.file.now ++ codes "\n"))) }
{
    put_number_columns(text, rank, tally)?;
    put_both_names(text, warrior.name.bytes(), warrior.file)?;
    text.extend_from_slice(b"\n")
}

fn put_number_columns<A: Allocator>(
    text: &mut Vec<u8, A>,
    rank: u64,
    tally: Tally,
) -> Result<(), AllocError>
    requires { points_of tally ≤ u64.MAX }
    ensures { OnOk result (text.new.items ≡ text.old.items ++ ranked_columns rank tally) }
{
    put_all(
        text,
        &[
            Right(5, rank),
            Right(9, tally.points()),
            Right(8, tally.won),
            Right(8, tally.lost),
            Right(8, tally.tied),
        ],
    )
}
