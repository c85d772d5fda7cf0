//! The lines of `show`.

ghost use Rattle.std.specs.Prelude.{◌≡◌, ◌+◌, ◌++◌, length, IfOk, OnOk};
ghost use Rattle.koth_hill.specs.Rows.{row_parts, rows_parts};
ghost use Rattle.koth_json.specs.Hill.{bout_line, bout_lines, hill_line, hill_text, kept_lines, matches_text, row_line, row_lines};

use crate::key::Key;
use crate::object::Value::{Number, Text};
use crate::object::put_object;
use koth_hill::{Hill, Member, Row};
use koth_match::Bout;
use koth_text::Tally;
use koth_views::against_all;
use std::alloc::{AllocError, Allocator};
use war_types::RawSettings;

/// The lines of a hill: its own, those of its warriors by rank, and with `matches` those of their matches. `given` are
/// its settings, as options give them. The error is lack of memory.
pub fn hill_text<A: Allocator + Copy, B: Allocator>(
    alloc: A,
    hill: &Hill<B>,
    given: RawSettings,
    matches: bool,
) -> Result<Vec<u8, A>, AllocError>
    ensures { IfOk result (λ text. text.items ≡ hill_text given matches hill.now) }
{
    let rows = hill.rows(alloc)?;
    let mut text = Vec::new(alloc);
    put_hill(&mut text, hill.len() as u64, given)?;
    put_rows(&mut text, hill, rows.as_slice())?;
    put_matches(&mut text, hill, matches)?;
    Ok(text)
}

/// Puts the lines of the matches on a hill, if they are asked for.
fn put_matches<A: Allocator, B: Allocator>(
    lines: &mut Vec<u8, A>,
    hill: &Hill<B>,
    matches: bool,
) -> Result<(), AllocError>
    ensures { OnOk result (lines.new.items ≡ lines.old.items ++ matches_text matches hill.now) }
{
    if matches {
        put_kept(lines, hill)
    } else {
        Ok(())
    }
}

/// Puts the line of a hill: how many warriors are on it, and its settings, as options give them, without the seed. The
/// error is lack of memory.
fn put_hill<A: Allocator>(
    lines: &mut Vec<u8, A>,
    warriors: u64,
    given: RawSettings,
) -> Result<(), AllocError>
    ensures { OnOk result (lines.new.items ≡ lines.old.items ++ hill_line warriors given) }
{
    let fields = [
        (Key::Warriors, Number(warriors)),
        (Key::Core, Number(u64::from(given.core))),
        (Key::Cycles, Number(u64::from(given.cycles))),
        (Key::Processes, Number(u64::from(given.processes))),
        (Key::Length, Number(u64::from(given.length))),
        (Key::Distance, Number(u64::from(given.distance))),
        (Key::Rounds, Number(u64::from(given.rounds))),
        (Key::Capacity, Number(u64::from(given.capacity))),
        (Key::ReadLimit, Number(u64::from(given.read_limit))),
        (Key::WriteLimit, Number(u64::from(given.write_limit))),
    ];
    put_object(lines, "hill", &fields)
}

/// Puts the lines of the warriors in these rows, which are by rank. The error is lack of memory.
fn put_rows<A: Allocator, B: Allocator>(
    lines: &mut Vec<u8, A>,
    hill: &Hill<B>,
    rows: &[Row<'_>],
) -> Result<(), AllocError>
    ensures { OnOk result (lines.new.items ≡ lines.old.items ++ row_lines hill.now (rows_parts rows.now)) }
{
    for place in 0..rows.len() {
        put_row(lines, hill, place as u64 + 1, &rows[place])?;
    }
    Ok(())
}

/// Puts the line of the warrior in a row. The error is lack of memory.
pub(crate) fn put_row<A: Allocator, B: Allocator>(
    lines: &mut Vec<u8, A>,
    hill: &Hill<B>,
    rank: u64,
    row: &Row<'_>,
) -> Result<(), AllocError>
    ensures { OnOk result (lines.new.items ≡ lines.old.items ++ row_line hill.now rank (row_parts row.now)) }
{
    let rounds = against_all(hill, row.entry);
    let fields = [
        (Key::Rank, Number(rank)),
        (Key::Entry, Number(row.entry)),
        (Key::Points, Number(u64::from(row.score))),
        (Key::Age, Number(row.age)),
        (Key::Name, Text(row.name.bytes())),
        (Key::Author, Text(row.author.bytes())),
        (Key::Won, Number(rounds.won)),
        (Key::Lost, Number(rounds.lost)),
        (Key::Tied, Number(rounds.tied)),
    ];
    put_object(lines, "warrior", &fields)
}

/// Puts the lines of the matches on a hill: those of each warrior with the older ones. The error is lack of memory.
fn put_kept<A: Allocator, B: Allocator>(
    lines: &mut Vec<u8, A>,
    hill: &Hill<B>,
) -> Result<(), AllocError>
    ensures { OnOk result (lines.new.items ≡ lines.old.items ++ kept_lines hill.now) }
{
    for place in 0..hill.len() {
        if let Some(member) = hill.member(place) {
            put_bouts(lines, hill, member.entry, hill.bouts(place))?;
        }
    }
    Ok(())
}

/// Puts the lines of the matches of an entry with the first warriors on a hill, who are older, by their results. The
/// error is lack of memory.
pub fn put_bouts<A: Allocator, B: Allocator>(
    lines: &mut Vec<u8, A>,
    hill: &Hill<B>,
    entry: u64,
    bouts: &[Bout],
) -> Result<(), AllocError>
    ensures { OnOk result (lines.new.items ≡ lines.old.items ++ bout_lines entry hill.now.members bouts.now) }
{
    for place in 0..bouts.len() {
        if let Some(older) = hill.member(place) {
            put_bout(lines, entry, &older, bouts[place])?;
        }
    }
    Ok(())
}

/// Puts the line of the match of an entry with an older warrior, from the entry's side.
fn put_bout<A: Allocator, B: Allocator>(
    lines: &mut Vec<u8, A>,
    entry: u64,
    older: &Member<'_, B>,
    bout: Bout,
) -> Result<(), AllocError>
    ensures { OnOk result (lines.new.items ≡ lines.old.items ++ bout_line entry older.now bout) }
{
    let tally = Tally::of_younger(bout);
    let fields = [
        (Key::Entry, Number(entry)),
        (Key::Opponent, Number(older.entry)),
        (Key::OpponentName, Text(older.warrior.name().bytes())),
        (Key::OpponentAuthor, Text(older.warrior.author().bytes())),
        (Key::Won, Number(tally.won)),
        (Key::Lost, Number(tally.lost)),
        (Key::Tied, Number(tally.tied)),
    ];
    put_object(lines, "match", &fields)
}
