//! The lines of `submit`, `try` and `audit`.

ghost use Rattle.std.specs.Prelude.{◌≡◌, ◌++◌, option_map, OnOk};
ghost use Rattle.koth_hill.specs.Rows.{row_parts, rows_parts};
ghost use Rattle.koth_json.specs.{Objects.further_text, Reply.{audit_line, fell_line, judged_line, least_line, placed_line, placed_over, standing_line, untrue_line, worn_line}};
ghost use Rattle.koth_json.specs.Reply.{pushed_fields, row_of, row_that_falls};

use crate::key::Key;
use crate::object::Value::{Null, Number, Text, Truth};
use crate::object::{begin, end_with, put_fields, put_object};
use koth_hill::{Hill, Row, Untrue, Verdict};
use std::alloc::{AllocError, Allocator};

/// Puts the line of a warrior that is on the hill now, of which nothing else is known. The error is lack of memory.
pub fn put_placed<A: Allocator>(
    lines: &mut Vec<u8, A>,
    entry: u64,
    rank: u32,
    points: u32,
) -> Result<(), AllocError>
    ensures { OnOk result (lines.new.items ≡ lines.old.items ++ placed_line entry rank points) }
{
    let fields = [
        (Key::Entry, Number(entry)),
        (Key::Rank, Number(u64::from(rank))),
        (Key::Points, Number(u64::from(points))),
    ];
    put_object(lines, "placed", &fields)
}

/// Puts the line of a warrior that a verdict places on this hill, and who is pushed off for it: entry, name, author and
/// the points in the hill's table, or null if the hill has room. The error is lack of memory.
pub fn put_judged<A: Allocator + Copy, B: Allocator>(
    alloc: A,
    lines: &mut Vec<u8, A>,
    hill: &Hill<B>,
    judged: &Verdict,
) -> Result<(), AllocError>
    ensures { OnOk result (lines.new.items ≡ lines.old.items ++ judged_line hill.now judged.now) }
{
    match hill.rows(alloc) {
        Ok(rows) => put_over(lines, judged, row_that_falls(rows.as_slice(), judged.falls)),
        Err(error) => Err(error),
    }
}

/// The row of the entry that falls, if one does and it is in one of these.
fn row_that_falls<'r>(rows: &[Row<'r>], falls: Option<u64>) -> Option<Row<'r>>
    ensures { option_map row_parts result ≡ row_that_falls (rows_parts rows.now) falls }
{
    match falls {
        Some(entry) => row_of(rows, entry),
        None => None,
    }
}

fn row_of<'r>(rows: &[Row<'r>], entry: u64) -> Option<Row<'r>>
    ensures { option_map row_parts result ≡ row_of (rows_parts rows.now) entry }
{
    for place in 0..rows.len() {
        if rows[place].entry == entry {
            return Some(rows[place]);
        }
    }
    None
}

/// Puts the line of a warrior that is placed, and who is pushed off, by its row.
fn put_over<A: Allocator>(
    lines: &mut Vec<u8, A>,
    judged: &Verdict,
    pushed: Option<Row<'_>>,
) -> Result<(), AllocError>
    ensures { OnOk result (lines.new.items ≡ lines.old.items
        ++ placed_over judged.now (option_map row_parts pushed.entry)) }
{
    let fields = [
        (Key::Entry, Number(judged.entry)),
        (Key::Rank, Number(u64::from(judged.rank))),
        (Key::Points, Number(u64::from(judged.score))),
    ];
    begin(lines, (Key::Type, Text(b"placed")))?;
    put_fields(lines, &fields)?;
    put_pushed(lines, pushed)?;
    end_with(lines, &[])
}

fn put_pushed<A: Allocator>(
    lines: &mut Vec<u8, A>,
    pushed: Option<Row<'_>>,
) -> Result<(), AllocError>
    ensures { OnOk result (lines.new.items ≡ lines.old.items
        ++ further_text (pushed_fields (option_map row_parts pushed.entry))) }
{
    match pushed {
        Some(row) => {
            let fields = [
                (Key::PushedOff, Number(row.entry)),
                (Key::PushedOffName, Text(row.name.bytes())),
                (Key::PushedOffAuthor, Text(row.author.bytes())),
                (Key::PushedOffPoints, Number(u64::from(row.score))),
            ];
            put_fields(lines, &fields)
        }
        None => {
            let fields = [
                (Key::PushedOff, Null),
                (Key::PushedOffName, Null),
                (Key::PushedOffAuthor, Null),
                (Key::PushedOffPoints, Null),
            ];
            put_fields(lines, &fields)
        }
    }
}

/// Puts the line of a warrior that fell at once. The error is lack of memory.
pub fn put_fell<A: Allocator>(
    lines: &mut Vec<u8, A>,
    entry: u64,
    points: u32,
) -> Result<(), AllocError>
    ensures { OnOk result (lines.new.items ≡ lines.old.items ++ fell_line entry points) }
{
    let fields = [
        (Key::Entry, Number(entry)),
        (Key::Points, Number(u64::from(points))),
    ];
    put_object(lines, "fell", &fields)
}

/// Puts the line of the lowest points of those that stay. The error is lack of memory.
pub fn put_least<A: Allocator>(lines: &mut Vec<u8, A>, points: u64) -> Result<(), AllocError>
    ensures { OnOk result (lines.new.items ≡ lines.old.items ++ least_line points) }
{
    put_object(lines, "least", &[(Key::Points, Number(points))])
}

/// Puts the line of a hill that has judged as many warriors as can be counted. The error is lack of memory.
pub fn put_worn<A: Allocator>(lines: &mut Vec<u8, A>) -> Result<(), AllocError>
    ensures { OnOk result (lines.new.items ≡ lines.old.items ++ worn_line) }
{
    put_object(lines, "worn", &[])
}

/// Puts the line of a warrior of a table, of whose matches nothing is known. The error is lack of memory.
pub fn put_standing<'t, A: Allocator>(
    lines: &mut Vec<u8, A>,
    rank: u64,
    entry: u64,
    points: u32,
    age: u64,
    name: &'t [u8],
    author: &'t [u8],
) -> Result<(), AllocError>
    ensures { OnOk result (lines.new.items ≡ lines.old.items
        ++ standing_line rank entry points age name.now author.now) }
{
    let fields = [
        (Key::Rank, Number(rank)),
        (Key::Entry, Number(entry)),
        (Key::Points, Number(u64::from(points))),
        (Key::Age, Number(age)),
        (Key::Name, Text(name)),
        (Key::Author, Text(author)),
    ];
    put_object(lines, "warrior", &fields)
}

/// Puts the line of an audit: whether each result that the hill keeps is its match's, and the first that isn't. The
/// error is lack of memory.
pub fn put_audit<A: Allocator>(
    lines: &mut Vec<u8, A>,
    found: Option<Untrue>,
) -> Result<(), AllocError>
    ensures { OnOk result (lines.new.items ≡ lines.old.items ++ audit_line found) }
{
    match found {
        None => put_object(lines, "audit", &[(Key::Holds, Truth(true))]),
        Some(untrue) => put_untrue(lines, untrue),
    }
}

fn put_untrue<A: Allocator>(lines: &mut Vec<u8, A>, untrue: Untrue) -> Result<(), AllocError>
    ensures { OnOk result (lines.new.items ≡ lines.old.items ++ untrue_line untrue) }
{
    let Untrue { kept, fought, .. } = untrue;
    let fields = [
        (Key::Holds, Truth(false)),
        (Key::Older, Number(untrue.older)),
        (Key::Younger, Number(untrue.younger)),
        (Key::KeptWon, Number(u64::from(kept.older_wins))),
        (Key::KeptLost, Number(u64::from(kept.younger_wins))),
        (Key::KeptTied, Number(u64::from(kept.ties))),
        (Key::FoughtWon, Number(u64::from(fought.older_wins))),
        (Key::FoughtLost, Number(u64::from(fought.younger_wins))),
        (Key::FoughtTied, Number(u64::from(fought.ties))),
    ];
    put_object(lines, "audit", &fields)
}
