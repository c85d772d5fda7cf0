//! The lines of JSON of `submit` and `try`.

ghost use Rattle.std.specs.Prelude.{◌≡◌, ◌+◌, ◌≤◌, ◌++◌, [], true, decimal, length, vec_capacity, vec_len, IfOk, OnOk};
ghost use Rattle.koth_json.specs.Reply.{fell_line, judged_line, worn_line};
ghost use Rattle.koth_hills.specs.Json.{fallen_lines, fell_lines, json_line, judged_lines, least_lines, settled_lines, youngest_lines};

use crate::settled::Settled;
use crate::submit::Rooms;
use hill_store::Reply;
use itoa::Buffer;
use koth_hill::{Hill, Verdict};
use koth_json::{put_bouts, put_judged, put_least};
use koth_match::Bout;
use koth_protocol::{Line, refusal_line};
use koth_session::line_of;
use koth_views::least_of;
use koth_words::View;
use std::alloc::{AllocError, Allocator};

/// The line of a warrior that this verdict is to place on the hill, with who is pushed off, if lines of JSON are asked
/// for; else it is empty. The error is lack of memory.
pub(crate) fn line_for<A: Allocator + Copy>(
    alloc: A,
    view: View,
    hill: &Hill<A>,
    judged: &Verdict,
) -> Result<Vec<u8, A>, AllocError>
    ensures { view ≡ View.Json → judged.now.stays ≡ true
        → IfOk result (λ line. line.items ≡ judged_line hill.now judged.now) }
{
    match view {
        View::Json => judged_line(alloc, hill, judged),
        View::Plain | View::Table => Ok(Vec::new(alloc)),
    }
}

fn judged_line<A: Allocator + Copy>(
    alloc: A,
    hill: &Hill<A>,
    judged: &Verdict,
) -> Result<Vec<u8, A>, AllocError>
    ensures { judged.now.stays ≡ true → IfOk result (λ line. line.items ≡ judged_line hill.now judged.now) }
{
    let mut line = Vec::new(alloc);
    if judged.stays {
        put_judged(alloc, &mut line, hill, judged)?;
    }
    Ok(line)
}

/// The line of a reply, in its room. It needs no memory.
pub(crate) fn json_line<A: Allocator>(rooms: Rooms<A>, reply: &Reply) -> Vec<u8, A>
    requires empty { rooms.line.items ≡ [] }
    requires fits { vec_len rooms.line + 96 ≤ vec_capacity rooms.line }
    ensures { result.items ≡ json_line rooms.placed.items reply.now }
{
    match *reply {
        Reply::Placed { .. } => rooms.placed,
        Reply::Fell { entry, score } => put_in(rooms.line, fell_line(entry, score)),
        Reply::Refused(fault) => put_in(rooms.line, refusal_line(fault)),
        Reply::Memory => put_in(rooms.line, line_of(&Reply::Memory)),
        Reply::Worn => put_in(rooms.line, worn_line()),
        Reply::Disk => put_in(rooms.line, line_of(&Reply::Disk)),
        Reply::Reopen => put_in(rooms.line, line_of(&Reply::Reopen)),
    }
}

/// The room with this line in it.
fn put_in<A: Allocator>(mut room: Vec<u8, A>, line: Line) -> Vec<u8, A>
    requires empty { room.items ≡ [] }
    requires fits { vec_len room + 96 ≤ vec_capacity room }
    ensures { result.items ≡ line }
{
    line.append_to(&mut room);
    room
}

fn fell_line(entry: u64, points: u32) -> Line
    ensures { result ≡ fell_line entry points }
{
    let mut line = Line::new();
    line.put(b"{\"type\":\"fell\",\"entry\":");
    line.put_number(entry);
    line.put(b",\"points\":");
    put_short(&mut line, points);
    line.put(b"}\n");
    line
}

#[tactic(auto, using(crate::proofs::JsonLines::worn_is))]
fn worn_line() -> Line
    ensures { result ≡ worn_line }
{
    let mut line = Line::new();
    line.put(b"{\"type\":\"worn\"}\n");
    line
}

/// Writes a number of 32 bits, which has at most 10 digits.
fn put_short(line: &mut Line, number: u32)
    requires { length line.old + 10 ≤ 96 }
    ensures value { line.new ≡ line.old ++ decimal number }
    ensures len { length line.new ≤ length line.old + 10 }
{
    line.put(Buffer::new().format(number).as_bytes());
}

/// What is after the line of a reply, by the hill after it: the matches of a warrior that was placed, and what one that
/// fell is told. No match is fought.
pub(crate) fn matches_lines<A: Allocator + Copy>(
    alloc: A,
    hill: &Hill<A>,
    settled: &Settled<A>,
) -> Result<Vec<u8, A>, AllocError>
    ensures { IfOk result (λ text. text.items ≡ settled_lines hill.now settled.now.reply settled.now.judged) }
{
    match settled.reply {
        Reply::Placed { entry, .. } => youngest_lines(alloc, hill, entry),
        Reply::Fell { entry, .. } => fell_lines(alloc, hill, entry, &settled.judged),
        Reply::Refused(_) | Reply::Memory | Reply::Worn | Reply::Disk | Reply::Reopen => {
            Ok(Vec::new(alloc))
        }
    }
}

/// The matches that a hill keeps of its youngest, which has this entry, with the others.
fn youngest_lines<A: Allocator + Copy>(
    alloc: A,
    hill: &Hill<A>,
    entry: u64,
) -> Result<Vec<u8, A>, AllocError>
    ensures { IfOk result (λ text. text.items ≡ youngest_lines entry hill.now) }
{
    let mut lines = Vec::new(alloc);
    let count = hill.len();
    if count > 0 {
        put_bouts(&mut lines, hill, entry, hill.bouts(count - 1))?;
    }
    Ok(lines)
}

/// What a warrior is told that fell under this entry, by its verdict.
fn fell_lines<A: Allocator + Copy>(
    alloc: A,
    hill: &Hill<A>,
    entry: u64,
    judged: &Option<Verdict>,
) -> Result<Vec<u8, A>, AllocError>
    ensures { IfOk result (λ text. text.items ≡ fell_lines entry hill.now judged.now) }
{
    match judged {
        Some(judged) => fallen_lines(alloc, hill, entry, judged.bouts()),
        None => Ok(Vec::new(alloc)),
    }
}

/// Of an entry that falls, by the results of its matches with all on the hill: the lowest points of those that stay,
/// and these matches.
fn fallen_lines<A: Allocator + Copy>(
    alloc: A,
    hill: &Hill<A>,
    entry: u64,
    bouts: &[Bout],
) -> Result<Vec<u8, A>, AllocError>
    ensures { IfOk result (λ text. text.items ≡ fallen_lines entry hill.now bouts.now) }
{
    let least = least_of(alloc, hill, bouts)?;
    let mut lines = Vec::new(alloc);
    put_lowest(&mut lines, least)?;
    put_bouts(&mut lines, hill, entry, bouts)?;
    Ok(lines)
}

fn put_lowest<A: Allocator>(lines: &mut Vec<u8, A>, least: Option<u64>) -> Result<(), AllocError>
    ensures { OnOk result (lines.new.items ≡ lines.old.items ++ least_lines least) }
{
    match least {
        Some(points) => put_least(lines, points),
        None => Ok(()),
    }
}

/// The matches of a challenger with all on the hill, and before these, if it would fall, the lowest points of those
/// that stay.
pub(crate) fn judged_lines<A: Allocator + Copy>(
    alloc: A,
    hill: &Hill<A>,
    judged: &Verdict,
) -> Result<Vec<u8, A>, AllocError>
    ensures { IfOk result (λ text. text.items ≡ judged_lines hill.now judged.now) }
{
    if judged.stays {
        let mut lines = Vec::new(alloc);
        put_bouts(&mut lines, hill, judged.entry, judged.bouts())?;
        Ok(lines)
    } else {
        fallen_lines(alloc, hill, judged.entry, judged.bouts())
    }
}
