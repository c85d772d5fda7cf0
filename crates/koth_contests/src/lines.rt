//! The lines of a contest: of an opponent, and of all together.

ghost use Rattle.std.specs.Prelude.{◌≡◌, ◌≤◌, ◌++◌, codes, IfOk, OnOk};
ghost use Rattle.koth_json.specs.Contest.{contender_parts};
ghost use Rattle.{koth_text.specs.Tally.points_of, koth_contests.specs.Lines.{contender, contest_line, counts_columns, counts_told, entrant, heading, opponent_columns, opponent_told, sum_line}};

use koth_commands::put_name;
use koth_json::{Contender, put_match, put_sum};
use koth_text::Piece::{Number, Padded, Right, Text};
use koth_text::columns::Alignment;
use koth_text::{Tally, put_all};
use koth_words::View;
use std::alloc::{AllocError, Allocator};
use war_types::Warrior;

/// A warrior, with what messages call its source.
pub fn contender<'c, A: Allocator>(file: &'c str, warrior: &'c Warrior<A>) -> Contender<'c>
    ensures { contender_parts result ≡ contender (entrant file.now warrior.now) }
{
    Contender {
        file,
        name: warrior.name(),
        author: warrior.author(),
    }
}

/// The line of an opponent: the rounds that mine won, lost and tied against it, mine's points, and what its file is
/// called. For people they are in columns, with the name of the warrior before the file's. A line of JSON has both
/// warriors. The error is lack of memory.
pub fn contest_line<A: Allocator>(
    alloc: A,
    view: View,
    mine: Contender<'_>,
    other: Contender<'_>,
    tally: Tally,
) -> Result<Vec<u8, A>, AllocError>
    requires { points_of tally ≤ u64.MAX }
    ensures { IfOk result (λ line. line.items
        ≡ contest_line view (contender_parts mine.entry) (contender_parts other.entry) tally) }
{
    let mut line = Vec::new(alloc);
    put_contest(&mut line, view, mine, other, tally)?;
    Ok(line)
}

fn put_contest<A: Allocator>(
    line: &mut Vec<u8, A>,
    view: View,
    mine: Contender<'_>,
    other: Contender<'_>,
    tally: Tally,
) -> Result<(), AllocError>
    requires { points_of tally ≤ u64.MAX }
    ensures { OnOk result (line.new.items ≡ line.old.items
        ++ contest_line view (contender_parts mine.entry) (contender_parts other.entry) tally) }
{
    match view {
        View::Plain => put_told_contest(line, other, tally),
        View::Table => put_contest_columns(line, other, tally),
        View::Json => put_match(line, mine, other, tally, tally.points()),
    }
}

/// The line of all opponents together, of which mine fought `count`. The error is lack of memory.
pub fn sum_line<A: Allocator>(
    alloc: A,
    view: View,
    mine: Contender<'_>,
    count: u64,
    tally: Tally,
) -> Result<Vec<u8, A>, AllocError>
    requires { points_of tally ≤ u64.MAX }
    ensures { IfOk result (λ line. line.items ≡ sum_line view (contender_parts mine.entry) count tally) }
{
    let mut line = Vec::new(alloc);
    put_together(&mut line, view, mine, count, tally)?;
    Ok(line)
}

fn put_together<A: Allocator>(
    line: &mut Vec<u8, A>,
    view: View,
    mine: Contender<'_>,
    count: u64,
    tally: Tally,
) -> Result<(), AllocError>
    requires { points_of tally ≤ u64.MAX }
    ensures { OnOk result (line.new.items ≡ line.old.items ++ sum_line view (contender_parts mine.entry) count tally) }
{
    match view {
        View::Plain => put_told_sum(line, tally),
        View::Table => put_sum_columns(line, tally),
        View::Json => put_sum(line, mine, count, tally, tally.points()),
    }
}

/// The heading of the opponents' lines, which is empty for programs. The error is lack of memory.
pub(crate) fn heading_line<A: Allocator>(alloc: A, view: View) -> Result<Vec<u8, A>, AllocError>
    ensures { IfOk result (λ line. line.items ≡ heading view) }
{
    let mut line = Vec::new(alloc);
    if let View::Table = view {
        line.extend_from_slice(b"   won  lost  tied  points  warrior                   file\n")?;
    }
    Ok(line)
}

fn put_told_contest<A: Allocator>(
    line: &mut Vec<u8, A>,
    other: Contender<'_>,
    tally: Tally,
) -> Result<(), AllocError>
    requires { points_of tally ≤ u64.MAX }
    ensures { OnOk result (line.new.items ≡ line.old.items
        ++ (counts_told tally ++ (opponent_told other.entry.file.now ++ codes "\n"))) }
{
    put_told(line, tally)?;
    put_file(line, other.file)?;
    line.extend_from_slice(b"\n")
}

fn put_contest_columns<A: Allocator>(
    line: &mut Vec<u8, A>,
    other: Contender<'_>,
    tally: Tally,
) -> Result<(), AllocError>
    requires { points_of tally ≤ u64.MAX }
    ensures { OnOk result (line.new.items ≡ line.old.items
        ++ (counts_columns tally ++ (opponent_columns other.entry.name.now other.entry.file.now ++ codes "\n"))) }
{
    put_columns(line, tally)?;
    put_both_names(line, other.name.bytes(), other.file)?;
    line.extend_from_slice(b"\n")
}

fn put_told_sum<A: Allocator>(line: &mut Vec<u8, A>, tally: Tally) -> Result<(), AllocError>
    requires { points_of tally ≤ u64.MAX }
    ensures { OnOk result (line.new.items ≡ line.old.items ++ (counts_told tally ++ codes "\n")) }
{
    put_told(line, tally)?;
    line.extend_from_slice(b"\n")
}

fn put_sum_columns<A: Allocator>(line: &mut Vec<u8, A>, tally: Tally) -> Result<(), AllocError>
    requires { points_of tally ≤ u64.MAX }
    ensures { OnOk result (line.new.items ≡ line.old.items ++ (counts_columns tally ++ codes "\n")) }
{
    put_columns(line, tally)?;
    line.extend_from_slice(b"\n")
}

/// Puts the counts and the points.
fn put_told<A: Allocator>(line: &mut Vec<u8, A>, tally: Tally) -> Result<(), AllocError>
    requires { points_of tally ≤ u64.MAX }
    ensures { OnOk result (line.new.items ≡ line.old.items ++ counts_told tally) }
{
    put_all(
        line,
        &[
            Number(tally.won),
            Text(b" "),
            Number(tally.lost),
            Text(b" "),
            Number(tally.tied),
            Text(b" "),
            Number(tally.points()),
        ],
    )
}

fn put_columns<A: Allocator>(line: &mut Vec<u8, A>, tally: Tally) -> Result<(), AllocError>
    requires { points_of tally ≤ u64.MAX }
    ensures { OnOk result (line.new.items ≡ line.old.items ++ counts_columns tally) }
{
    put_all(
        line,
        &[
            Right(6, tally.won),
            Right(6, tally.lost),
            Right(6, tally.tied),
            Right(8, tally.points()),
        ],
    )
}

/// Puts the name of a warrior, and what its file is called. The error is lack of memory.
pub fn put_both_names<A: Allocator>(
    line: &mut Vec<u8, A>,
    name: &[u8],
    file: &str,
) -> Result<(), AllocError>
    ensures { OnOk result (line.new.items ≡ line.old.items ++ opponent_columns name.now file.now) }
{
    let column = Padded(Alignment::Left, 24, name);
    put_all(line, &[Text(b"  "), column, Text(b"  ")])?;
    put_name(line, file)
}

/// Puts what a file is called, after the numbers of its line. The error is lack of memory.
pub fn put_file<A: Allocator>(line: &mut Vec<u8, A>, file: &str) -> Result<(), AllocError>
    ensures { OnOk result (line.new.items ≡ line.old.items ++ opponent_told file.now) }
{
    line.extend_from_slice(b" ")?;
    put_name(line, file)
}
