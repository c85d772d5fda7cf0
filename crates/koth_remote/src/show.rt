//! The command `show` for a hill elsewhere.

ghost use Rattle.std.specs.Prelude.{◌≡◌, IfOk};
ghost use Rattle.koth_remote.specs.Remote.{EndsAsTable, MayShowTo};

use crate::reach::connected;
use crate::rows::{Row, name_of, put_shown, row_of};
use koth_client::{Ending, ask_table};
use koth_commands::trouble::Trouble;
use koth_commands::{Answer, Reason, Status, name_text};
use koth_json::put_standing;
use koth_text::cells::{Cells, number, word};
use koth_text::columns::{Alignment, table_text};
use koth_words::{ShownAt, View};
use std::alloc::{AllocError, Allocator};
use std::net::Net;

/// The sides of the columns.
const SIDES: [Alignment; 6] = [
    Alignment::Right,
    Alignment::Right,
    Alignment::Right,
    Alignment::Right,
    Alignment::Left,
    Alignment::Left,
];

/// Bytes of an answer that is no table that are told at most.
const STRANGE_MOST: usize = 256;

/// Answers with the table of a hill elsewhere, as its session answers `SHOW`, in columns for people, or as lines of
/// JSON.
pub fn perform_show_to<'s, R: Net, A: Allocator + Copy>(
    rt: &R,
    alloc: A,
    shown: ShownAt<'s>,
    view: View,
) -> Result<Answer<A>, Trouble<'s>>
    ensures { MayShowTo result }
{
    let (mut input, mut output) = match connected(rt, shown.to, shown.timeout) {
        Ok(ends) => ends,
        Err(trouble) => return Err(trouble),
    };
    let told = ask_table(alloc, &mut input, &mut output)?;
    if told.ending != Ending::Whole {
        return Err(Trouble::file(shown.to, Reason::NoAnswer));
    }
    Ok(table_answer(alloc, shown.to, told.bytes.as_slice(), view)?)
}

/// The answer to a table that came.
fn table_answer<A: Allocator + Copy>(
    alloc: A,
    to: &str,
    table: &[u8],
    view: View,
) -> Result<Answer<A>, AllocError>
    ensures ends { IfOk result (λ answer. EndsAsTable answer.status) }
{
    match rows_of(alloc, table)? {
        Some(rows) => {
            let text = told_text(alloc, table, rows.as_slice(), view)?;
            Ok(Answer::done(alloc, text))
        }
        None => strange(alloc, to, table),
    }
}

/// The rows of a table, if each line but the last, a dot, is one.
fn rows_of<'l, A: Allocator + Copy>(
    alloc: A,
    table: &'l [u8],
) -> Result<Option<Vec<Row<'l>, A>>, AllocError> {
    let mut rows = Vec::new(alloc);
    let Some(lines) = table.strip_suffix(b".\n") else {
        return Ok(None);
    };
    for line in lines.split_inclusive(|byte| *byte == b'\n') {
        let Some(row) = line.strip_suffix(b"\n").and_then(row_of) else {
            return Ok(None);
        };
        rows.push(row)?;
    }
    Ok(Some(rows))
}

fn told_text<A: Allocator + Copy>(
    alloc: A,
    table: &[u8],
    rows: &[Row<'_>],
    view: View,
) -> Result<Vec<u8, A>, AllocError> {
    match view {
        View::Plain => {
            let mut text = Vec::new(alloc);
            text.extend_from_slice(table)?;
            Ok(text)
        }
        View::Table => columns(alloc, rows),
        View::Json => json_lines(alloc, rows),
    }
}

/// The table for people.
fn columns<A: Allocator + Copy>(alloc: A, rows: &[Row<'_>]) -> Result<Vec<u8, A>, AllocError> {
    let mut lines = Vec::new(alloc);
    lines.push(heading(alloc)?)?;
    for row in rows {
        lines.push(cells_of(alloc, row)?)?;
    }
    let mut text = table_text(alloc, &SIDES, lines.as_slice())?;
    if rows.is_empty() {
        text.extend_from_slice(b"no warriors yet\n")?;
    }
    Ok(text)
}

fn heading<A: Allocator>(alloc: A) -> Result<Cells<A>, AllocError> {
    Cells::of(
        alloc,
        [
            word(b"rank"),
            word(b"entry"),
            word(b"points"),
            word(b"age"),
            word(b"warrior"),
            word(b"author"),
        ],
    )
}

fn cells_of<A: Allocator>(alloc: A, row: &Row<'_>) -> Result<Cells<A>, AllocError> {
    Cells::of(
        alloc,
        [
            number(row.rank),
            number(row.entry),
            number(u64::from(row.points)),
            number(row.age),
            word(name_of(row.name)),
            word(name_of(row.author)),
        ],
    )
}

/// A line of JSON for each warrior.
fn json_lines<A: Allocator>(alloc: A, rows: &[Row<'_>]) -> Result<Vec<u8, A>, AllocError> {
    let mut lines = Vec::new(alloc);
    for row in rows {
        put_standing(
            &mut lines, row.rank, row.entry, row.points, row.age, row.name, row.author,
        )?;
    }
    Ok(lines)
}

/// The answer to what is no table.
fn strange<A: Allocator + Copy>(alloc: A, to: &str, came: &[u8]) -> Result<Answer<A>, AllocError>
    ensures status { IfOk result (λ answer. answer.status ≡ Status.StreamFault) }
{
    let mut note = Vec::new(alloc);
    note.extend_from_slice(b"DISK ")?;
    note.extend_from_slice(name_text(alloc, to)?.as_slice())?;
    note.extend_from_slice(b": this came, and is no table:\n")?;
    put_shown(&mut note, &came[..came.len().min(STRANGE_MOST)])?;
    Ok(Answer {
        status: Status::StreamFault,
        text: Vec::new(alloc),
        note,
    })
}
