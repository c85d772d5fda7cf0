//! The text of a part of a field's matches.

ghost use Rattle.std.specs.Prelude.{◌≡◌, ◌++◌, true, map, IfOk, OnOk};
ghost use Rattle.koth_standings.specs.PartText.{end_text, head_parts, head_text, part_parts, part_text, row_of, row_parts, row_text, rows_text};

use koth_text::Piece::{Number, Text};
use koth_text::{Tally, put_all};
use std::alloc::{AllocError, Allocator};

/// What a part says of itself: the matches of part `number` of `count`, of which the first is 1.
#[derive(Clone, Copy)]
pub struct PartHead<'t> {
    pub number: u32,
    pub count: u32,
    /// The settings of the matches, as options.
    pub settings: &'t str,
    /// The digest of the field.
    pub field: &'t str,
}

/// A warrior in a part, and its rounds in the matches of the part.
#[derive(Clone, Copy)]
pub struct Row<'t> {
    pub tally: Tally,
    /// What its line calls it.
    pub label: &'t str,
}

/// A part that was read.
#[derive(Drop)]
pub struct PartRead<'t, A: Allocator> {
    pub head: PartHead<'t>,
    /// In the order of the field.
    pub rows: Vec<Row<'t>, A>,
    /// How many matches the rounds are of.
    pub matches: u64,
}

/// Why a text is no part.
#[derive(Clone, Copy, PartialEq, Eq)]
pub enum NoPart {
    /// It isn't the text of a part, or not all of it.
    Cut,
    /// Out of memory.
    Memory,
}

impl From<AllocError> for NoPart {
    fn from(_: AllocError) -> NoPart {
        NoPart::Memory
    }
}

/// Puts the head of a part. The error is lack of memory.
pub fn put_head<A: Allocator>(text: &mut Vec<u8, A>, head: PartHead<'_>) -> Result<(), AllocError>
    ensures { OnOk result (text.new.items ≡ text.old.items ++ head_text (head_parts head.entry)) }
{
    put_all(
        text,
        &[
            Text(b"part "),
            Number(u64::from(head.number)),
            Text(b"/"),
            Number(u64::from(head.count)),
            Text(b"\nsettings "),
            Text(head.settings.as_bytes()),
            Text(b"\nfield "),
            Text(head.field.as_bytes()),
            Text(b"\n"),
        ],
    )
}

/// Puts the line of a warrior. The error is lack of memory.
pub fn put_row<A: Allocator>(
    text: &mut Vec<u8, A>,
    tally: Tally,
    label: &[u8],
) -> Result<(), AllocError>
    ensures { OnOk result (text.new.items ≡ text.old.items ++ row_text (row_of tally label.now)) }
{
    put_all(
        text,
        &[
            Number(tally.won),
            Text(b" "),
            Number(tally.lost),
            Text(b" "),
            Number(tally.tied),
            Text(b" "),
            Text(label),
            Text(b"\n"),
        ],
    )
}

/// Puts the last line of a part. The error is lack of memory.
pub fn put_end<A: Allocator>(text: &mut Vec<u8, A>, matches: u64) -> Result<(), AllocError>
    ensures { OnOk result (text.new.items ≡ text.old.items ++ end_text matches) }
{
    put_all(text, &[Text(b"matches "), Number(matches), Text(b"\n")])
}

/// Reads a text that is a part's, byte for byte.
pub fn read_part<'t, A: Allocator + Copy>(
    alloc: A,
    text: &'t str,
) -> Result<PartRead<'t, A>, NoPart>
    ensures { IfOk result (λ part. text.entry.now ≡ part_text (part_parts part)) }
{
    let part = match lines_read(alloc, text) {
        Ok(part) => part,
        Err(fault) => return Err(fault),
    };
    match is_text_of(alloc, text, &part) {
        Ok(true) => Ok(part),
        Ok(false) => Err(NoPart::Cut),
        Err(AllocError) => Err(NoPart::Memory),
    }
}

/// Whether this is the text of a part. The error is lack of memory.
fn is_text_of<A: Allocator + Copy>(
    alloc: A,
    text: &str,
    part: &PartRead<'_, A>,
) -> Result<bool, AllocError>
    ensures { IfOk result (λ is. is ≡ true → text.now ≡ part_text (part_parts part.now)) }
{
    match text_of(alloc, part) {
        Ok(written) => Ok(is_same(text.as_bytes(), written.as_slice())),
        Err(error) => Err(error),
    }
}

fn is_same(first: &[u8], second: &[u8]) -> bool
    ensures { result ≡ true → first.now ≡ second.now }
{
    first == second
}

/// The text of a part. The error is lack of memory.
fn text_of<A: Allocator + Copy>(alloc: A, part: &PartRead<'_, A>) -> Result<Vec<u8, A>, AllocError>
    ensures { IfOk result (λ text. text.items ≡ part_text (part_parts part.now)) }
{
    let mut text = Vec::new(alloc);
    put_head(&mut text, part.head)?;
    put_rows(&mut text, part.rows.as_slice())?;
    put_end(&mut text, part.matches)?;
    Ok(text)
}

fn put_rows<A: Allocator>(text: &mut Vec<u8, A>, rows: &[Row<'_>]) -> Result<(), AllocError>
    ensures { OnOk result (text.new.items ≡ text.old.items ++ rows_text (map row_parts rows.now)) }
{
    for row in rows {
        put_row(text, row.tally, row.label.as_bytes())?;
    }
    Ok(())
}

/// What the lines of a text say, in whatever order they come.
fn lines_read<'t, A: Allocator + Copy>(alloc: A, text: &'t str) -> Result<PartRead<'t, A>, NoPart> {
    let mut part = PartRead {
        head: PartHead {
            number: 0,
            count: 0,
            settings: "",
            field: "",
        },
        rows: Vec::new(alloc),
        matches: 0,
    };
    for line in text.lines() {
        if let Err(fault) = take_line(&mut part, line) {
            return Err(fault);
        }
    }
    Ok(part)
}

fn take_line<'t, A: Allocator>(part: &mut PartRead<'t, A>, line: &'t str) -> Result<(), NoPart> {
    if let Some(behind) = line.strip_prefix("part ") {
        return take_number(&mut part.head, behind);
    }
    if let Some(behind) = line.strip_prefix("settings ") {
        part.head.settings = behind;
        return Ok(());
    }
    if let Some(behind) = line.strip_prefix("field ") {
        part.head.field = behind;
        return Ok(());
    }
    if let Some(behind) = line.strip_prefix("matches ") {
        part.matches = number_of(behind)?;
        return Ok(());
    }
    let row = row_of(line)?;
    push_row(&mut part.rows, row)?;
    Ok(())
}

fn push_row<'t, A: Allocator>(rows: &mut Vec<Row<'t>, A>, row: Row<'t>) -> Result<(), AllocError> {
    rows.push(row)?;
    Ok(())
}

fn take_number(head: &mut PartHead<'_>, text: &str) -> Result<(), NoPart> {
    let Some((number, count)) = text.split_once('/') else {
        return Err(NoPart::Cut);
    };
    head.number = small_number(number)?;
    head.count = small_number(count)?;
    Ok(())
}

/// The warrior of a line.
fn row_of(line: &str) -> Result<Row<'_>, NoPart> {
    let (won, behind) = number_before(line)?;
    let (lost, behind) = number_before(behind)?;
    let (tied, label) = number_before(behind)?;
    let tally = Tally { won, lost, tied };
    Ok(Row { tally, label })
}

/// The number before the first blank, and what is behind that.
fn number_before(text: &str) -> Result<(u64, &str), NoPart> {
    match text.split_once(' ') {
        Some((number, behind)) => Ok((number_of(number)?, behind)),
        None => Err(NoPart::Cut),
    }
}

fn number_of(text: &str) -> Result<u64, NoPart> {
    match text.parse::<u64>() {
        Ok(number) => Ok(number),
        Err(_) => Err(NoPart::Cut),
    }
}

fn small_number(text: &str) -> Result<u32, NoPart> {
    match text.parse::<u32>() {
        Ok(number) => Ok(number),
        Err(_) => Err(NoPart::Cut),
    }
}
