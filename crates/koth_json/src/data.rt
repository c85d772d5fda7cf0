//! A hill as one object, which a service shows to programs.

ghost use Rattle.std.specs.Prelude.{◌≡◌, ◌++◌, codes, IfOk, OnOk};
ghost use Rattle.koth_hill.specs.Rows.{row_parts, rows_parts};
ghost use Rattle.koth_json.specs.{Data.{comma_before, data_text, head_text, row_element, row_elements, settings_text}};

use crate::hill::put_row;
use crate::key::Key;
use crate::object::Value::{Number, Text};
use crate::object::{begin, put_fields};
use koth_hill::{Hill, Row};
use std::alloc::{AllocError, Allocator};
use war_types::RawSettings;

/// The object of a hill: its settings, as options give them, without the seed, and an array of its warriors by rank.
/// The error is lack of memory.
pub fn data_text<A: Allocator + Copy, B: Allocator>(
    alloc: A,
    hill: &Hill<B>,
    given: RawSettings,
) -> Result<Vec<u8, A>, AllocError>
    ensures { IfOk result (λ text. text.items ≡ data_text given hill.now) }
{
    let rows = hill.rows(alloc)?;
    let mut text = Vec::new(alloc);
    put_head(&mut text, given)?;
    put_elements(&mut text, hill, rows.as_slice())?;
    text.extend_from_slice(b"]}\n")?;
    Ok(text)
}

/// Begins the object of a hill, up to its warriors. The error is lack of memory.
fn put_head<A: Allocator>(text: &mut Vec<u8, A>, given: RawSettings) -> Result<(), AllocError>
    ensures { OnOk result (text.new.items ≡ text.old.items ++ head_text given) }
{
    begin(text, (Key::Type, Text(b"hill")))?;
    put_settings(text, given)?;
    text.extend_from_slice(b",\"warriors\":[\n")?;
    Ok(())
}

/// Puts settings as further fields.
fn put_settings<A: Allocator>(text: &mut Vec<u8, A>, given: RawSettings) -> Result<(), AllocError>
    ensures { OnOk result (text.new.items ≡ text.old.items ++ settings_text given) }
{
    let fields = [
        (Key::Core, Number(u64::from(given.core))),
        (Key::Cycles, Number(u64::from(given.cycles))),
        (Key::Processes, Number(u64::from(given.processes))),
        (Key::Length, Number(u64::from(given.length))),
        (Key::Distance, Number(u64::from(given.distance))),
        (Key::Rounds, Number(u64::from(given.rounds))),
        (Key::Capacity, Number(u64::from(given.capacity))),
        (Key::ReadLimit, Number(u64::from(given.read_limit))),
        (Key::WriteLimit, Number(u64::from(given.write_limit))),
    ];
    put_fields(text, &fields)
}

/// Puts the warriors in these rows, which are by rank, as the elements of an array. The error is lack of memory.
fn put_elements<A: Allocator, B: Allocator>(
    text: &mut Vec<u8, A>,
    hill: &Hill<B>,
    rows: &[Row<'_>],
) -> Result<(), AllocError>
    ensures { OnOk result (text.new.items ≡ text.old.items ++ row_elements hill.now (rows_parts rows.now)) }
{
    for place in 0..rows.len() {
        put_element(text, hill, place as u64 + 1, &rows[place])?;
    }
    Ok(())
}

/// Puts a warrior, after a comma if it isn't the first.
fn put_element<A: Allocator, B: Allocator>(
    text: &mut Vec<u8, A>,
    hill: &Hill<B>,
    rank: u64,
    row: &Row<'_>,
) -> Result<(), AllocError>
    ensures { OnOk result (text.new.items ≡ text.old.items ++ row_element hill.now rank (row_parts row.now)) }
{
    text.extend_from_slice(comma_before(rank))?;
    put_row(text, hill, rank, row)
}

fn comma_before(rank: u64) -> &'static [u8]
    ensures { result.now ≡ comma_before rank }
{
    if rank > 1 { b"," } else { b"" }
}
