//! The command `rank --join`: from the files of all parts to the table of their field.

ghost use Rattle.std.specs.{Prelude.{◌≡◌, ◌≤◌, MatchResult, length, map}, Io.KnownBytes.Keeps};
ghost use Rattle.{koth_standings.specs.{PartText.head_parts, declared.part_text.Row.Row}, koth_rank.specs.Join.{EndsJoin, Fails, IsJoined, IsNamedTable, Joined, JoinsAll, JoinsOne}};

use crate::names::named_table;
use crate::part_file::{NotJoined, bytes_at, failed, part_in, refuse};
use crate::part_order::{file_at, order_of, other_count};
use koth_commands::trouble::Trouble;
use koth_commands::{Status, source_name};
use koth_contests::write_line;
use koth_standings::{NoPart, NotTaken, PartHead, PartRead, Standings, join_part};
use koth_words::{Source, View};
use std::alloc::{AllocError, Allocator};
use std::io::Write;
use std::rt::Files;

/// Writes the table of a field of which these files have the parts, in any order. A part that is missing, there twice,
/// cut short or of other matches is told, and nothing is written.
pub fn join<R: Files, A: Allocator + Copy, O: Write, E: Write>(
    rt: &R,
    alloc: A,
    files: &[Source<'_>],
    view: View,
    output: &mut O,
    errors: &mut E,
) -> Status
    ensures { EndsJoin view (length files.now) result
        (O.contents output.old) (O.contents output.new) (E.contents errors.old) (E.contents errors.new) }
{
    match table_joined(rt, alloc, files, view, errors) {
        Ok(table) => write_line(alloc, Ok(table), output, errors),
        Err(status) => status,
    }
}

/// The table of the parts in these files, in any order.
fn table_joined<R: Files, A: Allocator + Copy, E: Write>(
    rt: &R,
    alloc: A,
    files: &[Source<'_>],
    view: View,
    errors: &mut E,
) -> Result<Vec<u8, A>, Status>
    ensures { MatchResult result
        (λ table. IsJoined view (length files.now) table.items × Keeps (E.contents errors.old) (E.contents errors.new))
        (λ status. Fails status (E.contents errors.old) (E.contents errors.new)) }
{
    match order_of(rt, alloc, files, errors) {
        Ok(order) => ordered_table(rt, alloc, files, order.as_slice(), view, errors),
        Err(status) => Err(status),
    }
}

/// The table of the parts in these files, which the order names by the numbers of the parts.
fn ordered_table<R: Files, A: Allocator + Copy, E: Write>(
    rt: &R,
    alloc: A,
    files: &[Source<'_>],
    order: &[usize],
    view: View,
    errors: &mut E,
) -> Result<Vec<u8, A>, Status>
    requires { length order.now ≡ length files.now }
    ensures { MatchResult result
        (λ table. IsJoined view (length files.now) table.items × Keeps (E.contents errors.old) (E.contents errors.new))
        (λ status. Fails status (E.contents errors.old) (E.contents errors.new)) }
{
    let Some(file) = file_at(files, order, 0) else {
        return Err(refuse(alloc, NotJoined::Missing(1), errors));
    };
    let name = source_name(file);
    let bytes = match bytes_at(rt, alloc, file, errors) {
        Ok(bytes) => bytes,
        Err(status) => return Err(status),
    };
    match part_in(alloc, name, bytes.as_slice(), errors) {
        Ok(first) => table_after(rt, alloc, files, order, name, &first, view, errors),
        Err(status) => Err(status),
    }
}

/// The table of all parts, of which the first one was read.
fn table_after<R: Files, A: Allocator + Copy, E: Write>(
    rt: &R,
    alloc: A,
    files: &[Source<'_>],
    order: &[usize],
    name: &str,
    first: &PartRead<'_, A>,
    view: View,
    errors: &mut E,
) -> Result<Vec<u8, A>, Status>
    requires many { length order.now ≡ length files.now }
    requires some { 1 ≤ length files.now }
    ensures { MatchResult result
        (λ table. IsJoined view (length files.now) table.items × Keeps (E.contents errors.old) (E.contents errors.new))
        (λ status. Fails status (E.contents errors.old) (E.contents errors.new)) }
{
    if let Some(why) = other_count(first.head, order.len(), name) {
        return Err(refuse(alloc, why, errors));
    }
    match Standings::new(alloc, first.rows.len()) {
        Ok(mut standings) => {
            let none = &mut standings;
            summed_table(rt, alloc, files, order, name, first, view, none, errors)
        }
        Err(AllocError) => Err(failed(alloc, Trouble::memory(), errors)),
    }
}

/// The table of all parts, whose rounds are added to standings that have none.
fn summed_table<R: Files, A: Allocator + Copy, E: Write>(
    rt: &R,
    alloc: A,
    files: &[Source<'_>],
    order: &[usize],
    name: &str,
    first: &PartRead<'_, A>,
    view: View,
    standings: &mut Standings<A>,
    errors: &mut E,
) -> Result<Vec<u8, A>, Status>
    requires counted { first.now.head.count ≡ length order.now }
    requires some { 1 ≤ length order.now }
    requires few { length order.now ≤ 4294967295 }
    requires none { Joined (head_parts first.now.head) (length standings.old.counts) 0 standings.old }
    requires many { length standings.old.counts ≡ length first.now.rows.items }
    ensures { MatchResult result
        (λ table. IsJoined view (length order.now) table.items × Keeps (E.contents errors.old) (E.contents errors.new))
        (λ status. Fails status (E.contents errors.old) (E.contents errors.new)) }
{
    match join_all(rt, alloc, files, order, name, first.head, standings, errors) {
        Status::Done => told_table(alloc, view, name, first, standings, errors),
        status => Err(status),
    }
}

/// The table of standings that have all parts.
fn told_table<A: Allocator + Copy, E: Write>(
    alloc: A,
    view: View,
    name: &str,
    first: &PartRead<'_, A>,
    standings: &Standings<A>,
    errors: &mut E,
) -> Result<Vec<u8, A>, Status>
    requires { length standings.now.counts ≡ length first.now.rows.items }
    ensures { MatchResult result
        (λ table. IsNamedTable view (map (λ (r : Row). r.label.now) first.now.rows.items) standings.now.counts table.items
        × Keeps (E.contents errors.old) (E.contents errors.new))
        (λ status. Fails status (E.contents errors.old) (E.contents errors.new)) }
{
    match named_table(alloc, view, first.rows.as_slice(), standings) {
        Ok(table) => Ok(table),
        Err(NoPart::Cut) => Err(refuse(alloc, NotJoined::Cut(name), errors)),
        Err(NoPart::Memory) => Err(failed(alloc, Trouble::memory(), errors)),
    }
}

/// Joins the parts in these files, in their order.
fn join_all<R: Files, A: Allocator + Copy, E: Write>(
    rt: &R,
    alloc: A,
    files: &[Source<'_>],
    order: &[usize],
    name: &str,
    first: PartHead<'_>,
    standings: &mut Standings<A>,
    errors: &mut E,
) -> Status
    requires none { Joined (head_parts first) (length standings.old.counts) 0 standings.old }
    requires few { length order.now ≤ 4294967295 }
    ensures joins { JoinsAll (head_parts first.entry) (length standings.old.counts) (length order.now)
        standings.new result (E.contents errors.old) (E.contents errors.new) }
    ensures places { length standings.new.counts ≡ length standings.old.counts }
{
    for place in 0..order.len() {
        let number = place as u32 + 1;
        let Some(file) = file_at(files, order, place) else {
            return refuse(alloc, NotJoined::Missing(u64::from(number)), errors);
        };
        match join_file(rt, alloc, file, number, name, first, standings, errors) {
            Status::Done => {}
            status => return status,
        }
    }
    Status::Done
}

/// Joins the part in this file, which is to be that of this number.
fn join_file<R: Files, A: Allocator + Copy, E: Write>(
    rt: &R,
    alloc: A,
    file: Source<'_>,
    number: u32,
    name: &str,
    first: PartHead<'_>,
    standings: &mut Standings<A>,
    errors: &mut E,
) -> Status
    requires { 1 ≤ number }
    ensures joins { JoinsOne (head_parts first.entry) (length standings.old.counts) number
        standings.old standings.new result (E.contents errors.old) (E.contents errors.new) }
    ensures places { length standings.new.counts ≡ length standings.old.counts }
{
    let own = source_name(file);
    match bytes_at(rt, alloc, file, errors) {
        Ok(bytes) => join_bytes(
            alloc,
            bytes.as_slice(),
            number,
            own,
            name,
            first,
            standings,
            errors,
        ),
        Err(status) => status,
    }
}

/// Joins the part in these bytes of the file of this name.
fn join_bytes<A: Allocator + Copy, E: Write>(
    alloc: A,
    bytes: &[u8],
    number: u32,
    own: &str,
    name: &str,
    first: PartHead<'_>,
    standings: &mut Standings<A>,
    errors: &mut E,
) -> Status
    requires { 1 ≤ number }
    ensures joins { JoinsOne (head_parts first.entry) (length standings.old.counts) number
        standings.old standings.new result (E.contents errors.old) (E.contents errors.new) }
    ensures places { length standings.new.counts ≡ length standings.old.counts }
{
    match part_in(alloc, own, bytes, errors) {
        Ok(part) => take_part(alloc, &part, number, own, name, first, standings, errors),
        Err(status) => status,
    }
}

/// Joins a part that was read.
fn take_part<A: Allocator + Copy, E: Write>(
    alloc: A,
    part: &PartRead<'_, A>,
    number: u32,
    own: &str,
    name: &str,
    first: PartHead<'_>,
    standings: &mut Standings<A>,
    errors: &mut E,
) -> Status
    requires { 1 ≤ number }
    ensures joins { JoinsOne (head_parts first.entry) (length standings.old.counts) number
        standings.old standings.new result (E.contents errors.old) (E.contents errors.new) }
    ensures places { length standings.new.counts ≡ length standings.old.counts }
{
    match join_part(alloc, standings, first, number, part) {
        Ok(()) => Status::Done,
        Err(fault) => not_taken(alloc, fault, own, name, errors),
    }
}

/// Tells why a part isn't taken.
fn not_taken<A: Allocator + Copy, E: Write>(
    alloc: A,
    fault: NotTaken,
    own: &str,
    first: &str,
    errors: &mut E,
) -> Status
    ensures { Fails result (E.contents errors.old) (E.contents errors.new) }
{
    match fault {
        NotTaken::OtherHead => refuse(alloc, NotJoined::Other(own, first), errors),
        NotTaken::Rounds => refuse(alloc, NotJoined::Cut(own), errors),
        NotTaken::Memory => failed(alloc, Trouble::memory(), errors),
    }
}
