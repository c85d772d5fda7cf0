//! Which file has which part.

ghost use Rattle.std.specs.{Prelude.{◌≡◌, ◌<◌, ◌≤◌, None, IfSome, MatchResult, length}, Io.KnownBytes.Keeps};
ghost use Rattle.koth_rank.specs.Join.{Fails};

use crate::part_file::{NotJoined, bytes_at, failed, part_in, refuse};
use koth_commands::trouble::Trouble;
use koth_commands::{Status, source_name};
use koth_standings::PartHead;
use koth_words::Source;
use std::alloc::Allocator;
use std::io::Write;
use std::rt::Files;

/// The place of a part that no file has so far.
const NOWHERE: usize = usize::MAX;

/// The places of the files in the order of the numbers of their parts: each number from 1 on has one file. If not,
/// standard error says why.
pub(crate) fn order_of<R: Files, A: Allocator + Copy, E: Write>(
    rt: &R,
    alloc: A,
    files: &[Source<'_>],
    errors: &mut E,
) -> Result<Vec<usize, A>, Status>
    ensures { MatchResult result
        (λ order. (length order.items ≡ length files.now) × Keeps (E.contents errors.old) (E.contents errors.new))
        (λ status. Fails status (E.contents errors.old) (E.contents errors.new)) }
{
    let Ok(mut order) = Vec::from_elem(alloc, NOWHERE, files.len()) else {
        return Err(failed(alloc, Trouble::memory(), errors));
    };
    for at in 0..files.len() {
        match put_place(rt, alloc, files, at, order.as_mut_slice(), errors) {
            Ok(()) => {}
            Err(status) => return Err(status),
        }
    }
    match first_missing(order.as_slice()) {
        Some(number) => Err(refuse(alloc, NotJoined::Missing(number), errors)),
        None => Ok(order),
    }
}

/// Puts the place of a file at the number of its part. A number past the number of files has none: then a smaller one
/// is missing.
fn put_place<R: Files, A: Allocator + Copy, E: Write>(
    rt: &R,
    alloc: A,
    files: &[Source<'_>],
    at: usize,
    order: &mut [usize],
    errors: &mut E,
) -> Result<(), Status>
    requires { at < length files.now }
    ensures put { MatchResult result (λ done. Keeps (E.contents errors.old) (E.contents errors.new))
        (λ status. Fails status (E.contents errors.old) (E.contents errors.new)) }
    ensures many { length order.new ≡ length order.old }
{
    let file = files[at];
    let number = match number_in(rt, alloc, file, errors) {
        Ok(number) => number,
        Err(status) => return Err(status),
    };
    let Some(place) = (number as usize).checked_sub(1) else {
        return Err(refuse(alloc, NotJoined::Cut(source_name(file)), errors));
    };
    if place >= order.len() {
        return Ok(());
    }
    let before = order[place];
    if before < files.len() {
        let other = source_name(files[before]);
        let why = NotJoined::Twice(u64::from(number), source_name(file), other);
        return Err(refuse(alloc, why, errors));
    }
    order[place] = at;
    Ok(())
}

/// The number of the part in a file.
fn number_in<R: Files, A: Allocator + Copy, E: Write>(
    rt: &R,
    alloc: A,
    file: Source<'_>,
    errors: &mut E,
) -> Result<u32, Status>
    ensures { MatchResult result (λ number. Keeps (E.contents errors.old) (E.contents errors.new))
        (λ status. Fails status (E.contents errors.old) (E.contents errors.new)) }
{
    let bytes = match bytes_at(rt, alloc, file, errors) {
        Ok(bytes) => bytes,
        Err(status) => return Err(status),
    };
    match part_in(alloc, source_name(file), bytes.as_slice(), errors) {
        Ok(part) => Ok(part.head.number),
        Err(status) => Err(status),
    }
}

/// The first number that no file has.
fn first_missing(order: &[usize]) -> Option<u64> {
    for (at, place) in order.iter().enumerate() {
        if *place == NOWHERE {
            return Some((at as u64).saturating_add(1));
        }
    }
    None
}

/// The file at a place of an order, if the order has that place.
pub(crate) fn file_at<'w>(files: &[Source<'w>], order: &[usize], place: usize) -> Option<Source<'w>>
    ensures { IfSome result (λ file. place < length order.now) }
{
    if place >= order.len() {
        return None;
    }
    let at = order[place];
    if at >= files.len() {
        return None;
    }
    Some(files[at])
}

/// What is wrong if there are more or fewer parts than the first one says.
pub(crate) fn other_count<'n>(
    first: PartHead<'_>,
    count: usize,
    name: &'n str,
) -> Option<NotJoined<'n>>
    ensures same { result ≡ None → first.entry.count ≡ count }
    ensures few { result ≡ None → count ≤ 4294967295 }
{
    let said = first.count as usize;
    if said > count {
        return Some(NotJoined::Missing(u64::from(first.count)));
    }
    if said < count {
        return Some(NotJoined::Cut(name));
    }
    None
}
