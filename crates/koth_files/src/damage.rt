//! What the hill in a file has lost, found without writing the file.

ghost use Rattle.std.specs.Prelude.{◌≡◌, ◌≤◌, ◌↔◌, IfOk, IfSome, IsTrue};
ghost use Rattle.{sector_disk.specs.{Disk.current, Served.{IsKept, IsServed}}, hill_images.specs.Damage.LosesHeader, koth_files.specs.Looking.{IsDamagedSeen, IsLostSeen}};

use hill_images::{first_damaged, loses_header};
use hill_look::{FileSource, Source, look};
use sector_disk::Fault;
use std::alloc::Allocator;
use std::rt::Files;

/// Whether a header in the file at this path can't be read though it begins as one, and the hill is there by the other
/// one. It is looked for twice, since a service may be writing it.
pub fn has_lost_header<R: Files>(rt: &R, path: &str) -> bool {
    match FileSource::open(rt, path) {
        Ok(mut source) => is_lost_twice(&mut source),
        Err(_) => false,
    }
}

/// Whether two looks at a source, one after the other, find a header that can't be read next to one that can.
fn is_lost_twice<S: Source>(source: &mut S) -> bool {
    if source.sectors() < 2 {
        return false;
    }
    match lost_header(source) {
        Ok(true) => lost_header(source).unwrap_or(false),
        Ok(false) | Err(Fault) => false,
    }
}

/// Whether one of the headers of a source can't be read though it begins as one, and the other can.
fn lost_header<S: Source>(source: &mut S) -> Result<bool, Fault>
    requires { 2 ≤ S.facts.size source.old }
    ensures served { IsServed S.facts source.old source.new result }
    ensures lost { S.facts.lawful source.old → IfOk result (IsLostSeen S.facts source.old source.new) }
{
    let mut even = [0; 512];
    let mut odd = [0; 512];
    source.read(0, &mut even)?;
    source.read(1, &mut odd)?;
    Ok(loses_header(&even, &odd))
}

/// The entry of the first warrior of the hill in a file that can't be read, if that can be known.
pub(crate) fn damaged_in<R: Files, A: Allocator + Copy>(
    rt: &R,
    alloc: A,
    path: &str,
) -> Option<u64> {
    match FileSource::open(rt, path) {
        Ok(mut source) => damaged_seen(alloc, &mut source),
        Err(_) => None,
    }
}

/// The entry of the first warrior that can't be read of the hill that a source holds, if that can be known.
pub(crate) fn damaged_seen<S: Source, A: Allocator + Copy>(alloc: A, source: &mut S) -> Option<u64>
    ensures kept { IsKept S.facts source.old source.new }
    ensures damaged { S.facts.lawful source.old → IfSome result (IsDamagedSeen S.facts source.old source.new) }
{
    match look(alloc, source) {
        Ok(mut device) => first_damaged(alloc, &mut device).unwrap_or(None),
        Err(_) => None,
    }
}
