//! How the hill in a file is looked at: it is read, and nothing is written.

ghost use Rattle.std.specs.Prelude.{◌≡◌, false, IfErr, IfOk};
ghost use Rattle.{sector_disk.specs.Served.IsKept, hill_look.specs.Looked.{HillStood, shown}, koth_files.specs.{Looking.{IsUnseen, TellsDamage, TellsLook, TellsNone}, Trouble.IsOfHill}};

use crate::damage::damaged_seen;
use crate::opening::without_hill;
use crate::trouble::{damaged_at, refused_at, told_at, unopened_at};
use hill_look::{FileSource, LookRefusal, Source, look, look_at_hill};
use hill_store::{Refusal, Store};
use koth_commands::Reason;
use koth_commands::trouble::{Fault, Trouble};
use sector_disk::MemoryDevice;
use std::alloc::Allocator;
use std::rt::Files;

/// A hill that was looked at: a store over what was read, which writes to memory alone.
pub type SeenHill<A> = Store<MemoryDevice<A>, A>;

/// Looks at the hill in a file. The file is opened to be read alone, its lock is not taken, and it is not synced. So a
/// hill on a disk that can't be written, one that may be read alone, and one that another program works on are shown.
/// It may have a submission that wasn't answered yet, which a stop of the machine undoes.
pub fn look_hill<'f, R: Files, A: Allocator + Copy>(
    rt: &R,
    alloc: A,
    path: &'f str,
) -> Result<SeenHill<A>, Trouble<'f>>
    ensures open_now { IfOk result (λ store. store.reopen ≡ false) }
    ensures of_hill { IfErr result IsOfHill }
{
    match FileSource::open(rt, path) {
        Ok(mut source) => look_on(alloc, &mut source, path),
        Err(fault) => Err(unopened_at(path, fault)),
    }
}

/// Looks at the hill that a source holds, as the one in the file at this path.
fn look_on<'f, S: Source, A: Allocator + Copy>(
    alloc: A,
    source: &mut S,
    path: &'f str,
) -> Result<SeenHill<A>, Trouble<'f>>
    ensures kept { IsKept S.facts source.old source.new }
    ensures open_now { IfOk result (λ store. store.reopen ≡ false) }
    ensures stood { S.facts.lawful source.old
        → IfOk result (λ store. HillStood (S.facts.size source.old) (shown S.facts source.old)
        (shown S.facts source.new) store.hill store.generation) }
    ensures refused { S.facts.lawful source.old → IfErr result (IsUnseen S.facts path.entry source.old source.new) }
    ensures of_hill { IfErr result IsOfHill }
{
    match look_at_hill(alloc, source) {
        Ok(store) => Ok(store),
        Err(refusal) => Err(trouble_of_look(alloc, source, path, refusal)),
    }
}

/// Why the hill that a source holds isn't shown. If there is no hill, or a warrior in it can't be read, the source is
/// read once more: whether there is a hill of the old format, or for which warrior it is.
fn trouble_of_look<'f, S: Source, A: Allocator + Copy>(
    alloc: A,
    source: &mut S,
    path: &'f str,
    refusal: LookRefusal,
) -> Trouble<'f>
    ensures kept { IsKept S.facts source.old source.new }
    ensures told { S.facts.lawful source.old → TellsLook S.facts path.entry source.old source.new refusal result }
    ensures of_hill { IsOfHill result }
{
    match refusal {
        LookRefusal::Changing => told_at(path, Fault::Stream, Reason::InUse),
        LookRefusal::Refused(Refusal::NotAHill) => trouble_unseen(alloc, source, path),
        LookRefusal::Refused(Refusal::Damaged) => damage_seen(alloc, source, path),
        LookRefusal::Refused(refusal) => refused_at(path, refusal),
    }
}

/// What is reported about a source that holds no hill. If it can't be read, nothing is said of the old format.
fn trouble_unseen<'f, S: Source, A: Allocator + Copy>(
    alloc: A,
    source: &mut S,
    path: &'f str,
) -> Trouble<'f>
    ensures kept { IsKept S.facts source.old source.new }
    ensures told { S.facts.lawful source.old → TellsNone S.facts path.entry source.old source.new result }
    ensures of_hill { IsOfHill result }
{
    match look(alloc, source) {
        Ok(mut device) => without_hill(path, &mut device),
        Err(_) => refused_at(path, Refusal::NotAHill),
    }
}

/// What is reported about a source in which a warrior can't be read. If the source can't be read again, that doesn't
/// say which one it is.
fn damage_seen<'f, S: Source, A: Allocator + Copy>(
    alloc: A,
    source: &mut S,
    path: &'f str,
) -> Trouble<'f>
    ensures kept { IsKept S.facts source.old source.new }
    ensures told { S.facts.lawful source.old → TellsDamage S.facts path.entry source.old source.new result }
    ensures of_hill { IsOfHill result }
{
    match damaged_seen(alloc, source) {
        Some(entry) => damaged_at(path, entry),
        None => refused_at(path, Refusal::Damaged),
    }
}
