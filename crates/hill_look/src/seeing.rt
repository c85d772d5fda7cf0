//! How a hill is seen without being written.

ghost use Rattle.std.specs.Prelude.{◌≡◌, false, IfErr, IfOk, MatchResult, OnOk};
ghost use Rattle.{sector_disk.specs.{Image.Images, Memory.{memory_disk, memory_facts, memory_size}, Served.IsKept}, hill_images.specs.Stands.Reads, hill_store.specs.Opened.IsOpened};
ghost use Rattle.hill_look.specs.Looked.{HillStood, IsNotSeen, IsNotSeenIn, IsRefusedIn, of_memory, shown};

use crate::refusal::LookRefusal;
use crate::source::Source;
use crate::taking::look;
use hill_images::Refusal;
use hill_store::Store;
use sector_disk::MemoryDevice;
use std::alloc::Allocator;

/// Looks at the hill that a source holds, and opens it as a store over what was read. The source is only read: what is
/// submitted to that store is written to memory alone.
///
/// The hill is one that stood at a moment between the first read and the last. It may have a submission that was not
/// answered yet and that a stop undoes. The refusals are those of opening, and `Changing` if the headers changed in
/// each of a hundred tries.
pub fn look_at_hill<S: Source, A: Allocator + Copy>(
    alloc: A,
    source: &mut S,
) -> Result<Store<MemoryDevice<A>, A>, LookRefusal>
    ensures kept { IsKept S.facts source.old source.new }
    ensures faultless { OnOk result (S.facts.faults source.new ≡ S.facts.faults source.old) }
    ensures open_now { IfOk result (λ store. store.reopen ≡ false) }
    ensures stood { S.facts.lawful source.old
        → IfOk result (λ store. HillStood (S.facts.size source.old) (shown S.facts source.old)
        (shown S.facts source.new) store.hill store.generation) }
    ensures reads { IfOk result (λ store. Images (memory_disk store.device)
        (λ image. Reads (memory_size store.device) image store.hill)) }
    ensures still { S.facts.lawful source.old → shown S.facts source.new ≡ shown S.facts source.old
        → MatchResult result (λ store. Reads (S.facts.size source.old) (shown S.facts source.old) store.hill)
        (IsNotSeenIn (S.facts.size source.old) (shown S.facts source.old)) }
    ensures refused { IfErr result (IsNotSeen S.facts source.old source.new) }
{
    match look(alloc, source) {
        Ok(device) => opened(alloc, device),
        Err(refusal) => Err(refusal),
    }
}

/// Opens what was read.
fn opened<A: Allocator + Copy>(
    alloc: A,
    device: MemoryDevice<A>,
) -> Result<Store<MemoryDevice<A>, A>, LookRefusal>
    ensures opened { IfOk result (IsOpened memory_facts device) }
    ensures refused { IfErr result (IsRefusedIn device) }
{
    match Store::open(alloc, device) {
        Ok(store) => Ok(store),
        Err((_, refusal)) => Err(LookRefusal::Refused(of_memory(refusal))),
    }
}

/// A refusal of a device in memory, which fails only for lack of memory.
fn of_memory(refusal: Refusal) -> Refusal
    ensures { result ≡ of_memory refusal }
{
    match refusal {
        Refusal::Disk => Refusal::Memory,
        other => other,
    }
}
