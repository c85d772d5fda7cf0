//! How the sectors of a hill are read into memory.

ghost use Rattle.std.specs.Prelude.{◌≡◌, ◌<◌, ◌≤◌, ℕ, List, Err, IfOk, IfErr, OnOk, min};
ghost use Rattle.sector_disk.specs.{Memory.memory_size, Served.{Failed, IsKept, IsServed}};
ghost use Rattle.hill_look.specs.{Looked.{HeadersStood, IsNotTaken, IsTakenIf, SlotsStood, WasTaken, shown}, Meanwhile.MovesOn};

use crate::refusal::LookRefusal;
use crate::source::Source;
use hill_file::Headers;
use hill_images::Refusal;
use sector_disk::{Device, Fault, MemoryDevice};
use std::alloc::{AllocError, Allocator};

/// Sectors before the first slot: those of the headers.
const HEADERS: u32 = 2;

/// Sectors that the greatest hill has.
const MOST: u32 = 86;

/// How often the slots are read at most.
const TRIES: u32 = 100;

/// Reads both headers and the slots of a hill into memory: a device of at most 86 sectors, which reads as the hill that
/// stood at a moment between the first read and the last. It writes nothing, and takes no lock.
///
/// It reads the slots until both headers are as they stood before. The refusals: `TooSmall` if the source has fewer
/// than two sectors, `Memory`, `Disk` if a read failed, and `Changing` if the headers changed in each of a hundred
/// tries.
pub fn look<S: Source, A: Allocator + Copy>(
    alloc: A,
    source: &mut S,
) -> Result<MemoryDevice<A>, LookRefusal>
    ensures kept { IsKept S.facts source.old source.new }
    ensures faultless { OnOk result (S.facts.faults source.new ≡ S.facts.faults source.old) }
    ensures small { S.facts.size source.old < 2 → (result ≡ Err (LookRefusal.Refused Refusal.TooSmall))
        × (source.new ≡ source.old) }
    ensures size { IfOk result (λ device. memory_size device ≡ min (S.facts.size source.old) 86) }
    ensures headers { IfOk result (λ device. 2 ≤ memory_size device) }
    ensures taken { S.facts.lawful source.old
        → IfOk result (WasTaken (shown S.facts source.old) (shown S.facts source.new)) }
    ensures refused { IfErr result (IsNotTaken S.facts source.old source.new) }
{
    if source.sectors() < HEADERS {
        return Err(LookRefusal::Refused(Refusal::TooSmall));
    }
    let mut device = match MemoryDevice::new(alloc, source.sectors().min(MOST)) {
        Ok(device) => device,
        Err(AllocError) => return Err(LookRefusal::Refused(Refusal::Memory)),
    };
    match fill(source, &mut device) {
        Ok(true) => Ok(device),
        Ok(false) => Err(LookRefusal::Changing),
        Err(Fault) => Err(LookRefusal::Refused(Refusal::Disk)),
    }
}

/// Reads the sectors until both headers are as they stood before, and says whether they did in one of the tries.
fn fill<S: Source, A: Allocator>(
    source: &mut S,
    device: &mut MemoryDevice<A>,
) -> Result<bool, Fault>
    requires headers { 2 ≤ memory_size device.old }
    requires there { memory_size device.old ≤ S.facts.size source.old }
    ensures served { IsServed S.facts source.old source.new result }
    ensures size { memory_size device.new ≡ memory_size device.old }
    ensures taken { S.facts.lawful source.old
        → IfOk result (IsTakenIf (shown S.facts source.old) (shown S.facts source.new) device.new) }
{
    let mut before = read_headers(source)?;
    for _try in 0..TRIES {
        let after = take(source, device)?;
        if after == before {
            return Ok(true);
        }
        before = after;
    }
    Ok(false)
}

/// Reads the slots and then the headers, and answers these.
fn take<S: Source, A: Allocator>(
    source: &mut S,
    device: &mut MemoryDevice<A>,
) -> Result<Headers, Fault>
    requires headers { 2 ≤ memory_size device.old }
    requires there { memory_size device.old ≤ S.facts.size source.old }
    ensures served { IsServed S.facts source.old source.new result }
    ensures size { memory_size device.new ≡ memory_size device.old }
    ensures moved { S.facts.lawful source.old → MovesOn (shown S.facts source.old) (shown S.facts source.new) }
    ensures stood { S.facts.lawful source.old
        → IfOk result (HeadersStood (shown S.facts source.old) (shown S.facts source.new)) }
    ensures taken { S.facts.lawful source.old → (start : ℕ → List ℕ)
        → IfOk result (λ after. HeadersStood start (shown S.facts source.old) after
        → WasTaken start (shown S.facts source.new) device.new) }
{
    read_slots(source, device)?;
    let headers = read_headers(source)?;
    device.set(0, &headers.even);
    device.set(1, &headers.odd);
    Ok(headers)
}

/// Reads both headers.
fn read_headers<S: Source>(source: &mut S) -> Result<Headers, Fault>
    requires { 2 ≤ S.facts.size source.old }
    ensures served { IsServed S.facts source.old source.new result }
    ensures moved { S.facts.lawful source.old → MovesOn (shown S.facts source.old) (shown S.facts source.new) }
    ensures stood { S.facts.lawful source.old
        → IfOk result (HeadersStood (shown S.facts source.old) (shown S.facts source.new)) }
{
    let mut headers = Headers::ZEROS;
    source.read(0, &mut headers.even)?;
    source.read(1, &mut headers.odd)?;
    Ok(headers)
}

/// Reads the sectors of all slots.
fn read_slots<S: Source, A: Allocator>(
    source: &mut S,
    device: &mut MemoryDevice<A>,
) -> Result<(), Fault>
    requires { memory_size device.old ≤ S.facts.size source.old }
    ensures served { IsServed S.facts source.old source.new result }
    ensures size { memory_size device.new ≡ memory_size device.old }
    ensures moved { S.facts.lawful source.old → MovesOn (shown S.facts source.old) (shown S.facts source.new) }
    ensures stood { S.facts.lawful source.old
        → OnOk result (SlotsStood (shown S.facts source.old) (shown S.facts source.new) device.new) }
{
    let mut content = [0; 512];
    for n in HEADERS..device.sectors() {
        source.read(n, &mut content)?;
        device.set(n, &content);
    }
    Ok(())
}
