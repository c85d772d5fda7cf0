//! How the hill of a device is opened.

ghost use Rattle.std.specs.Prelude.{◌≡◌, ℕ, ◌<◌, ◌≤◌, [], ◌∷◌, Err, IfOk, IfErr, OnOk};
ghost use Rattle.sector_disk.specs.{Disk.{current, synced}, Image.Images, Changes.{Changes, Begun}, Served.{Failed, IsKept, IsServed}};
ghost use Rattle.hill_bytes.specs.Layout.{IsHeaderParts, code_room, layout_of, sectors_in};
ghost use Rattle.hill_images.specs.{Found.IsNewestFound, Named.IsNamed, Opening.{IsRecovered, IsNotOpenedIn, IsUnfaulted}, Reading.{HillRefused, IsHillFound}};

use crate::found::newest_header;
use crate::reading::{read_hill, refusal_of};
use crate::refusal::Refusal;
use crate::slots::sectors_in;
use hill_bytes::{Format, Header};
use koth_hill::Hill;
use mars_core::Arena;
use sector_disk::{Device, Fault};
use std::alloc::{AllocError, Allocator};

/// The newest header of a format on a device, once all that was written to it has reached the disk.
fn settled_header<D: Device>(device: &mut D, format: Format) -> Result<Option<Header>, Fault>
    requires { 2 ≤ D.facts.size device.old }
    ensures served { IsServed D.facts device.old device.new result }
    ensures settled { D.facts.lawful device.old
        → Changes (synced ∷ []) (D.facts.disk device.old) (D.facts.disk device.new) result }
    ensures found { D.facts.lawful device.old
        → IfOk result (IsNewestFound (layout_of format) (current (D.facts.disk device.old))) }
{
    device.sync()?;
    let found = newest_header(device, format)?;
    Ok(found)
}

/// What opening recovers of a hill.
#[derive(Drop)]
pub struct Recovered<A: Allocator> {
    pub header: Header,
    pub hill: Hill<A>,
    pub arena: Arena<A>,
}

/// Recovers the hill that a device holds in a format. Nothing is written, and nothing that was read can be lost later.
pub fn recover<D: Device, A: Allocator + Copy>(
    alloc: A,
    device: &mut D,
    format: Format,
) -> Result<Recovered<A>, Refusal>
    ensures kept { IsKept D.facts device.old device.new }
    ensures faultless { OnOk result (D.facts.faults device.new ≡ D.facts.faults device.old) }
    ensures small { D.facts.size device.old < 2 → (result ≡ Err Refusal.TooSmall) × (device.new ≡ device.old) }
    ensures found { IfOk result (λ r. IsRecovered
        (layout_of format) D.facts device.old device.new r.header r.hill r.arena.settings) }
    ensures refused { IfErr result (IsNotOpenedIn (layout_of format) D.facts device.old device.new) }
    ensures unfaulted { IfErr result (IsUnfaulted D.facts device.old device.new) }
{
    if device.sectors() < 2 {
        return Err(Refusal::TooSmall);
    }
    match settled_header(device, format) {
        Ok(Some(header)) => recover_hill(alloc, device, format, header),
        Ok(None) => Err(Refusal::NotAHill),
        Err(Fault) => Err(Refusal::Disk),
    }
}

/// Recovers the hill of the newest header.
fn recover_hill<D: Device, A: Allocator + Copy>(
    alloc: A,
    device: &mut D,
    format: Format,
    header: Header,
) -> Result<Recovered<A>, Refusal>
    requires { D.facts.lawful device.old → header.settings.length ≤ code_room (layout_of format) }
    ensures kept { IsKept D.facts device.old device.new }
    ensures same { D.facts.lawful device.old → D.facts.disk device.new ≡ D.facts.disk device.old }
    ensures faultless { OnOk result (D.facts.faults device.new ≡ D.facts.faults device.old) }
    ensures found { IfOk result (λ r. IsHillFound
        (layout_of format) D.facts device.old header r.header r.hill r.arena.settings) }
    ensures refused { IfErr result (HillRefused (layout_of format) D.facts device.old device.new header) }
    ensures unfaulted { IfErr result (IsUnfaulted D.facts device.old device.new) }
{
    if device.sectors() < sectors_in(format, header.settings().capacity()) {
        return Err(Refusal::TooSmall);
    }
    let arena = match Arena::new(alloc, header.settings()) {
        Ok(arena) => arena,
        Err(AllocError) => return Err(Refusal::Memory),
    };
    match read_hill(alloc, device, format, &header) {
        Ok(hill) => Ok(Recovered {
            header,
            hill,
            arena,
        }),
        Err(unread) => Err(refusal_of(unread)),
    }
}
