//! How a hill is written to a device that holds none: a new one, or one from another device.

ghost use Rattle.std.specs.Prelude.{◌≡◌, ◌≤◌, [], ◌∷◌, IfOk, IfErr, OnOk};
ghost use Rattle.{war_types.specs.Settings.AreSettings, koth_hill.specs.Kept.{hill_in, new_kept}, sector_disk.specs.{Disk.{current, synced, IsSettled}, Image.Images, Changes.Changes}};
ghost use Rattle.{sector_disk.specs.Served.{Failed, IsKept, IsServed}, hill_bytes.specs.Layout.{IsHeaderParts, sectors_for}};
ghost use Rattle.hill_images.specs.{Named.IsNamed, Opening.{HoldsNone, HoldsOneIf, IsFirst, IsNotWritten, IsUnfaulted, IsWritten, first_header}, Writing.{AreStored, IsPut, NoneOrHill}};

use crate::durable::commit;
use crate::entries::results_by_slot;
use crate::found::holds_header;
use crate::refusal::Refusal;
use crate::slots::write_slot;
use hill_bytes::{Header, Slot};
use koth_hill::Hill;
use sector_disk::{Device, Fault};
use std::alloc::Allocator;
use war_types::Settings;

/// Writes the first header of a hill to a device that holds none.
pub fn write_first<D: Device>(device: &mut D, settings: Settings) -> Result<Header, Refusal>
    requires { sectors_for settings.capacity ≤ D.facts.size device.old }
    ensures kept { IsKept D.facts device.old device.new }
    ensures faultless { OnOk result (D.facts.faults device.new ≡ D.facts.faults device.old) }
    ensures first { IfOk result (IsFirst D.facts device.old settings device.new) }
    ensures refused { IfErr result (IsNotWritten D.facts device.old (new_kept settings 0) device.new) }
    ensures unfaulted { IfErr result (IsUnfaulted D.facts device.old device.new) }
{
    match settled_and_holds(device) {
        Ok(true) => Err(Refusal::Occupied),
        Ok(false) => commit_first(device, settings),
        Err(Fault) => Err(Refusal::Disk),
    }
}

/// Writes the hill of a header to a device that holds none: the slots of its warriors, with the results of their
/// matches, and only when these have reached the disk the header.
pub fn write_hill<D: Device, A: Allocator>(
    device: &mut D,
    header: &Header,
    hill: &Hill<A>,
) -> Result<(), Refusal>
    requires size { sectors_for header.now.settings.capacity ≤ D.facts.size device.old }
    requires named { IsNamed header.now (hill_in hill.now) }
    ensures kept { IsKept D.facts device.old device.new }
    ensures faultless { OnOk result (D.facts.faults device.new ≡ D.facts.faults device.old) }
    ensures written { OnOk result (IsWritten D.facts device.old header.now hill.now device.new) }
    ensures refused { IfErr result (IsNotWritten D.facts device.old hill.now device.new) }
    ensures unfaulted { IfErr result (IsUnfaulted D.facts device.old device.new) }
{
    match settled_and_holds(device) {
        Ok(true) => Err(Refusal::Occupied),
        Ok(false) => put_or_refuse(device, header, hill),
        Err(Fault) => Err(Refusal::Disk),
    }
}

/// Whether a device holds a hill of either format, once all that was written to it has reached the disk.
fn settled_and_holds<D: Device>(device: &mut D) -> Result<bool, Fault>
    requires { 2 ≤ D.facts.size device.old }
    ensures served { IsServed D.facts device.old device.new result }
    ensures settled { D.facts.lawful device.old
        → Changes (synced ∷ []) (D.facts.disk device.old) (D.facts.disk device.new) result }
    ensures found { D.facts.lawful device.old → IfOk result (HoldsOneIf (current (D.facts.disk device.old))) }
{
    device.sync()?;
    let holds = holds_header(device)?;
    Ok(holds)
}

fn commit_first<D: Device>(device: &mut D, settings: Settings) -> Result<Header, Refusal>
    requires { sectors_for settings.capacity ≤ D.facts.size device.old }
    ensures kept { IsKept D.facts device.old device.new }
    ensures faultless { OnOk result (D.facts.faults device.new ≡ D.facts.faults device.old) }
    ensures header { IfOk result (λ header. header ≡ first_header settings) }
    ensures cause { IfErr result (λ why. (why ≡ Refusal.Disk) × Failed D.facts device.old device.new) }
    ensures put { D.facts.lawful device.old → IsSettled (D.facts.disk device.old)
        → HoldsNone (current (D.facts.disk device.old))
        → IsPut D.facts (first_header settings) (new_kept settings 0) device.new result }
    ensures settings { AreSettings settings }
{
    // Tells the proof that these are settings.
    let _core = settings.core();
    let header = Header::new(0, settings, 0, &[]).unwrap();
    match commit(device, &header) {
        Ok(()) => Ok(header),
        Err(Fault) => Err(Refusal::Disk),
    }
}

fn put_or_refuse<D: Device, A: Allocator>(
    device: &mut D,
    header: &Header,
    hill: &Hill<A>,
) -> Result<(), Refusal>
    requires size { sectors_for header.now.settings.capacity ≤ D.facts.size device.old }
    requires named { IsNamed header.now (hill_in hill.now) }
    ensures kept { IsKept D.facts device.old device.new }
    ensures faultless { OnOk result (D.facts.faults device.new ≡ D.facts.faults device.old) }
    ensures cause { IfErr result (λ why. (why ≡ Refusal.Disk) × Failed D.facts device.old device.new) }
    ensures put { D.facts.lawful device.old → IsSettled (D.facts.disk device.old)
        → HoldsNone (current (D.facts.disk device.old))
        → IsPut D.facts header.now hill.now device.new result }
{
    match put_hill(device, header, hill) {
        Ok(()) => Ok(()),
        Err(Fault) => Err(Refusal::Disk),
    }
}

/// Writes the slots of a hill, and only when these have reached the disk its header.
fn put_hill<D: Device, A: Allocator>(
    device: &mut D,
    header: &Header,
    hill: &Hill<A>,
) -> Result<(), Fault>
    requires size { sectors_for header.now.settings.capacity ≤ D.facts.size device.old }
    requires named { IsNamed header.now (hill_in hill.now) }
    ensures served { IsServed D.facts device.old device.new result }
    ensures put { D.facts.lawful device.old → IsSettled (D.facts.disk device.old)
        → HoldsNone (current (D.facts.disk device.old))
        → IsPut D.facts header.now hill.now device.new result }
{
    write_members(device, header, hill)?;
    device.sync()?;
    commit(device, header)?;
    Ok(())
}

/// Writes the slots of a hill's warriors, in the order of their entries. The places of warriors that aren't older and
/// on the hill are zero.
fn write_members<D: Device, A: Allocator>(
    device: &mut D,
    header: &Header,
    hill: &Hill<A>,
) -> Result<(), Fault>
    requires size { sectors_for header.now.settings.capacity ≤ D.facts.size device.old }
    requires named { IsNamed header.now (hill_in hill.now) }
    ensures served { IsServed D.facts device.old device.new result }
    ensures none { D.facts.lawful device.old → Images (D.facts.disk device.old) HoldsNone
        → Images (D.facts.disk device.new) HoldsNone }
    ensures stored { D.facts.lawful device.old
        → OnOk result (AreStored (current (D.facts.disk device.new)) header.now hill.now) }
    ensures header { IsHeaderParts header.now }
{
    let entries = header.entries();
    for i in 0..hill.len() {
        let member = hill.member(i).unwrap();
        let results = results_by_slot(&entries[..i], hill.bouts(i));
        let content = Slot::encode(member.warrior, &results);
        write_slot(device, entries[i].slot, &content)?;
    }
    Ok(())
}
