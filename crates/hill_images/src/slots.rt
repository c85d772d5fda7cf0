//! The slots of a device: where they lie, and how their sectors are written and read.

ghost use Rattle.std.specs.Prelude.{◌≡◌, ◌+◌, ◌*◌, ◌<◌, ◌≤◌, IfOk};
ghost use Rattle.sector_disk.specs.{Disk.current, Changes.Changes, Served.IsServed};
ghost use Rattle.{hill_bytes.specs.Layout.{HoldsSame, layout_of, new_layout, old_layout, sectors_for, sectors_in, slot_at, slot_in}, hill_images.specs.Places.writes_from};

use hill_bytes::{Format, OldSlot, SECTORS, Slot};
use sector_disk::{Device, Fault};

/// Sectors before the first slot: those of the headers.
const HEADERS: u32 = 2;

/// The sectors that a hill of this capacity needs: one slot more than it holds warriors.
pub fn sectors_for(capacity: u16) -> u32
    ensures { result ≡ sectors_for capacity }
{
    sectors_in(Format::New, capacity)
}

/// The sectors that it needs in a format.
pub(crate) fn sectors_in(format: Format, capacity: u16) -> u32
    ensures { result ≡ sectors_in (layout_of format) capacity }
{
    HEADERS + format.slot_sectors() * (u32::from(capacity) + 1)
}

/// The first sector of a slot; the others follow it.
fn slot_at(format: Format, slot: u8) -> u32
    ensures { result ≡ slot_at (layout_of format) slot }
{
    HEADERS + format.slot_sectors() * u32::from(slot)
}

/// Writes the sectors of a slot, the first one first.
pub(crate) fn write_slot<D: Device>(device: &mut D, slot: u8, content: &Slot) -> Result<(), Fault>
    requires { sectors_for slot ≤ D.facts.size device.old }
    ensures served { IsServed D.facts device.old device.new result }
    ensures changes { D.facts.lawful device.old
        → Changes (writes_from (slot_at new_layout slot) content.now.sectors) (D.facts.disk device.old)
        (D.facts.disk device.new) result }
{
    let at = slot_at(Format::New, slot);
    for n in 0..SECTORS {
        device.write(at + n as u32, &content.sectors[n])?;
    }
    Ok(())
}

/// Reads the sectors of a slot of a format: what they hold, in the new one.
pub(crate) fn read_slot<D: Device>(device: &mut D, format: Format, slot: u8) -> Result<Slot, Fault>
    requires { sectors_in (layout_of format) slot ≤ D.facts.size device.old }
    ensures served { IsServed D.facts device.old device.new result }
    ensures same { D.facts.lawful device.old → D.facts.disk device.new ≡ D.facts.disk device.old }
    ensures read { D.facts.lawful device.old
        → IfOk result (λ s. HoldsSame (layout_of format) s.sectors
        (slot_in (layout_of format) (current (D.facts.disk device.old)) slot)) }
{
    match format {
        Format::Old => read_old_slot(device, slot),
        Format::New => read_new_slot(device, slot),
    }
}

fn read_new_slot<D: Device>(device: &mut D, slot: u8) -> Result<Slot, Fault>
    requires { sectors_for slot ≤ D.facts.size device.old }
    ensures served { IsServed D.facts device.old device.new result }
    ensures same { D.facts.lawful device.old → D.facts.disk device.new ≡ D.facts.disk device.old }
    ensures read { D.facts.lawful device.old
        → IfOk result (λ s. s.sectors ≡ slot_in new_layout (current (D.facts.disk device.old)) slot) }
{
    let at = slot_at(Format::New, slot);
    let mut content = Slot::blank();
    for n in 0..SECTORS {
        device.read(at + n as u32, &mut content.sectors[n])?;
    }
    Ok(content)
}

fn read_old_slot<D: Device>(device: &mut D, slot: u8) -> Result<Slot, Fault>
    requires { sectors_in old_layout slot ≤ D.facts.size device.old }
    ensures served { IsServed D.facts device.old device.new result }
    ensures same { D.facts.lawful device.old → D.facts.disk device.new ≡ D.facts.disk device.old }
    ensures read { D.facts.lawful device.old
        → IfOk result (λ s. HoldsSame old_layout s.sectors
        (slot_in old_layout (current (D.facts.disk device.old)) slot)) }
{
    let at = slot_at(Format::Old, slot);
    let mut first = [0; 512];
    let mut last = [0; 512];
    device.read(at, &mut first)?;
    device.read(at + 1, &mut last)?;
    Ok(OldSlot {
        sectors: [first, last],
    }
    .widened())
}
