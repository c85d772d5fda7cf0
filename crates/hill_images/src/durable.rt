//! The durable order: what is written of a submission, and when it has reached the disk.

ghost use Rattle.std.specs.Prelude.{◌≡◌, ◌<◌, ◌≤◌};
ghost use Rattle.{sector_disk.specs.{Changes.Changes, Served.IsServed}, hill_bytes.specs.Layout.{new_layout, sectors_for, IsTitled}, hill_images.specs.Places.{commits, places}};

use crate::slots::write_slot;
use hill_bytes::{Header, RESULTS, Slot, Wins, encode_header};
use sector_disk::{Device, Fault};
use std::alloc::Allocator;
use war_types::Warrior;

/// Places a warrior: the sectors of its slot, with the results of its matches by the older warriors' slots, and only
/// when these have reached the disk the header that names it.
pub fn place<D: Device, A: Allocator>(
    device: &mut D,
    header: &Header,
    slot: u8,
    warrior: &Warrior<A>,
    results: &[Wins; RESULTS],
) -> Result<(), Fault>
    requires { sectors_for slot ≤ D.facts.size device.old }
    ensures served { IsServed D.facts device.old device.new result }
    ensures titled { IsTitled warrior.now }
    ensures changes { D.facts.lawful device.old
        → Changes (places new_layout header.now slot warrior.now results.now) (D.facts.disk device.old)
        (D.facts.disk device.new) result }
{
    write_slot(device, slot, &Slot::encode(warrior, results))?;
    device.sync()?;
    commit(device, header)?;
    Ok(())
}

/// Writes a header, in the sector of its generation's parity. The one before it stays in the other until this one has
/// reached the disk.
pub fn commit<D: Device>(device: &mut D, header: &Header) -> Result<(), Fault>
    requires { 2 ≤ D.facts.size device.old }
    ensures served { IsServed D.facts device.old device.new result }
    ensures changes { D.facts.lawful device.old
        → Changes (commits new_layout header.now) (D.facts.disk device.old) (D.facts.disk device.new) result }
{
    let sector = (header.generation() % 2) as u32;
    device.write(sector, &encode_header(header))?;
    device.sync()?;
    Ok(())
}
