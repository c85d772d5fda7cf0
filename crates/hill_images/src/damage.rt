//! What a hill has lost: a header that can't be read though it begins as one, and the first warrior that can't be read.

ghost use Rattle.std.specs.Prelude.{◌≡◌, ◌↔◌, ◌≤◌, IfErr, IfOk, IsTrue};
ghost use Rattle.{sector_disk.specs.{Disk.current, Served.{Failed, IsKept}}, hill_bytes.specs.Layout.{code_room, new_layout}};
ghost use Rattle.hill_images.specs.{Damage.{FirstDamaged, HoldsHeaderAt, IsDamaged, IsLostAt, LosesHeader}, Opening.RefusesIn, Reading.HillRefused};

use crate::found::{newest_header, valid_header};
use crate::reading::{Unread, read_warrior};
use crate::refusal::Refusal;
use crate::slots::sectors_for;
use hill_bytes::{Format, Header};
use sector_disk::{Device, Fault};
use std::alloc::Allocator;

/// What a header begins with.
const BEGINNING: [u8; 8] = *b"KOTHHIL2";

/// Whether one of these, the first two sectors of a hill, is a header, and the other one begins as a header does and is
/// none.
pub fn loses_header(even: &[u8; 512], odd: &[u8; 512]) -> bool
    ensures { IsTrue result ↔ LosesHeader even.now odd.now }
{
    is_header_at(0, even) && is_lost_at(1, odd) || is_header_at(1, odd) && is_lost_at(0, even)
}

fn is_header_at(n: u32, bytes: &[u8; 512]) -> bool
    ensures { IsTrue result ↔ HoldsHeaderAt n bytes.now }
{
    valid_header(Format::New, n, bytes).is_some()
}

fn is_lost_at(n: u32, bytes: &[u8; 512]) -> bool
    ensures { IsTrue result ↔ IsLostAt n bytes.now }
{
    bytes[..8] == BEGINNING[..] && !is_header_at(n, bytes)
}

/// The entry of the first warrior on the hill of a device, in the order in which they entered, whose slot holds no
/// warrior of that hill. `None` if each slot holds one. It can't be known, with `NotAHill`, if there is no header, with
/// `TooSmall` if the device has fewer sectors than the hill, with `Disk` if the device fails, and with `Memory` if
/// memory runs out. Nothing is written.
pub fn first_damaged<D: Device, A: Allocator + Copy>(
    alloc: A,
    device: &mut D,
) -> Result<Option<u64>, Refusal>
    requires { 2 ≤ D.facts.size device.old }
    ensures kept { IsKept D.facts device.old device.new }
    ensures same { D.facts.lawful device.old → D.facts.disk device.new ≡ D.facts.disk device.old }
    ensures found { D.facts.lawful device.old → IfOk result (IsDamaged (current (D.facts.disk device.old))) }
    ensures refused { D.facts.lawful device.old
        → IfErr result (RefusesIn new_layout (D.facts.size device.old) (current (D.facts.disk device.old))) }
    ensures cause { IfErr result (λ why. why ≡ Refusal.Disk → Failed D.facts device.old device.new) }
{
    match newest_header(device, Format::New) {
        Ok(Some(header)) => first_of(alloc, device, &header),
        Ok(None) => Err(Refusal::NotAHill),
        Err(Fault) => Err(Refusal::Disk),
    }
}

/// The first one that a header names.
fn first_of<D: Device, A: Allocator + Copy>(
    alloc: A,
    device: &mut D,
    header: &Header,
) -> Result<Option<u64>, Refusal>
    requires { D.facts.lawful device.old → header.now.settings.length ≤ code_room new_layout }
    ensures kept { IsKept D.facts device.old device.new }
    ensures same { D.facts.lawful device.old → D.facts.disk device.new ≡ D.facts.disk device.old }
    ensures found { D.facts.lawful device.old
        → IfOk result (FirstDamaged header.now.settings (current (D.facts.disk device.old)) header.now.entries) }
    ensures refused { IfErr result (HillRefused new_layout D.facts device.old device.new header.now) }
{
    let settings = *header.settings();
    if device.sectors() < sectors_for(settings.capacity()) {
        return Err(Refusal::TooSmall);
    }
    for e in header.entries() {
        match read_warrior(alloc, device, Format::New, e.slot, &settings) {
            Ok(_held) => {}
            Err(Unread::Damaged) => return Ok(Some(e.entry)),
            Err(Unread::Disk) => return Err(Refusal::Disk),
            Err(Unread::Memory) => return Err(Refusal::Memory),
        }
    }
    Ok(None)
}
