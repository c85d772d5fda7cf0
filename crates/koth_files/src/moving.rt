//! Whether a file holds a hill that can be moved from it: one of the old format.

ghost use Rattle.std.specs.Prelude.{◌≡◌, ◌<◌, ◌≤◌, ℕ, List, IfErr, IfOk, OnOk};
ghost use Rattle.{sector_disk.specs.{Disk.current, Served.{IsKept, IsServed}}, hill_bytes.specs.Layout.{new_layout, IsHeader}};
ghost use Rattle.hill_images.specs.{Found.IsFoundIn, Opening.HoldsOld};
ghost use Rattle.koth_files.specs.{Moving.{HoldsNewIf, IsNewIf, TellsUnmoved}, Trouble.IsOfHill};

use crate::trouble::{new_hill_at, refused_at, unopened_at};
use hill_bytes::{Header, decode_header};
use hill_file::{HillFile, Sharing, TryLock};
use hill_images::holds_old_hill;
use hill_store::Refusal;
use koth_commands::trouble::Trouble;
use sector_disk::{Device, Fault};
use std::alloc::Allocator;
use std::rt::Files;

/// Refuses a file that holds no hill of the old format, and says of one of the new format that it is that. The file's
/// lock is taken for the look, and nothing is written. A device that has one of each is let through.
pub fn require_old_hill<'f, R: Files, A: Allocator>(
    rt: &R,
    alloc: A,
    path: &'f str,
) -> Result<(), Trouble<'f>>
where
    R::File: TryLock,
    ensures { IfErr result IsOfHill }
{
    match HillFile::open(rt, alloc, path, Sharing::Kept) {
        Ok(mut device) => require_old_on(path, &mut device),
        Err(fault) => Err(unopened_at(path, fault)),
    }
}

/// The same of the device of the file at this path. It needs no memory.
fn require_old_on<'f, D: Device>(path: &'f str, device: &mut D) -> Result<(), Trouble<'f>>
    ensures kept { IsKept D.facts device.old device.new }
    ensures old { OnOk result (D.facts.lawful device.old → HoldsOld (current (D.facts.disk device.old))) }
    ensures refused { IfErr result (TellsUnmoved D.facts path.entry device.old device.new) }
    ensures of_hill { IfErr result IsOfHill }
{
    if device.sectors() < 2 {
        return Err(refused_at(path, Refusal::TooSmall));
    }
    let is_new = match holds_new_hill(device) {
        Ok(is_new) => is_new,
        Err(Fault) => return Err(refused_at(path, Refusal::Disk)),
    };
    match holds_old_hill(device) {
        Ok(true) => Ok(()),
        Ok(false) if is_new => Err(new_hill_at(path)),
        Ok(false) => Err(refused_at(path, Refusal::NotAHill)),
        Err(Fault) => Err(refused_at(path, Refusal::Disk)),
    }
}

/// Whether a device holds a header of the new format. Nothing is written.
fn holds_new_hill<D: Device>(device: &mut D) -> Result<bool, Fault>
    requires { 2 ≤ D.facts.size device.old }
    ensures served { IsServed D.facts device.old device.new result }
    ensures kept { D.facts.lawful device.old → D.facts.disk device.new ≡ D.facts.disk device.old }
    ensures found { D.facts.lawful device.old → IfOk result (HoldsNewIf (current (D.facts.disk device.old))) }
{
    let even = holds_new_in(device, 0)?;
    let odd = holds_new_in(device, 1)?;
    Ok(even | odd)
}

/// Whether a sector holds a header of its parity, of the new format.
fn holds_new_in<D: Device>(device: &mut D, n: u32) -> Result<bool, Fault>
    requires { n < D.facts.size device.old }
    ensures served { IsServed D.facts device.old device.new result }
    ensures kept { D.facts.lawful device.old → D.facts.disk device.new ≡ D.facts.disk device.old }
    ensures found { D.facts.lawful device.old → IfOk result (IsNewIf n (current (D.facts.disk device.old) n)) }
{
    let mut bytes = [0; 512];
    device.read(n, &mut bytes)?;
    Ok(is_new_header(n, &bytes))
}

fn is_new_header(n: u32, bytes: &[u8; 512]) -> bool
    ensures { IsNewIf n bytes.now result }
{
    new_header(n, bytes).is_some()
}

/// The header of the new format that a sector holds; `None` if it holds none, or one of the other parity.
fn new_header(n: u32, bytes: &[u8; 512]) -> Option<Header>
    ensures { IsFoundIn new_layout n bytes.now result }
{
    match decode_header(bytes) {
        Some(header) => of_parity(n, header),
        None => None,
    }
}

fn of_parity(n: u32, header: Header) -> Option<Header>
    ensures { (bytes : List ℕ) → IsHeader new_layout bytes header → IsFoundIn new_layout n bytes result }
{
    if header.generation() % 2 == u64::from(n) {
        Some(header)
    } else {
        None
    }
}
