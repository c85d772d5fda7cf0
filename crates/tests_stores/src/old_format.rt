//! Devices in the old format, made from those in the new one that hold the same.
//!
//! A slot of the old format has two sectors. The first holds instructions 0 to 63, as in the new one. The other holds
//! instructions 64 to 99 and, from 288 on, the fields that the last sector of the new one has.

use crate::memory::{Disk, TestMemory};
use crate::sectors::sector;
use sector_disk::Fault;

/// The device in the old format that holds what this one does in its first `slots` slots, if that has room for it.
pub fn narrowed<M: TestMemory>(memory: M, new: &mut M::Disk, slots: u8) -> Option<M::Disk> {
    let mut old = memory.blank(2 + 2 * u32::from(slots))?;
    if narrow(new, &mut old, slots).is_ok() {
        return Some(old);
    }
    drop(old);
    None
}

fn narrow<D: Disk>(new: &mut D, old: &mut D, slots: u8) -> Result<(), Fault> {
    narrow_header(new, old, 0)?;
    narrow_header(new, old, 1)?;
    for slot in 0..slots {
        narrow_slot(new, old, slot)?;
    }
    Ok(())
}

/// What this sector holds, a header or zeros. The eighth byte of a header is the number of its format, and the others are the same in both.
fn narrow_header<D: Disk>(new: &mut D, old: &mut D, n: u32) -> Result<(), Fault> {
    let mut content = sector(new, n)?;
    if content[7] == b'2' {
        content[7] = b'1';
    }
    old.put(n, &content)
}

fn narrow_slot<D: Disk>(new: &mut D, old: &mut D, slot: u8) -> Result<(), Fault> {
    let from = 2 + 4 * u32::from(slot);
    let to = 2 + 2 * u32::from(slot);
    let first = sector(new, from)?;
    old.put(to, &first)?;
    let code = sector(new, from + 1)?;
    let fields = sector(new, from + 3)?;
    old.put(to + 1, &joined(&code, &fields))
}

/// The code of one sector, and then the fields of another.
fn joined(code: &[u8; 512], fields: &[u8; 512]) -> [u8; 512] {
    let mut content = *code;
    content[288..].copy_from_slice(&fields[288..]);
    content
}
