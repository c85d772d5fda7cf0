//! The bytes in the sectors of a device.

use crate::memory::Disk;
use sector_disk::{Device, Fault};

/// What a device reads at one of its sectors.
pub fn sector<D: Device>(device: &mut D, n: u32) -> Result<[u8; 512], Fault> {
    if n >= device.sectors() {
        return Err(Fault);
    }
    let mut content = [9; 512];
    device.read(n, &mut content)?;
    Ok(content)
}

/// Whether a device reads this at one of its sectors.
pub fn holds<D: Device>(device: &mut D, n: u32, content: &[u8; 512]) -> Result<bool, Fault> {
    Ok(sector(device, n)? == *content)
}

/// Puts a byte into one of a device's sectors, and leaves the others as they are.
pub fn set_byte<D: Disk>(device: &mut D, n: u32, at: usize, byte: u8) -> Result<(), Fault> {
    let mut content = sector(device, n)?;
    match content.get_mut(at) {
        Some(place) => *place = byte,
        None => return Err(Fault),
    }
    device.put(n, &content)
}

/// These bytes, and then zeros.
pub fn with_zeros(begins: &[u8]) -> [u8; 512] {
    let mut content = [0; 512];
    for (place, byte) in content.iter_mut().zip(begins) {
        *place = *byte;
    }
    content
}
