//! Devices of sectors: what each keeps, what a stop may leave of it, and the devices that a store is run and tested on.
//!
//! `device` is the trait that a store is written against: a number of sectors of 512 bytes, read, write and sync, and a count of
//! faults. `file_device` is the device over a file. `memory_device` is a lawful one in memory, of which every image after a stop can be
//! had; its sectors are those of `sector`. `fuse_device` fails after a number of calls, as its `fuse` says. `laws` are laws of the
//! definitions.
//!
//! The main clauses: a call that answers `Ok` counts no fault, and one that answers `Err` counts one (`IsServed`). On a lawful device a
//! write adds a content and a sync makes the last contents stable (`Changes`), and a read gives the last content written. A stop leaves
//! of each sector, by itself, the stable content or one written since the last sync (`IsImage`). Each such image of a device in memory
//! is one that `stopped` makes.
//!
//! Nothing here knows what the sectors are for. No device repeats a failed call, and no contract claims anything of what a file holds.
#![tactic(auto)]

mod device;
mod file_device;
mod fuse;
mod fuse_device;
mod laws;
mod memory_device;
mod sector;

pub use device::{Device, Fault};
pub use file_device::{FileDevice, FileFault, SECTOR_BYTES, sync_name};
pub use fuse::FuseKind;
pub use fuse_device::FuseDevice;
pub use laws::{each_image_is_chosen, laws_of_images};
pub use memory_device::MemoryDevice;
