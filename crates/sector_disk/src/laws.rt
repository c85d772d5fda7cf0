//! Laws of the definitions, each the contract of a function that does nothing.

ghost use Rattle.sector_disk.specs.{Memory.EachImageIsChosen, Laws.LawsOfImages};

use crate::memory_device::MemoryDevice;
use std::alloc::Allocator;

/// What writes, syncs and reads do to the images of any disk.
pub fn laws_of_images()
    ensures { LawsOfImages }
{}

/// Each image of a device in memory is one that `stopped` makes, at some choice with a number for each sector, none greater
/// than the number of the contents written to that sector since the last sync.
pub fn each_image_is_chosen<A: Allocator>(_device: &MemoryDevice<A>)
    ensures { EachImageIsChosen _device.now }
{}
