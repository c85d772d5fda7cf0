//! Hills on devices, that may not be there.

use crate::calls::{create, open};
use hill_store::{Refusal, Store};
use sector_disk::Device;
use std::alloc::Allocator;
use war_types::Settings;

/// Sectors that a hill of two needs: two headers, and four for each of three slots.
pub const SECTORS: u32 = 14;

/// A hill without warriors that is created on a device, if one is.
pub fn created<D: Device + Drop, A: Allocator + Copy>(
    alloc: A,
    device: D,
    settings: Settings,
) -> Option<Store<D, A>> {
    match create(alloc, device, settings) {
        Ok(store) => Some(store),
        Err((device, _)) => {
            drop(device);
            None
        }
    }
}

/// Why no hill is created on a device, if none is.
pub fn refusal_to_create<D: Device + Drop, A: Allocator + Copy>(
    alloc: A,
    device: D,
    settings: Settings,
) -> Option<Refusal> {
    match create(alloc, device, settings) {
        Ok(store) => {
            drop(store);
            None
        }
        Err((device, refusal)) => {
            drop(device);
            Some(refusal)
        }
    }
}

/// The hill that a device holds, if it holds one.
pub fn opened<D: Device + Drop, A: Allocator + Copy>(alloc: A, device: D) -> Option<Store<D, A>> {
    match open(alloc, device) {
        Ok(store) => Some(store),
        Err((device, _)) => {
            drop(device);
            None
        }
    }
}

/// Why no hill is opened on a device, if none is.
pub fn refusal_to_open<D: Device + Drop, A: Allocator + Copy>(
    alloc: A,
    device: D,
) -> Option<Refusal> {
    match open(alloc, device) {
        Ok(store) => {
            drop(store);
            None
        }
        Err((device, refusal)) => {
            drop(device);
            Some(refusal)
        }
    }
}
