//! A law of the definitions, the contract of a function that does nothing.

ghost use Rattle.koth_service.specs.Held.{ServicesAreLives};

use crate::host::Host;
use hill_store::Store;
use sector_disk::Device;
use std::alloc::Allocator;

/// What a service is in the life of its device: the submissions that were answered in it, over all peers in the order
/// of their answers, those in which the device failed, and the openings after these.
pub fn services_in_lives<D: Device, A: Allocator, H: Host<D, A>>(_store: &Store<D, A>, _host: &H)
    ensures { ServicesAreLives D.facts (H.shows _host.now) }
{}
