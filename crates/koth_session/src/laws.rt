//! A law of the definitions, the contract of a function that does nothing.

ghost use Rattle.koth_session.specs.Lives.{SessionsAreEvents};

use sector_disk::Device;

/// What a session is in the life of its device: the submissions that were answered in it, and after them the one in
/// which the device failed, if it did.
pub fn sessions_in_lives<D: Device>(_device: &D)
    ensures { SessionsAreEvents D.facts }
{}
