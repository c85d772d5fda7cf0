//! Laws of the definitions, each the contract of a function that does nothing.

ghost use Rattle.hill_store.specs.{Calls.{CallsAreEvents, MigrationsAreEvents}, Kept.LawsOfKept, Lives.LawsOfLives};

use sector_disk::Device;

/// If the results that a hill keeps are true, replies, hills and tables by what is kept are those of every pair fought
/// again.
pub fn laws_of_kept()
    ensures { LawsOfKept }
{}

/// The life of a device that holds a hill, in either format, through any openings, submissions, faults and stops, one
/// after another. It holds what the submissions that were answered earn, in their order. Each time that it was open may
/// add one more: the last one, if that was not answered. If the hill moves to a device of the new format, the same
/// holds of that device from there on.
pub fn laws_of_lives()
    ensures { LawsOfLives }
{}

/// What the calls of a store are in the life of its device: a creation begins it, and an opening and a submission are
/// one event of it or none.
pub fn calls_in_lives<D: Device>(_device: &D)
    ensures { CallsAreEvents D.facts }
{}

/// What a migration is in the life of the device that it begins with: the move to the other device, or an opening that
/// was refused. A stopped migration is the move too, if what is left of the other device stands for the hill.
pub fn migrations_in_lives<O: Device, D: Device>(_old: &O, _new: &D)
    ensures { MigrationsAreEvents O.facts D.facts }
{}
