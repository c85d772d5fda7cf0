//! A law of the definitions, the contract of a function that does nothing.

ghost use Rattle.hill_look.specs.Laws.{CallsMoveOn};

/// What `place` and `commit` make of a device for a store, up to any point in them, is what a store may do while its
/// hill is looked at.
pub fn calls_move_on()
    ensures { CallsMoveOn }
{}
