//! A law of the definitions.

ghost use Rattle.mars_core.specs.Laws.{LawOfLimits};

/// Under limits of the core size a turn is the turn without limits: an operand then reads and writes anywhere in the
/// core.
pub fn laws_of_limits()
    ensures { LawOfLimits }
{}
