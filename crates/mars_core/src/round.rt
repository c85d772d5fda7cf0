//! Sides, and how turns and rounds end.

/// One of the two warriors of a round: the one at address 0 is the first.
#[derive(Clone, Copy, Debug, PartialEq, Eq)]
pub enum Side {
    First,
    Second,
}

/// How a turn went.
#[derive(Clone, Copy, Debug, PartialEq, Eq)]
pub enum Turned {
    /// The round was over before, and nothing changed.
    Over,
    /// No process was queued in place of the one that was executed.
    Died,
    /// At least one process was queued.
    Went,
}

/// Who won a round.
#[derive(Clone, Copy, Debug, PartialEq, Eq)]
pub enum Outcome {
    /// Only the second side has no process.
    First,
    /// Only the first side has no process.
    Second,
    /// Both sides have a process, or neither has.
    Tie,
}
