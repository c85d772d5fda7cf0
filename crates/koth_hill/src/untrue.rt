//! A kept result that isn't true.

use koth_match::Bout;

/// A kept result of two warriors, by their entries, that is not the result of their match.
#[derive(Clone, Copy, Debug, PartialEq, Eq)]
pub struct Untrue {
    /// The entry of the older warrior.
    pub older: u64,
    /// The entry of the younger warrior.
    pub younger: u64,
    /// What is kept of the two.
    pub kept: Bout,
    /// The result of their match.
    pub fought: Bout,
}
