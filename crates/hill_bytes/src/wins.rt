//! The result of a match, as it is stored.

/// The rounds of a match that each of two warriors won; the others were ties.
#[derive(Clone, Copy, Debug, PartialEq, Eq)]
pub struct Wins {
    /// Rounds that the older warrior won.
    pub older: u16,
    /// Rounds that the younger warrior won.
    pub younger: u16,
}

impl Wins {
    /// Nobody won a round: what stands at the place of a slot that holds no older warrior.
    pub const NONE: Wins = Wins {
        older: 0,
        younger: 0,
    };
}
