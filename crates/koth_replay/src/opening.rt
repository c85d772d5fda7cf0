//! How a round begins.

use mars_core::Side;

/// How a round begins. The older warrior is the first side and is loaded from address 0 on.
#[derive(Clone, Copy, Debug, PartialEq, Eq)]
pub struct Opening {
    /// Cells of the core, 64 to 65,535.
    pub core: u16,
    /// The address from which on the younger warrior is loaded.
    pub position: u16,
    /// The address of the older warrior's one process.
    pub older: u16,
    /// The address of the younger warrior's one process.
    pub younger: u16,
    /// The side that moves first.
    pub first: Side,
}
