//! Why a hill was not moved to another device.

use hill_images::Refusal;

/// One of the two devices between which a hill moves.
#[derive(Clone, Copy, Debug, PartialEq, Eq)]
pub enum MigrateSide {
    /// The one that holds it, in the old format.
    Old,
    /// The one that is to hold it, in the new one.
    New,
}

/// Why a hill was not moved.
#[derive(Clone, Copy, Debug, PartialEq, Eq)]
pub struct MigrateFault {
    /// The device that is refused.
    pub side: MigrateSide,
    /// Why.
    pub refusal: Refusal,
}
