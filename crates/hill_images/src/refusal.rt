//! Why a device is refused.

use thiserror::Error;

/// Why there is no store.
#[derive(Clone, Copy, Debug, PartialEq, Eq, Error)]
pub enum Refusal {
    /// The device failed.
    #[error("Disk")]
    Disk,
    /// The device has too few sectors.
    #[error("TooSmall")]
    TooSmall,
    /// The device holds a hill already.
    #[error("Occupied")]
    Occupied,
    /// There was no memory.
    #[error("Memory")]
    Memory,
    /// The device holds no hill.
    #[error("NotAHill")]
    NotAHill,
    /// A slot of a warrior on the hill holds other bytes than a warrior's.
    #[error("Damaged")]
    Damaged,
}
