//! Why no hill is shown.

use hill_images::Refusal;
use thiserror::Error;

/// Why no hill is shown.
#[derive(Clone, Copy, Debug, PartialEq, Eq, Error)]
pub enum LookRefusal {
    /// What was read holds no hill, or could not be read, for a reason of those that opening has.
    #[error("{0}")]
    Refused(Refusal),
    /// The hill changed in each of a hundred tries.
    #[error("Changing")]
    Changing,
}
