//! Why a hill's file is refused.

use std::io;
use std::io::ErrorKind;
use thiserror::Error;

/// Why a hill's file can't be worked on.
#[derive(Clone, Copy, Debug, PartialEq, Eq, Error)]
pub enum OpenFault {
    /// The system had no memory.
    #[error("no memory for the file")]
    Memory,
    /// Another program works on the file: it holds the file's lock.
    #[error("another program works on the file")]
    Locked,
    /// The file is there, isn't empty and holds something else than zeros.
    #[error("the file holds something else")]
    Occupied,
    /// Opening, reading, writing or syncing failed, for this reason of the system's.
    #[error("the file failed: {0}")]
    Failed(ErrorKind),
}

impl From<io::Error> for OpenFault {
    ghost use Rattle.std.specs.{Prelude.◌≡◌, IoError.error_kind};
    ghost use Rattle.hill_file.specs.OpenFault.{open_fault_of};

    ghost from_gives = { λ error fault. fault ≡ open_fault_of (error_kind error) };

    fn from(error: io::Error) -> OpenFault {
        match error.kind() {
            ErrorKind::OutOfMemory => OpenFault::Memory,
            kind => OpenFault::Failed(kind),
        }
    }
}
