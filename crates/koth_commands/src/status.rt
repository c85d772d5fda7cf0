//! How a run of the program ends.

ghost use Rattle.std.specs.Prelude.{◌≡◌};

/// How a run ends. The order is that of the numbers that the program leaves with, 0 to 4.
#[derive(Clone, Copy, PartialEq, Eq)]
pub enum Status {
    /// It is done. Help is done too.
    Done,
    /// It is refused: a source by the assembler, or a setting that is out of its range.
    Refused,
    /// The arguments ask for nothing that the program does.
    WordFault,
    /// A stream or a file failed: opening, a read or a write gave an error, or a write took no byte.
    StreamFault,
    /// Out of memory.
    NoMemory,
}

impl Status {
    ghost use Rattle.koth_commands.specs.Status.{status_code, worse};

    /// The number that the program leaves with.
    pub fn code(self) -> u8
        ensures { result ≡ status_code self }
    {
        match self {
            Status::Done => 0,
            Status::Refused => 1,
            Status::WordFault => 2,
            Status::StreamFault => 3,
            Status::NoMemory => 4,
        }
    }

    /// How two things end together: with the greater number.
    pub fn worse(self, other: Status) -> Status
        ensures { result ≡ worse self other }
    {
        if self.code() < other.code() {
            other
        } else {
            self
        }
    }
}
