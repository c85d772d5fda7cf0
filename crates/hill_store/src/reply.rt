//! What a submission is answered.

ghost use Rattle.std.specs.Prelude.{◌≡◌};
ghost use Rattle.hill_store.specs.{Earned.reply_judged, Runs.is_disk};

use koth_hill::Verdict;
use war_types::AsmFault;

/// The answer to a submission.
#[derive(Clone, Copy, Debug, PartialEq, Eq)]
pub enum Reply {
    /// The warrior is on the hill, under this number, at this rank, with these points.
    Placed { entry: u64, rank: u32, score: u32 },
    /// The warrior fell at once, with these points against all on the hill.
    Fell { entry: u64, score: u32 },
    /// The source is refused.
    Refused(AsmFault),
    /// There was no memory. Nothing was submitted.
    Memory,
    /// The device has taken as many headers as can be counted. Nothing was submitted.
    Worn,
    /// The device failed. Whether the submission stands is decided when the device is opened again.
    Disk,
    /// An earlier submission was answered `Disk`: close the device, and open it again. Nothing was submitted.
    Reopen,
}

impl Reply {
    /// The answer to a submission of which this is the verdict.
    pub fn judged(judged: &Verdict) -> Reply
        ensures { result ≡ reply_judged judged.now }
    {
        if judged.stays {
            Reply::Placed {
                entry: judged.entry,
                rank: judged.rank,
                score: judged.score,
            }
        } else {
            Reply::Fell {
                entry: judged.entry,
                score: judged.score,
            }
        }
    }

    /// Whether the device failed in this submission.
    pub fn is_disk(&self) -> bool
        ensures { result ≡ is_disk self.now }
    {
        match *self {
            Reply::Disk => true,
            Reply::Placed { .. }
            | Reply::Fell { .. }
            | Reply::Refused(_)
            | Reply::Memory
            | Reply::Worn
            | Reply::Reopen => false,
        }
    }
}
