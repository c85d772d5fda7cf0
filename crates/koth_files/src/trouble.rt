//! Why a hill's file can't be worked on.

ghost use Rattle.std.specs.Prelude.{◌≡◌, ◌↔◌, IsTrue};
ghost use Rattle.koth_files.specs.Trouble.{damaged_at, locked_at, new_hill_at, refused_at, told_at, unopened_at, IsLock, IsOfHill};

use hill_file::OpenFault;
use hill_store::Refusal;
use koth_commands::trouble::{About, Fault, Trouble};
use koth_commands::{Cause, Reason, Subject, reason_of};

/// This fault of the file at this path, and why.
pub(crate) fn told_at<'f>(path: &'f str, fault: Fault, reason: Reason) -> Trouble<'f>
    ensures { result ≡ told_at path.entry fault reason }
{
    let subject = Subject::File(path);
    Trouble {
        fault,
        about: About::Cause(Cause { subject, reason }),
    }
}

/// A store refused the hill in the file at this path.
pub fn refused_at<'f>(path: &'f str, refusal: Refusal) -> Trouble<'f>
    ensures told { result ≡ refused_at path.entry refusal }
    ensures of_hill { IsOfHill result }
{
    match refusal {
        Refusal::Disk => told_at(path, Fault::Stream, Reason::Device),
        Refusal::TooSmall => told_at(path, Fault::TooSmall, Reason::TooShort),
        Refusal::Occupied => told_at(path, Fault::Occupied, Reason::NotEmpty),
        Refusal::Memory => told_at(path, Fault::Memory, Reason::Memory),
        Refusal::NotAHill => told_at(path, Fault::NotAHill, Reason::NoHill),
        Refusal::Damaged => told_at(path, Fault::Damaged, Reason::Damaged),
    }
}

/// The file at this path can't be worked on.
pub fn unopened_at<'f>(path: &'f str, fault: OpenFault) -> Trouble<'f>
    ensures told { result ≡ unopened_at path.entry fault }
    ensures of_hill { IsOfHill result }
{
    match fault {
        OpenFault::Memory => Trouble::memory(),
        OpenFault::Locked => told_at(path, Fault::Stream, Reason::Locked),
        OpenFault::Occupied => told_at(path, Fault::Occupied, Reason::NotEmpty),
        OpenFault::Failed(kind) => told_at(path, Fault::Stream, reason_of(kind)),
    }
}

/// The warrior with this entry, on the hill in the file at this path, can't be read.
pub(crate) fn damaged_at<'f>(path: &'f str, entry: u64) -> Trouble<'f>
    ensures { result ≡ damaged_at path.entry entry }
{
    let cause = Cause {
        subject: Subject::Warrior(path, entry),
        reason: Reason::Unreadable,
    };
    Trouble {
        fault: Fault::Damaged,
        about: About::Cause(cause),
    }
}

/// The file at this path holds a hill of the new format.
pub(crate) fn new_hill_at<'f>(path: &'f str) -> Trouble<'f>
    ensures told { result ≡ new_hill_at path.entry }
    ensures of_hill { IsOfHill result }
{
    told_at(path, Fault::NotAHill, Reason::NewHill)
}

/// Another program has the lock of the file of a hill at this path, to which a source is submitted, and had it for this
/// number of seconds.
pub(crate) fn locked_at<'f>(path: &'f str, seconds: u32) -> Trouble<'f>
    ensures { result ≡ locked_at path.entry seconds }
{
    if seconds == 0 {
        told_at(path, Fault::Stream, Reason::LockedNow)
    } else {
        told_at(path, Fault::Stream, Reason::LockedStill)
    }
}

/// Whether it is that another program has the lock of a hill's file.
pub(crate) fn is_lock(trouble: &Trouble<'_>) -> bool
    ensures { IsTrue result ↔ IsLock trouble.now }
{
    match trouble.about {
        About::Cause(cause) => cause.reason == Reason::Locked,
        _ => false,
    }
}
