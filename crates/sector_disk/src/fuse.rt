//! The fuse of a device: which of its calls pass, and what becomes of the others.

ghost use Rattle.std.specs.Prelude.{◌≡◌, Some};
ghost use Rattle.sector_disk.specs.Fuse.{fate_of, fuse_after};

/// What a fuse does once its calls have passed.
#[derive(Clone, Copy, Debug, PartialEq, Eq)]
pub enum FuseKind {
    /// Every later call fails, and none reaches the device: the machine has stopped.
    Stop,
    /// The next call fails without reaching the device, and all after it pass.
    FailLost,
    /// The next call reaches the device, its answer is replaced by a fault, and all after it pass.
    FailKept,
}

/// What becomes of a call.
#[derive(Clone, Copy, PartialEq, Eq)]
pub enum Fate {
    /// It is made, and its answer is handed on.
    Passes,
    /// It isn't made, and a fault is answered.
    Lost,
    /// It is made, and a fault is answered.
    Kept,
}

/// A fuse that has `left` calls left to pass. With no number it passes every call.
#[derive(Clone, Copy, PartialEq, Eq)]
pub struct Fuse {
    kind: FuseKind,
    left: Option<u64>,
}

impl Fuse {
    /// A fuse that passes this many calls.
    pub fn new(kind: FuseKind, calls: u64) -> Fuse
        ensures { result ≡ record { kind = kind; left = Some calls } }
    {
        Fuse {
            kind,
            left: Some(calls),
        }
    }

    /// What becomes of the next call.
    pub fn next(&mut self) -> Fate
        ensures fate { result ≡ fate_of self.old }
        ensures after { self.new ≡ fuse_after self.old }
    {
        match self.left {
            None => Fate::Passes,
            Some(0) => self.burn(),
            Some(left) => {
                self.left = Some(left - 1);
                Fate::Passes
            }
        }
    }

    fn burn(&mut self) -> Fate
        requires { self.old.left ≡ Some 0 }
        ensures fate { result ≡ fate_of self.old }
        ensures after { self.new ≡ fuse_after self.old }
    {
        match self.kind {
            FuseKind::Stop => Fate::Lost,
            FuseKind::FailLost => {
                self.left = None;
                Fate::Lost
            }
            FuseKind::FailKept => {
                self.left = None;
                Fate::Kept
            }
        }
    }
}
