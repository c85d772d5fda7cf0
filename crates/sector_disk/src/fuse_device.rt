//! A device that fails after a number of calls.

ghost use Rattle.std.specs.Prelude.{◌≡◌, ◌+◌, ◌-◌, ◌^◌, ◌<◌, min, [], ◌∷◌, OnOk, Some};
ghost use Rattle.sector_disk.specs.{Disk.{current, wrote, synced}, Changes.Changes, Served.IsServed, Fuse.{fate_of, fuse_after, fuse_facts, IsChanged, IsRead, IsFused}};

use crate::device::{Device, Fault};
use crate::fuse::{Fate, Fuse, FuseKind};

/// A device over another, which passes a number of calls of read, write and sync and then does what its kind says. It is
/// lawful if the device within is.
#[derive(Drop)]
pub struct FuseDevice<D> {
    inner: D,
    fuse: Fuse,
    failed: u64,
}

impl<D> FuseDevice<D> {
    /// A fuse over this device, which passes this many calls.
    pub fn new(inner: D, calls: u64, kind: FuseKind) -> FuseDevice<D>
        ensures { result ≡ record { inner = inner; fuse = record { kind = kind; left = Some calls }; failed = 0 } }
    {
        FuseDevice {
            inner,
            fuse: Fuse::new(kind, calls),
            failed: 0,
        }
    }

    /// The device within.
    pub fn into_inner(self) -> D
        ensures { result ≡ self.inner }
    {
        self.inner
    }

    /// Counts a fault of the fuse's own.
    fn fail(&mut self) -> Fault
        ensures inner { self.new.inner ≡ self.old.inner }
        ensures fuse { self.new.fuse ≡ self.old.fuse }
        ensures failed { self.new.failed ≡ min (self.old.failed + 1) (2 ^ 64 - 1) }
    {
        self.failed = self.failed.saturating_add(1);
        Fault
    }
}

impl<D: Device> Device for FuseDevice<D> {
    ghost facts = { fuse_facts D.facts };

    fn sectors(&self) -> u32 {
        self.inner.sectors()
    }

    fn faults(&self) -> u64 {
        self.inner.faults().saturating_add(self.failed)
    }

    fn read(&mut self, n: u32, to: &mut [u8; 512]) -> Result<(), Fault>
        requires { n < D.facts.size self.old.inner }
        ensures served { IsServed (fuse_facts D.facts) self.old self.new result }
        ensures kept { D.facts.lawful self.old.inner → D.facts.disk self.new.inner ≡ D.facts.disk self.old.inner }
        ensures given { D.facts.lawful self.old.inner → OnOk result (to.new ≡ current (D.facts.disk self.old.inner) n) }
        ensures fuse { self.new.fuse ≡ fuse_after self.old.fuse }
        ensures fused { IsFused (fate_of self.old.fuse) (IsRead D.facts n to.new self.old.inner self.new.inner) self.old.inner self.new.inner result }
    {
        match self.fuse.next() {
            Fate::Passes => self.inner.read(n, to),
            Fate::Lost => Err(self.fail()),
            Fate::Kept => {
                let _ = self.inner.read(n, to);
                Err(self.fail())
            }
        }
    }

    fn write(&mut self, n: u32, from: &[u8; 512]) -> Result<(), Fault>
        requires { n < D.facts.size self.old.inner }
        ensures served { IsServed (fuse_facts D.facts) self.old self.new result }
        ensures changes { D.facts.lawful self.old.inner → Changes (wrote n from.now ∷ []) (D.facts.disk self.old.inner) (D.facts.disk self.new.inner) result }
        ensures fuse { self.new.fuse ≡ fuse_after self.old.fuse }
        ensures fused { IsFused (fate_of self.old.fuse) (IsChanged D.facts (wrote n from.now ∷ []) self.old.inner self.new.inner) self.old.inner self.new.inner result }
    {
        match self.fuse.next() {
            Fate::Passes => self.inner.write(n, from),
            Fate::Lost => Err(self.fail()),
            Fate::Kept => {
                let _ = self.inner.write(n, from);
                Err(self.fail())
            }
        }
    }

    fn sync(&mut self) -> Result<(), Fault>
        ensures served { IsServed (fuse_facts D.facts) self.old self.new result }
        ensures changes { D.facts.lawful self.old.inner → Changes (synced ∷ []) (D.facts.disk self.old.inner) (D.facts.disk self.new.inner) result }
        ensures fuse { self.new.fuse ≡ fuse_after self.old.fuse }
        ensures fused { IsFused (fate_of self.old.fuse) (IsChanged D.facts (synced ∷ []) self.old.inner self.new.inner) self.old.inner self.new.inner result }
    {
        match self.fuse.next() {
            Fate::Passes => self.inner.sync(),
            Fate::Lost => Err(self.fail()),
            Fate::Kept => {
                let _ = self.inner.sync();
                Err(self.fail())
            }
        }
    }
}
