//! The device on which the tests' stores work.
//!
//! It is one type for all of them, whatever a test wants of it, so the store's calls are compiled for it once.

use crate::memory::{Counted, TestMemory};
use sector_disk::{Device, Fault, FuseDevice, FuseKind, MemoryDevice};
use std::alloc::{AllocError, Global};
use tests_fixtures::Refusing;

/// A device in memory that counts its calls. It may stop or fail after some of them, and refuse growths from the first on.
pub type Tried<'m> = Counting<'m, FuseDevice<MemoryDevice<&'m Refusing<Global>>>>;

/// Counts the calls of read, write and sync. From its first call on it refuses each growth of an allocator, if it has one.
#[derive(Drop)]
pub struct Counting<'m, D> {
    inner: D,
    stinted: Option<&'m Refusing<Global>>,
    calls: u64,
}

impl<D: Device> Device for Counting<'_, D> {
    ghost facts = { record { size = λ c. D.facts.size c.inner; lawful = λ c. D.facts.lawful c.inner; disk = λ c. D.facts.disk c.inner; faults = λ c. D.facts.faults c.inner } };

    fn sectors(&self) -> u32 {
        self.inner.sectors()
    }

    fn faults(&self) -> u64 {
        self.inner.faults()
    }

    fn read(&mut self, n: u32, to: &mut [u8; 512]) -> Result<(), Fault> {
        stint(self.stinted);
        self.calls = self.calls.saturating_add(1);
        self.inner.read(n, to)
    }

    fn write(&mut self, n: u32, from: &[u8; 512]) -> Result<(), Fault> {
        stint(self.stinted);
        self.calls = self.calls.saturating_add(1);
        self.inner.write(n, from)
    }

    fn sync(&mut self) -> Result<(), Fault> {
        stint(self.stinted);
        self.calls = self.calls.saturating_add(1);
        self.inner.sync()
    }
}

/// Refuses each growth from now on.
fn stint(stinted: Option<&Refusing<Global>>) {
    if let Some(memory) = stinted {
        memory.refuse_rest();
    }
}

impl<D: Device + Drop> Counted for Counting<'_, D> {
    fn calls(&self) -> u64 {
        self.calls
    }
}

impl<'m> TestMemory for &'m Refusing<Global> {
    type Disk = MemoryDevice<&'m Refusing<Global>>;

    type Device = Tried<'m>;

    fn refuse(self, passed: u64, refused: u64) {
        Refusing::refuse(self, passed, refused);
    }

    fn refused(self) -> u64 {
        Refusing::refused(self)
    }

    fn blank(self, sectors: u32) -> Option<MemoryDevice<&'m Refusing<Global>>> {
        match MemoryDevice::new(self, sectors) {
            Ok(disk) => Some(disk),
            Err(AllocError) => None,
        }
    }

    fn failing(
        self,
        disk: MemoryDevice<&'m Refusing<Global>>,
        calls: u64,
        kind: FuseKind,
    ) -> Tried<'m> {
        Counting {
            inner: FuseDevice::new(disk, calls, kind),
            stinted: None,
            calls: 0,
        }
    }

    fn stinting(self, disk: MemoryDevice<&'m Refusing<Global>>) -> Tried<'m> {
        Counting {
            inner: FuseDevice::new(disk, u64::MAX, FuseKind::Stop),
            stinted: Some(self),
            calls: 0,
        }
    }

    fn within(self, device: Tried<'m>) -> MemoryDevice<&'m Refusing<Global>> {
        device.inner.into_inner()
    }
}
