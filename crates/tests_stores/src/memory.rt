//! The memory of a test, and what is made in it.
//!
//! Tests know it by these traits. A proof over the types that `devices` has would take several times as long.

use sector_disk::{Device, Fault, FuseKind, MemoryDevice};
use std::alloc::{AllocError, Allocator, Global};
use tests_fixtures::Refusing;

/// A device in memory.
pub trait Disk: Device + Drop {
    /// What a stop leaves of it, if `choice` names that. There is none without memory for it.
    fn image(&self, choice: &[u32]) -> Option<Self>;

    /// Puts a content into a sector.
    fn put(&mut self, n: u32, content: &[u8; 512]) -> Result<(), Fault>;
}

impl<A: Allocator + Copy> Disk for MemoryDevice<A> {
    fn image(&self, choice: &[u32]) -> Option<Self> {
        match self.stopped(choice) {
            Ok(image) => Some(image),
            Err(AllocError) => None,
        }
    }

    fn put(&mut self, n: u32, content: &[u8; 512]) -> Result<(), Fault> {
        if n >= self.sectors() {
            return Err(Fault);
        }
        self.set(n, content);
        Ok(())
    }
}

/// A device over a disk, which counts its calls.
pub trait Counted: Device + Drop {
    /// How many calls of read, write and sync there were.
    fn calls(&self) -> u64;
}

/// Memory that refuses the growths which a test names. Its disks take theirs from it.
pub trait TestMemory: Allocator + Copy {
    /// A device in it.
    type Disk: Disk;
    /// A device over one of these.
    type Device: Counted;

    /// From now on passes `passed` growths on, refuses the next `refused`, and passes the rest on.
    fn refuse(self, passed: u64, refused: u64);

    /// How many growths were refused since the last `refuse`.
    fn refused(self) -> u64;

    /// A blank disk, if there is memory for it.
    fn blank(self, sectors: u32) -> Option<Self::Disk>;

    /// A device that stops or fails after `calls` calls.
    fn failing(self, disk: Self::Disk, calls: u64, kind: FuseKind) -> Self::Device;

    /// A device that makes each call, and refuses the growths of this memory from the first one on.
    fn stinting(self, disk: Self::Disk) -> Self::Device;

    /// The disk within a device.
    fn within(self, device: Self::Device) -> Self::Disk;
}

/// A device that makes each call.
pub fn lasting<M: TestMemory>(memory: M, disk: M::Disk) -> M::Device {
    memory.failing(disk, u64::MAX, FuseKind::Stop)
}

/// What a test tries, with what it has of the system.
pub trait Trial<R> {
    /// Tries it with stores in `memory`, and devices in this or in `disks`. Neither refuses anything yet.
    fn run<M: TestMemory>(rt: &R, memory: M, disks: M);
}

/// Tries it in memories of its own. Only this names their type.
pub fn run<R, T: Trial<R>>(rt: &R, alloc: Global) {
    let memory = Refusing::new(alloc);
    let disks = Refusing::new(alloc);
    T::run(rt, &memory, &disks);
    drop(disks);
    drop(memory);
}
