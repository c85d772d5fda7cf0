//! The device in memory, whose every image can be had.

ghost use Rattle.std.specs.Prelude.{◌≡◌, ◌<◌, [], ◌∷◌, IfOk, IsOk, OnOk, OnErr};
ghost use Rattle.sector_disk.specs.{Disk.{current, wrote, synced}, Changes.Changes, Image.IsImage, Memory.{blank, set_at, memory_disk, memory_size, stopped_at, IsMemoryServed}};

use crate::device::{Device, Fault};
use crate::sector::Sector;
use std::alloc::{AllocError, Allocator};
use std::marker::Model;

/// A lawful device in memory. It fails only if a write gets no memory.
#[derive(Drop)]
pub struct MemoryDevice<A: Allocator> {
    alloc: A,
    sectors: Vec<Sector<A>, A>,
    faults: u64,
}

impl<A: Allocator> Model for MemoryDevice<A> {
    ghost use Rattle.std.specs.Prelude.{◌<◌, ◌^◌, length};
    ghost use Rattle.sector_disk.specs.Memory.{MemoryState};

    ghost Value = { MemoryState };

    ghost view = { λ m. record { sectors = m.sectors.items; faults = m.faults } };

    ghost invariant = { λ m. length m.sectors.items < 2 ^ 32 };
}

impl<A: Allocator + Copy> MemoryDevice<A> {
    /// A device of this many sectors, all zero and stable.
    pub fn new(alloc: A, sectors: u32) -> Result<MemoryDevice<A>, AllocError>
        ensures { IfOk result (λ device. device ≡ blank sectors) }
    {
        let mut blank = Vec::with_capacity(alloc, sectors as usize)?;
        for _i in 0..sectors {
            blank.push(Sector::new(alloc, [0; 512]))?;
        }
        Ok(MemoryDevice {
            alloc,
            sectors: blank,
            faults: 0,
        })
    }

    /// The device after a stop that left the image that `choice` names. It has counted no fault.
    ///
    /// `choice` has a number for each sector: 0 names the stable content, k the k-th one written since the last sync, and a greater
    /// number the last. A missing number is 0, and one without a sector names nothing.
    pub fn stopped(&self, choice: &[u32]) -> Result<MemoryDevice<A>, AllocError>
        ensures image { IfOk result (λ device. memory_disk device ≡ stopped_at choice.now (memory_disk self.now)) }
        ensures possible { IfOk result (λ device. IsImage (memory_disk self.now) (memory_disk device).stable) }
        ensures size { IfOk result (λ device. memory_size device ≡ memory_size self.now) }
        ensures faults { IfOk result (λ device. device.faults ≡ 0) }
    {
        let mut sectors = Vec::with_capacity(self.alloc, self.sectors.len())?;
        for (n, sector) in self.sectors.iter().enumerate() {
            let number = choice.get(n).copied().unwrap_or(0);
            sectors.push(Sector::new(self.alloc, *sector.chosen(number)))?;
        }
        Ok(MemoryDevice {
            alloc: self.alloc,
            sectors,
            faults: 0,
        })
    }
}

impl<A: Allocator> MemoryDevice<A> {
    /// Makes a content the stable one of a sector, and drops what was written to it. It needs no memory, so it can't fail.
    pub fn set(&mut self, n: u32, content: &[u8; 512])
        requires { n < memory_size self.old }
        ensures { self.new ≡ set_at n content.now self.old }
    {
        self.sectors[n as usize].set(content);
    }
}

impl<A: Allocator> Device for MemoryDevice<A> {
    ghost use Rattle.sector_disk.specs.Memory.{memory_facts};

    ghost facts = { memory_facts };

    fn sectors(&self) -> u32 {
        self.sectors.len() as u32
    }

    fn faults(&self) -> u64 {
        self.faults
    }

    /// It needs no memory, and doesn't fail.
    fn read(&mut self, n: u32, to: &mut [u8; 512]) -> Result<(), Fault>
        requires { n < memory_size self.old }
        ensures served { IsMemoryServed self.old self.new result }
        ensures kept { Unit {0} → memory_disk self.new ≡ memory_disk self.old }
        ensures given { Unit {0} → OnOk result (to.new ≡ current (memory_disk self.old) n) }
        ensures works { IsOk result }
    {
        *to = *self.sectors[n as usize].current();
        Ok(())
    }

    /// Lack of memory is a counted fault, and then no content changes.
    fn write(&mut self, n: u32, from: &[u8; 512]) -> Result<(), Fault>
        requires { n < memory_size self.old }
        ensures served { IsMemoryServed self.old self.new result }
        ensures changes { Unit {0} → Changes (wrote n from.now ∷ []) (memory_disk self.old) (memory_disk self.new) result }
        ensures refused { OnErr result (memory_disk self.new ≡ memory_disk self.old) }
    {
        match self.sectors[n as usize].write(from) {
            Ok(()) => Ok(()),
            Err(_) => {
                self.faults = self.faults.saturating_add(1);
                Err(Fault)
            }
        }
    }

    /// It needs no memory, and doesn't fail.
    fn sync(&mut self) -> Result<(), Fault>
        ensures served { IsMemoryServed self.old self.new result }
        ensures changes { Unit {0} → Changes (synced ∷ []) (memory_disk self.old) (memory_disk self.new) result }
        ensures works { IsOk result }
    {
        for sector in self.sectors.iter_mut() {
            sector.sync();
        }
        Ok(())
    }
}
