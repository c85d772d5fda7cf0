//! A source that goes through devices while it is read.

ghost use Rattle.std.specs.Prelude.{◌≡◌};
ghost use Rattle.sector_disk.specs.File.{IsFileServed};

use hill_look::Source;
use sector_disk::{Device, Fault};
use std::alloc::Allocator;
use std::marker::Model;

/// What becomes of the reads after the last of the devices.
#[derive(Clone, Copy, PartialEq, Eq)]
pub(crate) enum Goes {
    /// They read the last one.
    Once,
    /// They read the first one again.
    Round,
}

/// The sectors of the first device for `every` reads, then for as many those of the next one, and so on. One read
/// fails, if any: it counts them from 1 on. It is lawful in no contract.
#[derive(Drop)]
pub(crate) struct Passing<D: Device + Drop, A: Allocator + Copy> {
    pub devices: Vec<D, A>,
    pub every: u64,
    pub goes: Goes,
    pub fails_at: u64,
    pub reads: u64,
    pub sectors: u32,
    pub faults: u64,
}

impl<D: Device + Drop, A: Allocator + Copy> Model for Passing<D, A> {
    ghost use Rattle.sector_disk.specs.File.{FileState};

    ghost Value = { FileState };

    ghost view = { λ source. record { sectors = source.sectors; faults = source.faults } };
}

impl<D: Device + Drop, A: Allocator + Copy> Passing<D, A> {
    /// Counts the fault of a read that failed.
    fn counted(&mut self, answer: Result<(), Fault>) -> Result<(), Fault>
        ensures { IsFileServed self.old self.new result }
    {
        match answer {
            Ok(()) => Ok(()),
            Err(Fault) => {
                self.faults = self.faults.saturating_add(1);
                Err(Fault)
            }
        }
    }

    /// What the next read gives.
    fn read_next(&mut self, n: u32, to: &mut [u8; 512]) -> Result<(), Fault>
        ensures { self.new ≡ self.old }
    {
        let place = place_at(self.reads, self.every, self.goes, self.devices.len());
        self.reads = self.reads.saturating_add(1);
        if self.reads == self.fails_at {
            return Err(Fault);
        }
        match self.devices.get_mut(place) {
            Some(device) => read_within(device, n, to),
            None => Err(Fault),
        }
    }
}

impl<D: Device + Drop, A: Allocator + Copy> Source for Passing<D, A> {
    ghost use Rattle.sector_disk.specs.File.{file_facts};

    ghost facts = { file_facts };

    fn sectors(&self) -> u32 {
        self.sectors
    }

    fn read(&mut self, n: u32, to: &mut [u8; 512]) -> Result<(), Fault> {
        let answer = self.read_next(n, to);
        self.counted(answer)
    }
}

/// Which of `count` devices is read after this number of reads.
fn place_at(reads: u64, every: u64, goes: Goes, count: usize) -> usize {
    let (Some(turn), Some(last)) = (reads.checked_div(every), count.checked_sub(1)) else {
        return 0;
    };
    match goes {
        Goes::Once => usize::try_from(turn).unwrap_or(last).min(last),
        Goes::Round => usize::try_from(turn % (last as u64 + 1)).unwrap_or(last),
    }
}

fn read_within<D: Device>(device: &mut D, n: u32, to: &mut [u8; 512]) -> Result<(), Fault> {
    if n >= device.sectors() {
        return Err(Fault);
    }
    device.read(n, to)
}
