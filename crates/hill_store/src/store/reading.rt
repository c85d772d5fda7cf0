//! What is asked of a store without changing it: what a source would be answered, and a copy on another device.

ghost use Rattle.std.specs.Prelude.{◌≡◌, ◌⊎◌, ◌-◌, ◌^◌, ◌<◌, false, IfErr, IfOk, OnOk};
ghost use Rattle.{war_types.specs.Warrior.Fits, koth_hill.specs.Kept.verdict_kept, sector_disk.specs.{Image.Images, Served.IsKept}};
ghost use Rattle.{hill_images.specs.{Opening.{HoldsNone, IsUnfaulted}, Stands.Reads}, hill_store.specs.{Opened.IsNotTaken, Read.{IsCopied, IsTried}}};

use crate::reply::Reply;
use crate::store::{Store, assembled, refused};
use hill_images::{Refusal, sectors_for, write_hill};
use koth_hill::Verdict;
use redcode_asm::Unassembled;
use sector_disk::Device;
use std::alloc::Allocator;
use war_types::Warrior;

impl<D: Device, A: Allocator + Copy> Store<D, A> {
    /// What a submission of this source would be answered, in this number of steps if there is one: its verdict if it
    /// would be placed or fall, and else the reply. Nothing is submitted. `None` if the assembly spends the steps.
    pub fn try_source(
        &mut self,
        source: &[u8],
        steps: Option<u64>,
    ) -> Option<Result<Verdict, Reply>>
        ensures tried { IsTried D.facts steps self.old source.now result }
        ensures unchanged { self.new ≡ self.old }
    {
        if self.reopen {
            return Some(Err(Reply::Reopen));
        }
        match assembled(self.alloc, source, self.hill.settings(), steps) {
            Ok(warrior) => Some(self.judged(&warrior)),
            Err(Unassembled::Refused(fault)) => Some(Err(refused(fault))),
            Err(Unassembled::StepsSpent) => None,
        }
    }

    /// The verdict on a warrior; `Worn` if no more can be judged.
    fn judged(&mut self, warrior: &Warrior<A>) -> Result<Verdict, Reply>
        requires is_open { self.old.reopen ≡ false }
        requires fits { Fits self.old.hill.settings warrior.now }
        ensures verdict { IfOk result (λ judged. judged ≡ verdict_kept self.old.hill warrior.now) }
        ensures more { OnOk result (self.old.generation < 2 ^ 64 - 1) }
        ensures worn { IfErr result (λ reply. (reply ≡ Reply.Worn) × (self.old.generation ≡ 2 ^ 64 - 1)) }
        ensures unchanged { self.new ≡ self.old }
    {
        if self.header.generation() == u64::MAX {
            return Err(Reply::Worn);
        }
        Ok(self.hill.judge(&mut self.arena, warrior))
    }
}

impl<D: Device, A: Allocator> Store<D, A> {
    /// Writes the hill to another device that holds none: the slots of its warriors, with the results of their matches,
    /// and only when these have reached the disk the header, with the same generation.
    ///
    /// The refusals, in their order: `TooSmall` if that device has fewer sectors than the hill needs, `Disk`,
    /// `Occupied` if a sector holds a valid header of either format, and `Disk` while the slots and then the header are
    /// written. It needs no memory.
    pub fn copy_to<N: Device>(&self, new: &mut N) -> Result<(), Refusal>
        ensures kept { IsKept N.facts new.old new.new }
        ensures faultless { OnOk result (N.facts.faults new.new ≡ N.facts.faults new.old) }
        ensures copied { OnOk result (IsCopied N.facts self.now.hill self.now.generation new.old new.new) }
        ensures refused { IfErr result (IsNotTaken N.facts new.old self.now.hill new.new) }
        ensures unfaulted { IfErr result (IsUnfaulted N.facts new.old new.new) }
        ensures fresh { N.facts.lawful new.old → Images (N.facts.disk new.old) HoldsNone
            → Images (N.facts.disk new.new)
            (λ image. HoldsNone image ⊎ Reads (N.facts.size new.new) image self.now.hill) }
    {
        if new.sectors() < sectors_for(self.header.settings().capacity()) {
            return Err(Refusal::TooSmall);
        }
        write_hill(new, &self.header, &self.hill)
    }
}
