//! The store.

ghost use Rattle.std.specs.Prelude.{◌≡◌, ◌⊎◌, ◌↔◌, ℕ, ◌+◌, ◌-◌, ◌^◌, ◌<◌, ◌≤◌, true, false, List, [], ◌∷◌, Option, Err, None, IfOk, IfErr, IfSome, OnErr, MatchResult};
ghost use Rattle.war_types.specs.{Warrior.{WarriorParts, Fits}, declared.settings.RawSettings.RawSettings};
ghost use Rattle.redcode_asm.specs.{Assembly.assembly, Within.AssemblesWithin};
ghost use Rattle.{koth_hill.specs.{Table.table, Kept.{AreTrue, AreTrueBefore, IsKept as IsKeptHill, IsUntrue, hill_in, table_kept, verdict_kept}, Rows.rows_parts}, sector_disk.specs.Served.IsKept};
ghost use Rattle.{hill_bytes.specs.Layout.{old_layout, sectors_for}, hill_images.specs.Opening.{IsNotOpened, IsUnfaulted}};
ghost use Rattle.hill_store.specs.{Kept.IsAnew, Runs.{Runs, texts}, Opened.{IsCreated, IsMigrated, IsNotCreated, IsNotMigrated, IsOpened}};
ghost use Rattle.hill_store.specs.{Holding.{Holds, HoldsIn, HoldsMore, IsDecided, IsHolding, IsMoved, IsUndecided, IsUnmoved}, Seen.{Seen, IsAnswered, IsCut, IsLeft, MayBeSpent, Submits, SubmitsWithin, Challenges, IsRefusal}};

mod reading;
mod steps;

use crate::migration::{MigrateFault, MigrateSide};
use crate::reply::Reply;
use hill_bytes::{Format, Header};
use hill_images::{
    Refusal, commit, free_slot, header_passed, header_placed, place, recover, results_by_slot,
    sectors_for, write_first, write_hill,
};
use koth_hill::{Hill, Row, Untrue, Verdict};
use mars_core::Arena;
use redcode_asm::{Unassembled, assemble, assemble_within};
use sector_disk::{Device, Fault};
use std::alloc::{AllocError, Allocator};
use std::marker::Model;
use war_types::{AsmFault, AsmKind, Settings, Warrior};

/// A hill on a device.
#[derive(Drop)]
pub struct Store<D: Device, A: Allocator> {
    alloc: A,
    device: D,
    header: Header,
    hill: Hill<A>,
    arena: Arena<A>,
    reopen: bool,
}

impl<D: Device, A: Allocator> Model for Store<D, A> {
    ghost use Rattle.{hill_images.specs.Named.IsSound, hill_store.specs.Seen.{Seen, seen}};

    ghost Value = { Seen D };

    ghost view = { λ s. seen s.device s.hill s.header.generation s.reopen };

    ghost invariant = { λ s. IsSound D.facts s.device s.header s.hill s.arena.settings s.reopen };
}

impl<D: Device, A: Allocator + Copy> Store<D, A> {
    /// Creates a hill without warriors on a device that holds none.
    ///
    /// The refusals, in their order: `TooSmall` if the device has fewer sectors than the hill needs, `Memory` (all
    /// memory is taken here), `Disk`, `Occupied` if a sector holds a valid header of either format, and `Disk` while
    /// the first header is written. The device comes back with each.
    pub fn create(alloc: A, mut device: D, settings: Settings) -> Result<Store<D, A>, (D, Refusal)>
        ensures kept { MatchResult result (λ store. IsKept D.facts device store.device)
            (λ refused. IsKept D.facts device refused.0) }
        ensures small { D.facts.size device < sectors_for settings.capacity → result ≡ Err (device, Refusal.TooSmall) }
        ensures created { IfOk result (IsCreated D.facts device settings) }
        ensures holds { IfOk result (λ store. D.facts.lawful device → IsHolding D.facts settings [] store) }
        ensures refused { IfErr result (λ refused. IsNotCreated D.facts device settings refused.0 refused.1) }
        ensures unfaulted { IfErr result (λ refused. IsUnfaulted D.facts device refused.0 refused.1) }
    {
        if device.sectors() < sectors_for(settings.capacity()) {
            return Err((device, Refusal::TooSmall));
        }
        let hill = match Hill::new(alloc, settings) {
            Ok(hill) => hill,
            Err(AllocError) => return Err((device, Refusal::Memory)),
        };
        let arena = match Arena::new(alloc, &settings) {
            Ok(arena) => arena,
            Err(AllocError) => return Err((device, Refusal::Memory)),
        };
        match write_first(&mut device, settings) {
            Ok(header) => Ok(Store {
                alloc,
                device,
                header,
                hill,
                arena,
                reopen: false,
            }),
            Err(refusal) => Err((device, refusal)),
        }
    }

    /// Opens the hill that a device holds. Nothing is written.
    ///
    /// The refusals, in their order: `TooSmall` if the device has fewer than two sectors, `Disk`, `NotAHill`,
    /// `TooSmall` for the capacity that the header names, and while the slots are read `Disk`, or `Damaged` if the
    /// bytes are no slot. `Memory` comes whenever there is no memory. The device comes back with each.
    pub fn open(alloc: A, mut device: D) -> Result<Store<D, A>, (D, Refusal)>
        ensures kept { MatchResult result (λ store. IsKept D.facts device store.device)
            (λ refused. IsKept D.facts device refused.0) }
        ensures small { D.facts.size device < 2 → result ≡ Err (device, Refusal.TooSmall) }
        ensures opened { IfOk result (IsOpened D.facts device) }
        ensures refused { IfErr result (λ refused. IsNotOpened D.facts device refused.0 refused.1) }
        ensures unfaulted { IfErr result (λ refused. IsUnfaulted D.facts device refused.0 refused.1) }
        ensures holds { (s : RawSettings) (sources : List (List ℕ)) (more : Option (List ℕ)) → D.facts.lawful device
            → Holds (D.facts.size device) (D.facts.disk device) s sources more
            → MatchResult result (IsDecided D.facts s sources more)
            (λ refused. IsUndecided D.facts s sources more refused.0 refused.1) }
    {
        match recover(alloc, &mut device, Format::New) {
            Ok(found) => Ok(Store {
                alloc,
                device,
                header: found.header,
                hill: found.hill,
                arena: found.arena,
                reopen: false,
            }),
            Err(refusal) => Err((device, refusal)),
        }
    }

    /// Moves the hill that a device holds in the old format to another device, in the new one. Nothing is written to
    /// the old device.
    ///
    /// The refusals, in their order: those of the old device, as `open` has them; then those of the new one, `TooSmall`
    /// if it has fewer sectors than the hill needs, `Disk`, `Occupied` if a sector holds a valid header of either
    /// format, and `Disk` while the slots of the warriors and then the header are written. All memory is taken before
    /// the new device is looked at. Both devices come back with each.
    pub fn migrate<O: Device>(
        alloc: A,
        mut old: O,
        mut new: D,
    ) -> Result<(O, Store<D, A>), (O, D, MigrateFault)>
        ensures kept { MatchResult result (λ moved. IsKept O.facts old moved.0 × IsKept D.facts new moved.1.device)
            (λ refused. IsKept O.facts old refused.0 × IsKept D.facts new refused.1) }
        ensures small { O.facts.size old < 2
            → result ≡ Err (old, new, record { side = MigrateSide.Old; refusal = Refusal.TooSmall }) }
        ensures migrated { IfOk result (λ moved. IsMigrated O.facts D.facts old moved.0 new moved.1) }
        ensures refused { IfErr result (λ refused. IsNotMigrated O.facts D.facts old refused.0 new refused.1
            refused.2) }
        ensures unfaulted { IfErr result (λ refused. IsUnfaulted O.facts old refused.0 refused.2.refusal
            × IsUnfaulted D.facts new refused.1 refused.2.refusal) }
        ensures holds { (s : RawSettings) (sources : List (List ℕ)) (more : Option (List ℕ)) → O.facts.lawful old
            → D.facts.lawful new
            → HoldsIn old_layout (O.facts.size old) (O.facts.disk old) s sources more
            → MatchResult result (λ moved. IsMoved O.facts D.facts s sources more moved.0 moved.1)
            (λ refused. IsUnmoved O.facts D.facts s sources more refused.0 new refused.1 refused.2) }
    {
        let found = match recover(alloc, &mut old, Format::Old) {
            Ok(found) => found,
            Err(refusal) => return Err((old, new, fault_of(MigrateSide::Old, refusal))),
        };
        if new.sectors() < sectors_for(found.header.settings().capacity()) {
            let fault = fault_of(MigrateSide::New, Refusal::TooSmall);
            return Err((old, new, fault));
        }
        match write_hill(&mut new, &found.header, &found.hill) {
            Ok(()) => {
                let store = Store {
                    alloc,
                    device: new,
                    header: found.header,
                    hill: found.hill,
                    arena: found.arena,
                    reopen: false,
                };
                Ok((old, store))
            }
            Err(refusal) => Err((old, new, fault_of(MigrateSide::New, refusal))),
        }
    }

    /// Submits a source. The reply to a warrior that is placed or falls comes once that is durable.
    pub fn submit(&mut self, source: &[u8]) -> Reply
        ensures submits { Submits D.facts self.old source.now result self.new }
        ensures anew { AreTrue self.old.hill → IsAnew self.old.hill source.now result self.new.hill }
        ensures holds { (s : RawSettings) (before : List (List ℕ)) → IsHolding D.facts s before self.old
            → HoldsMore D.facts s before (source.now ∷ []) (result ∷ []) self.new }
        ensures kept { IsKept D.facts self.old.device self.new.device }
        ensures worn { self.old.generation ≡ 2 ^ 64 - 1 → self.new ≡ self.old }
    {
        match self.submit_within(source, None) {
            Some(reply) => reply,
            None => unreachable!(),
        }
    }

    /// Submits a source as `submit` does, in this number of steps if there is one. If the assembly spends them, nothing
    /// is submitted, and there is no reply: so it will be with the same source again.
    pub fn submit_within(&mut self, source: &[u8], steps: Option<u64>) -> Option<Reply>
        ensures submits { SubmitsWithin D.facts steps self.old source.now result self.new }
        ensures anew { AreTrue self.old.hill
            → IfSome result (λ reply. IsAnew self.old.hill source.now reply self.new.hill) }
        ensures holds { (s : RawSettings) (before : List (List ℕ)) → IsHolding D.facts s before self.old
            → IfSome result (λ reply. HoldsMore D.facts s before (source.now ∷ []) (reply ∷ []) self.new) }
        ensures kept { IsKept D.facts self.old.device self.new.device }
        ensures worn { self.old.generation ≡ 2 ^ 64 - 1 → self.new ≡ self.old }
    {
        self.reply_to(source, steps)
    }

    /// Submits these sources one after another, up to the first that is answered `Disk`, and answers the replies in
    /// their order. `Err` means that nothing was submitted.
    pub fn submit_all(&mut self, sources: &[&[u8]]) -> Result<Vec<Reply, A>, AllocError>
        ensures runs { IfOk result (λ replies. Runs D.facts self.old (texts sources.now) replies.items self.new) }
        ensures holds { (s : RawSettings) (before : List (List ℕ)) → IsHolding D.facts s before self.old
            → IfOk result (λ replies. HoldsMore D.facts s before (texts sources.now) replies.items self.new) }
        ensures memory { OnErr result (self.new ≡ self.old) }
        ensures kept { IsKept D.facts self.old.device self.new.device }
        ensures worn { self.old.generation ≡ 2 ^ 64 - 1 → self.new ≡ self.old }
    {
        let mut replies = Vec::with_capacity(self.alloc, sources.len())?;
        for source in sources {
            let reply = self.submit(source);
            let _ = replies.push(reply);
            if reply.is_disk() {
                return Ok(replies);
            }
        }
        Ok(replies)
    }

    /// Begins with a source, in this number of steps if there is one, and settles what is begun.
    fn reply_to(&mut self, source: &[u8], steps: Option<u64>) -> Option<Reply>
        ensures submits { SubmitsWithin D.facts steps self.old source.now result self.new }
        ensures hill { IsKeptHill self.old.hill }
        ensures kept { IsKept D.facts self.old.device self.new.device }
        ensures worn { self.old.generation ≡ 2 ^ 64 - 1 → self.new ≡ self.old }
    {
        match self.begin(source, steps) {
            Some(Ok(submission)) => Some(self.settle(submission)),
            Some(Err(reply)) => Some(reply),
            None => None,
        }
    }

    /// Makes a warrior that stays durable, and then takes it in.
    fn admit(&mut self, warrior: Warrior<A>, judged: &Verdict) -> Reply
        requires is_open { self.old.reopen ≡ false }
        requires fits { Fits self.old.hill.settings warrior }
        requires more { self.old.generation < 2 ^ 64 - 1 }
        requires verdict { judged.now ≡ verdict_kept self.old.hill warrior }
        requires stays { judged.now.stays ≡ true }
        ensures challenges { Challenges D.facts self.old warrior result self.new }
        ensures kept { IsKept D.facts self.old.device self.new.device }
    {
        let slot = free_slot(self.header.entries());
        let header = header_placed(&self.header, judged.falls, slot);
        let results = results_by_slot(self.header.entries(), judged.bouts());
        match place(&mut self.device, &header, slot, &warrior, &results) {
            Ok(()) => {
                self.hill.admit(warrior, judged);
                self.header = header;
                Reply::judged(judged)
            }
            Err(Fault) => fail(&mut self.reopen),
        }
    }

    /// Makes it durable that a warrior falls, and then counts it.
    fn pass(&mut self, judged: &Verdict) -> Reply
        requires is_open { self.old.reopen ≡ false }
        requires more { self.old.generation < 2 ^ 64 - 1 }
        requires entry { judged.now.entry ≡ self.old.hill.counter + 1 }
        requires falls { judged.now.stays ≡ false }
        ensures challenges { (w : WarriorParts) → judged.now ≡ verdict_kept self.old.hill w
            → Challenges D.facts self.old w result self.new }
        ensures kept { IsKept D.facts self.old.device self.new.device }
    {
        let header = header_passed(&self.header);
        match commit(&mut self.device, &header) {
            Ok(()) => {
                self.hill.pass(judged);
                self.header = header;
                Reply::judged(judged)
            }
            Err(Fault) => fail(&mut self.reopen),
        }
    }

    /// The table, highest score first, among equals the earlier entry first, by the results that are kept: no match is
    /// fought. After `Disk` it is that of the hill as it was before that submission.
    pub fn rows(&self) -> Result<Vec<Row<'_>, A>, AllocError>
        ensures kept { IfOk result (λ rows. rows_parts rows.items ≡ table_kept self.now.hill) }
        ensures table { AreTrue self.now.hill
            → IfOk result (λ rows. rows_parts rows.items ≡ table (hill_in self.now.hill)) }
    {
        self.hill.rows(self.alloc)
    }

    /// The hill, with the results that it keeps.
    pub fn hill(&self) -> &Hill<A>
        ensures { result.now ≡ self.now.hill }
    {
        &self.hill
    }

    /// Whether each result that is kept is the one that the match gives when it is fought again. It needs no memory.
    pub fn audit(&mut self) -> bool
        ensures value { (result ≡ true → AreTrue self.old.hill) × (AreTrue self.old.hill → result ≡ true) }
        ensures unchanged { self.new ≡ self.old }
    {
        self.hill.audit(&mut self.arena)
    }

    /// The first kept result that is not the one that the match gives when it is fought again, by the younger warrior's
    /// entry and then the older's; `None` if there is no such result. It needs no memory.
    pub fn first_untrue(&mut self) -> Option<Untrue>
        ensures none { result ≡ None → AreTrue self.old.hill }
        ensures some { IfSome result (λ u. IsUntrue self.old.hill u.older u.younger u.kept u.fought) }
        ensures first { IfSome result (λ u. AreTrueBefore self.old.hill u.older u.younger) }
        ensures unchanged { self.new ≡ self.old }
    {
        self.hill.first_untrue(&mut self.arena)
    }
}

impl<D: Device, A: Allocator> Store<D, A> {
    /// The device, as it is. It needs no memory.
    pub fn close(self) -> D
        ensures { result ≡ self.device }
    {
        self.device
    }
}

/// The warrior of a source, in this number of steps if there is one.
fn assembled<A: Allocator + Copy>(
    alloc: A,
    source: &[u8],
    settings: &Settings,
    steps: Option<u64>,
) -> Result<Warrior<A>, Unassembled>
    ensures assembled { AssemblesWithin (MayBeSpent steps source.now) result (assembly settings.now source.now) }
    ensures fits { IfOk result (Fits settings.now) }
{
    match steps {
        Some(steps) => assemble_within(alloc, source, settings, steps),
        None => match assemble(alloc, source, settings) {
            Ok(warrior) => Ok(warrior),
            Err(fault) => Err(Unassembled::Refused(fault)),
        },
    }
}

fn fault_of(side: MigrateSide, refusal: Refusal) -> MigrateFault
    ensures side { result.side ≡ side }
    ensures refusal { result.refusal ≡ refusal }
{
    MigrateFault { side, refusal }
}

/// The one way into the state in which every submission is answered `Reopen`.
fn fail(reopen: &mut bool) -> Reply
    ensures reply { result ≡ Reply.Disk }
    ensures broken { reopen.new ≡ true }
{
    *reopen = true;
    Reply::Disk
}

fn refused(fault: AsmFault) -> Reply
    ensures { IsRefusal fault result }
{
    if matches!(fault.kind, AsmKind::Memory) {
        Reply::Memory
    } else {
        Reply::Refused(fault)
    }
}
