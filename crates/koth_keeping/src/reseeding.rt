//! A hill with other settings, to which the warriors of one are submitted.

ghost use Rattle.std.specs.Prelude.{◌≡◌, ◌∷◌, ◌++◌, ℕ, List, [], All, None, Some, IfOk, IfSome, OnOk, slice_get};
ghost use Rattle.{koth_hill.specs.Hill.Member, war_types.specs.Warrior.Fits};
ghost use Rattle.war_types.specs.{Warrior.HasNumbersBelow, declared.settings.RawSettings.RawSettings};
ghost use Rattle.{sector_disk.specs.Memory.memory_facts, hill_store.specs.Holding.{IsHolding, is_answer}};
ghost use Rattle.koth_keeping.specs.Reseeding.{source_of, sources_of};

use hill_store::{Reply, Store, sectors_for};
use koth_files::SeenHill;
use koth_hill::Hill;
use redcode_asm::load_text;
use sector_disk::MemoryDevice;
use std::alloc::{AllocError, Allocator};
use war_types::{Settings, Warrior};

/// A hill in memory with these settings, to which the warriors of another are submitted in the order of their entries,
/// each as its titles and its load text say. The error is lack of memory.
pub(crate) fn reseeded<A: Allocator + Copy, B: Allocator>(
    alloc: A,
    hill: &Hill<B>,
    settings: Settings,
) -> Result<SeenHill<A>, AllocError>
    ensures { IfOk result (IsHolding memory_facts settings (sources_of hill.now)) }
{
    let device = MemoryDevice::new(alloc, sectors_for(settings.capacity()))?;
    match Store::create(alloc, device, settings) {
        Ok(store) => resubmitted(alloc, store, hill),
        Err(_) => Err(AllocError),
    }
}

/// Submits the warriors of a hill to a store without warriors.
fn resubmitted<A: Allocator + Copy, B: Allocator>(
    alloc: A,
    mut store: SeenHill<A>,
    hill: &Hill<B>,
) -> Result<SeenHill<A>, AllocError>
    ensures { (s : RawSettings) → IsHolding memory_facts s [] store
        → IfOk result (IsHolding memory_facts s (sources_of hill.now)) }
{
    match submit_members(alloc, &mut store, hill) {
        Ok(()) => Ok(store),
        Err(error) => Err(error),
    }
}

fn submit_members<A: Allocator + Copy, B: Allocator>(
    alloc: A,
    store: &mut SeenHill<A>,
    hill: &Hill<B>,
) -> Result<(), AllocError>
    ensures { (s : RawSettings) (before : List (List ℕ)) → IsHolding memory_facts s before store.old
        → OnOk result (IsHolding memory_facts s (before ++ sources_of hill.now) store.new) }
{
    for place in 0..hill.len() {
        submit_member(alloc, store, hill, place)?;
    }
    Ok(())
}

/// Submits the warrior at a place of a hill, by rising entry, if one is there.
fn submit_member<A: Allocator + Copy, B: Allocator>(
    alloc: A,
    store: &mut SeenHill<A>,
    hill: &Hill<B>,
    place: usize,
) -> Result<(), AllocError>
    ensures { (s : RawSettings) (before : List (List ℕ)) (m : Member) → slice_get hill.now.members place ≡ Some m
        → IsHolding memory_facts s before store.old
        → OnOk result (IsHolding memory_facts s (before ++ source_of hill.now.settings.core m.warrior ∷ []) store.new) }
{
    match warrior_at(hill, place) {
        Some(warrior) => submit_warrior(alloc, store, warrior, hill.settings().core()),
        None => Ok(()),
    }
}

/// The warrior at a place of a hill, by rising entry.
fn warrior_at<'h, A: Allocator>(hill: &'h Hill<A>, place: usize) -> Option<&'h Warrior<A>>
    ensures fits { IfSome result (λ w. Fits hill.now.settings w.now) }
    ensures is { IfSome result (λ w. (m : Member) × (slice_get hill.now.members place ≡ Some m) × (w.now ≡ m.warrior)) }
    ensures none { result ≡ None → slice_get hill.now.members place ≡ None }
{
    match hill.member(place) {
        Some(member) => Some(member.warrior),
        None => None,
    }
}

/// Submits a warrior as its titles and its load text say.
fn submit_warrior<A: Allocator + Copy, B: Allocator>(
    alloc: A,
    store: &mut SeenHill<A>,
    warrior: &Warrior<B>,
    core: u16,
) -> Result<(), AllocError>
    requires { All (HasNumbersBelow core) warrior.now.code }
    ensures { (s : RawSettings) (before : List (List ℕ)) → IsHolding memory_facts s before store.old
        → OnOk result (IsHolding memory_facts s (before ++ source_of core warrior.now ∷ []) store.new) }
{
    let source = titled_source(alloc, warrior, core)?;
    let reply = store.submit(source.as_slice());
    if is_answer(&reply) {
        return Ok(());
    }
    Err(AllocError)
}

/// Whether a submission was answered: the warrior was placed, or fell, or its source was refused.
fn is_answer(reply: &Reply) -> bool
    ensures { result ≡ is_answer reply.now }
{
    match *reply {
        Reply::Placed { .. } | Reply::Fell { .. } | Reply::Refused(_) => true,
        Reply::Memory | Reply::Worn | Reply::Disk | Reply::Reopen => false,
    }
}

/// The titles of a warrior and its load text, for a core of this size.
fn titled_source<A: Allocator + Copy, B: Allocator>(
    alloc: A,
    warrior: &Warrior<B>,
    core: u16,
) -> Result<Vec<u8, A>, AllocError>
    requires { All (HasNumbersBelow core) warrior.now.code }
    ensures { IfOk result (λ text. text.items ≡ source_of core warrior.now) }
{
    let code = load_text(alloc, warrior, core)?;
    let mut text = Vec::from_slice(alloc, b";name ")?;
    text.extend_from_slice(warrior.name().bytes())?;
    text.extend_from_slice(b"\n;author ")?;
    text.extend_from_slice(warrior.author().bytes())?;
    text.extend_from_slice(b"\n")?;
    text.extend_from_slice(code.as_slice())?;
    Ok(text)
}
