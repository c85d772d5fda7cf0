//! The entries of the next header, and the results of the warrior that it names last.

ghost use Rattle.std.specs.Prelude.{◌≡◌, ℕ, ◌+◌, ◌-◌, ◌^◌, ◌≤◌, ◌<◌, ◌++◌, [], ◌∷◌, All, length, true};
ghost use Rattle.{koth_hill.specs.Step.is_entry, hill_bytes.specs.Layout.{IsHeaderParts, SlotIsFree}};
ghost use Rattle.hill_images.specs.Places.{wins_of, results_by_slot, kept_entries, header_placed, header_passed, has_slot, CanGrow};

use hill_bytes::{Header, HeaderEntry, RESULTS, Wins};
use koth_match::Bout;
use std::marker::Model;

/// Entries that a header has room for.
const PLACES: usize = 20;

const NONE: HeaderEntry = HeaderEntry {
    entry: 0,
    slot: 0,
    age: 0,
};

/// Up to twenty entries.
#[derive(Drop)]
struct Entries {
    places: [HeaderEntry; PLACES],
    count: usize,
}

impl Model for Entries {
    ghost use Rattle.std.specs.Prelude.{List, take, ◌≤◌};
    ghost use Rattle.hill_bytes.specs.declared.header.HeaderEntry.{HeaderEntry};

    ghost Value = { List HeaderEntry };

    ghost view = { λ e. take e.count e.places };

    ghost invariant = { λ e. e.count ≤ 20 };
}

impl Entries {
    fn new() -> Entries
        ensures { result ≡ [] }
    {
        Entries {
            places: [NONE; PLACES],
            count: 0,
        }
    }

    fn push(&mut self, entry: HeaderEntry)
        requires { length self.old < 20 }
        ensures { self.new ≡ self.old ++ entry ∷ [] }
    {
        self.places[self.count] = entry;
        self.count += 1;
    }

    /// Adds an entry, one older, unless it is the one that falls.
    fn push_kept(&mut self, e: &HeaderEntry, falls: Option<u64>)
        requires room { length self.old < 20 }
        requires age { e.now.age < 2 ^ 64 - 1 }
        ensures kept { self.new ≡ self.old ++ kept_entries falls (e.now ∷ []) }
    {
        if is_entry(e.entry, falls) {
            return;
        }
        self.push(HeaderEntry {
            entry: e.entry,
            slot: e.slot,
            age: e.age + 1,
        });
    }

    fn as_slice(&self) -> &[HeaderEntry]
        ensures { result.now ≡ self.now }
    {
        &self.places[..self.count]
    }
}

/// The header after a warrior that stays, in a slot that was free: the one that falls goes, and the others are one
/// older.
pub fn header_placed(header: &Header, falls: Option<u64>, slot: u8) -> Header
    requires { IsHeaderParts (header_placed header.now falls slot) }
    ensures { result ≡ header_placed header.now falls slot }
{
    let entry = header.counter() + 1;
    let mut entries = kept_entries(header.entries(), falls);
    entries.push(HeaderEntry {
        entry,
        slot,
        age: 0,
    });
    let generation = header.generation() + 1;
    Header::new(generation, *header.settings(), entry, entries.as_slice()).unwrap()
}

/// The header after a warrior that falls.
pub fn header_passed(header: &Header) -> Header
    requires { IsHeaderParts (header_passed header.now) }
    ensures { result ≡ header_passed header.now }
{
    let generation = header.generation() + 1;
    let counter = header.counter() + 1;
    Header::new(generation, *header.settings(), counter, header.entries()).unwrap()
}

/// The entries that stay, one older each.
fn kept_entries(entries: &[HeaderEntry], falls: Option<u64>) -> Entries
    requires few { length entries.now ≤ 20 }
    requires ages { CanGrow entries.now }
    ensures { result ≡ kept_entries falls entries.now }
{
    let mut kept = Entries::new();
    for e in entries {
        kept.push_kept(e, falls);
    }
    kept
}

fn is_entry(entry: u64, falls: Option<u64>) -> bool
    ensures { result ≡ is_entry entry falls }
{
    match falls {
        Some(fallen) => entry == fallen,
        None => false,
    }
}

/// The lowest slot that none of these entries has.
pub fn free_slot(entries: &[HeaderEntry]) -> u8
    requires { length entries.now ≤ 20 }
    ensures free { SlotIsFree result entries.now }
    ensures within { result ≤ length entries.now }
    ensures lowest { (k : ℕ) → k < result → has_slot k entries.now ≡ true }
{
    let count = entries.len() as u8;
    for slot in 0..count {
        if !has_slot(slot, entries) {
            return slot;
        }
    }
    count
}

/// Whether one of these entries has the slot.
fn has_slot(slot: u8, entries: &[HeaderEntry]) -> bool
    ensures { result ≡ has_slot slot entries.now }
{
    for e in entries {
        if e.slot == slot {
            return true;
        }
    }
    false
}

/// The results of a challenger's matches with the warriors of these entries, by their slots. The places of the other
/// slots are zero.
pub fn results_by_slot(entries: &[HeaderEntry], bouts: &[Bout]) -> [Wins; RESULTS]
    requires slots { All (λ e. e.slot ≤ 20) entries.now }
    requires each { length bouts.now ≡ length entries.now }
    ensures value { result ≡ results_by_slot entries.now bouts.now }
    ensures len { length result ≡ 21 }
{
    let mut results = [Wins::NONE; RESULTS];
    for (i, e) in entries.iter().enumerate() {
        results[usize::from(e.slot)] = wins_of(bouts[i]);
    }
    results
}

fn wins_of(bout: Bout) -> Wins
    ensures { result ≡ wins_of bout }
{
    Wins {
        older: bout.older_wins,
        younger: bout.younger_wins,
    }
}
