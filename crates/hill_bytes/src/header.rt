//! The header: all of a hill but its warriors, and the slots that hold them.

ghost use Rattle.std.specs.{Prelude.{◌≡◌, ◌↔◌, ◌+◌, ◌^◌, ◌≤◌, ◌<◌, ◌++◌, ℕ, List, All, IsTrue, length, take, drop}, Option.SomeIff};
ghost use Rattle.{war_types.specs.{declared.settings.RawSettings.RawSettings, Settings.AreSettings}, hill_bytes.specs.declared.header.HeaderEntry.HeaderEntry};
ghost use Rattle.hill_bytes.specs.Layout.{HeaderParts, IsHeader, IsHeaderParts, IsEntry, EntriesRise, SlotIsFree, SlotsDiffer, Layout, header_parts, header_bytes, layout_of, new_layout};
ghost use Rattle.hill_bytes.specs.Layout.{old_layout, settings_bytes, limit_bytes, stored_limit, entry_bytes, entry_places, IsDecoded};

pub(crate) mod reader;
pub(crate) mod writer;

use crate::format::Format;
use reader::{u8_at, u16_at, u32_at, u64_at};
use std::marker::Model;
use war_types::{RawSettings, Settings};
use writer::SectorWriter;

/// Warriors that a header may name.
const PLACES: usize = 20;

/// A warrior on the hill, as the header names it.
#[derive(Clone, Copy, Debug, PartialEq, Eq)]
pub struct HeaderEntry {
    /// The number of its entry.
    pub entry: u64,
    /// The slot that holds its code and its names.
    pub slot: u8,
    /// The number of warriors that have stayed on the hill since it entered.
    pub age: u64,
}

/// A header: the number of headers before it, and all of a hill but its warriors, with the slots that hold these.
#[derive(Debug, Drop)]
pub struct Header {
    generation: u64,
    settings: Settings,
    counter: u64,
    places: [HeaderEntry; PLACES],
    count: usize,
}

impl Model for Header {
    ghost use Rattle.std.specs.Prelude.{◌≤◌, take};
    ghost use Rattle.hill_bytes.specs.Layout.{HeaderParts, IsHeaderParts, header_parts};

    ghost Value = { HeaderParts };

    ghost view = { λ h. header_parts h.generation h.settings h.counter (take h.count h.places) };

    ghost invariant = { λ h. IsHeaderParts (header_parts h.generation h.settings h.counter (take h.count h.places)) × (h.count ≤ 20) };
}

impl Header {
    /// The header of these parts. There are at most as many entries as the settings' capacity. They rise from at least 1 to at most the
    /// counter, their slots are distinct and at most the capacity, and no age is above the counter less the entry. The counter is at most
    /// the generation. `None` for others. It needs no memory.
    pub fn new(
        generation: u64,
        settings: Settings,
        counter: u64,
        entries: &[HeaderEntry],
    ) -> Option<Header>
        ensures { let parts = header_parts generation settings counter entries.now in SomeIff result (IsHeaderParts parts) parts }
    {
        if counter > generation || !are_entries(settings.capacity(), counter, entries) {
            return None;
        }
        let mut places = [NO_ENTRY; PLACES];
        places[..entries.len()].copy_from_slice(entries);
        Some(Header {
            generation,
            settings,
            counter,
            places,
            count: entries.len(),
        })
    }

    /// The number of headers that were written before it, at least the number of warriors that were judged.
    pub fn generation(&self) -> u64
        ensures value { result ≡ self.now.generation }
        ensures header { IsHeaderParts self.now }
    {
        self.generation
    }

    /// The hill's settings.
    pub fn settings(&self) -> &Settings
        ensures value { result.now ≡ self.now.settings }
        ensures header { IsHeaderParts self.now }
    {
        &self.settings
    }

    /// The number of warriors that were ever judged and then admitted or passed.
    pub fn counter(&self) -> u64
        ensures value { result ≡ self.now.counter }
        ensures header { IsHeaderParts self.now }
    {
        self.counter
    }

    /// The warriors on the hill, by rising entry.
    pub fn entries(&self) -> &[HeaderEntry]
        ensures value { result.now ≡ self.now.entries }
        ensures header { IsHeaderParts self.now }
    {
        &self.places[..self.count]
    }
}

/// Fills a place without an entry.
const NO_ENTRY: HeaderEntry = HeaderEntry {
    entry: 0,
    slot: 0,
    age: 0,
};

fn are_entries(capacity: u16, counter: u64, entries: &[HeaderEntry]) -> bool
    requires { capacity ≤ 20 }
    ensures { IsTrue result ↔ ((length entries.now ≤ capacity) × All (IsEntry capacity counter) entries.now
        × EntriesRise 0 entries.now × SlotsDiffer entries.now) }
{
    entries.len() <= usize::from(capacity)
        && entries.iter().all(|e| is_entry(capacity, counter, e))
        && entries_rise(entries)
        && slots_differ(entries)
}

fn is_entry(capacity: u16, counter: u64, entry: &HeaderEntry) -> bool
    ensures { IsTrue result ↔ IsEntry capacity counter entry.now }
{
    entry.entry <= counter
        && u16::from(entry.slot) <= capacity
        && entry.age <= counter - entry.entry
}

fn entries_rise(entries: &[HeaderEntry]) -> bool
    ensures { IsTrue result ↔ EntriesRise 0 entries.now }
{
    let mut before = 0;
    for entry in entries {
        if entry.entry <= before {
            return false;
        }
        before = entry.entry;
    }
    true
}

fn slots_differ(entries: &[HeaderEntry]) -> bool
    ensures { IsTrue result ↔ SlotsDiffer entries.now }
{
    for (i, entry) in entries.iter().enumerate() {
        if !slot_is_free(entry.slot, &entries[i + 1..]) {
            return false;
        }
    }
    true
}

fn slot_is_free(slot: u8, entries: &[HeaderEntry]) -> bool
    ensures { IsTrue result ↔ SlotIsFree slot entries.now }
{
    for entry in entries {
        if entry.slot == slot {
            return false;
        }
    }
    true
}

/// The 512 bytes of a header. It needs no memory.
pub fn encode_header(header: &Header) -> [u8; 512]
    ensures { result ≡ header_bytes new_layout header.now }
{
    encode_in(Format::New, header)
}

/// The 512 bytes of a header in the old format; `None` if its warriors may have more than 100 instructions. It needs no memory.
pub fn encode_old_header(header: &Header) -> Option<[u8; 512]>
    ensures { SomeIff result (header.now.settings.length ≤ 100) (header_bytes old_layout header.now) }
{
    if header.settings().length() > Format::Old.code_room() {
        return None;
    }
    Some(encode_in(Format::Old, header))
}

/// The 512 bytes of a header in a format, whether or not it has room for the longest warriors. It needs no memory.
pub fn encode_in(format: Format, header: &Header) -> [u8; 512]
    ensures { result ≡ header_bytes (layout_of format) header.now }
{
    let mut sector = SectorWriter::new();
    sector.put(&format.magic());
    sector.put_u64(header.generation());
    put_settings(&mut sector, header.settings());
    put_limits(&mut sector, header.settings());
    sector.put_u64(header.counter());
    sector.put_u16(header.entries().len() as u16);
    put_entries(&mut sector, header.entries());
    sector.put_zeros(122);
    sector.into_sector()
}

fn put_settings(sector: &mut SectorWriter, settings: &Settings)
    requires { length sector.old ≡ 16 }
    ensures value { sector.new ≡ sector.old ++ settings_bytes settings.now }
    ensures len { length sector.new ≡ 36 }
{
    sector.put_u16(settings.core());
    sector.put_u32(settings.cycles());
    sector.put_u16(settings.processes());
    sector.put_u16(settings.length());
    sector.put_u16(settings.distance());
    sector.put_u16(settings.rounds());
    sector.put_u32(settings.seed());
    sector.put_u16(settings.capacity());
}

fn put_limits(sector: &mut SectorWriter, settings: &Settings)
    requires { length sector.old ≡ 36 }
    ensures value { sector.new ≡ sector.old ++ limit_bytes settings.now }
    ensures len { length sector.new ≡ 40 }
{
    sector.put_u16(stored_limit(settings.core(), settings.read_limit()));
    sector.put_u16(stored_limit(settings.core(), settings.write_limit()));
}

/// A limit as it is stored: 0 stands for the core's size.
fn stored_limit(core: u16, limit: u16) -> u16
    ensures { result ≡ stored_limit core limit }
{
    if limit == core { 0 } else { limit }
}

fn put_entry(sector: &mut SectorWriter, entry: &HeaderEntry)
    requires { length sector.old + 17 ≤ 512 }
    ensures value { sector.new ≡ sector.old ++ entry_bytes entry.now }
    ensures len { length sector.new ≡ length sector.old + 17 }
{
    sector.put_u64(entry.entry);
    sector.put_u8(entry.slot);
    sector.put_u64(entry.age);
}

fn put_entries(sector: &mut SectorWriter, entries: &[HeaderEntry])
    requires { length sector.old ≡ 50 }
    ensures value { sector.new ≡ sector.old ++ entry_places 20 entries.now }
    ensures len { length sector.new ≡ 390 }
{
    for place in 0..PLACES {
        match entries.get(place) {
            Some(entry) => put_entry(sector, entry),
            None => sector.put_zeros(17),
        }
    }
}

/// The header whose bytes these are; `None` if they are no header's. It needs no memory.
pub fn decode_header(bytes: &[u8; 512]) -> Option<Header>
    ensures { IsDecoded new_layout bytes.now result }
{
    decode_in(Format::New, bytes)
}

/// The header whose bytes these are in the old format; `None` if they are no header's. It needs no memory.
pub fn decode_old_header(bytes: &[u8; 512]) -> Option<Header>
    ensures { IsDecoded old_layout bytes.now result }
{
    decode_in(Format::Old, bytes)
}

/// The header whose bytes these are in a format; `None` if they are no header's. It needs no memory.
pub fn decode_in(format: Format, bytes: &[u8; 512]) -> Option<Header>
    ensures { IsDecoded (layout_of format) bytes.now result }
{
    let header = read_header(bytes)?;
    if header.settings().length() <= format.code_room() && encode_in(format, &header) == *bytes {
        Some(header)
    } else {
        None
    }
}

/// Reads the fields, which have the same offsets in each format. Bytes that are no header's may give any header, or none.
fn read_header(bytes: &[u8; 512]) -> Option<Header>
    ensures { (layout : Layout) (h : HeaderParts) → IsHeader layout bytes.now h → result ≡ Some h }
{
    let settings = read_settings(bytes)?;
    let count = usize::from(u16_at(bytes, 48));
    if count > PLACES {
        return None;
    }
    let places = read_entries(bytes, count);
    Header::new(
        u64_at(bytes, 8),
        settings,
        u64_at(bytes, 40),
        &places[..count],
    )
}

fn read_settings(bytes: &[u8; 512]) -> Option<Settings>
    ensures { (s : RawSettings) (rest : List ℕ) → AreSettings s → drop 16 bytes.now ≡ settings_bytes s ++ limit_bytes s ++ rest → result ≡ Some s }
{
    let raw = RawSettings {
        core: u32::from(u16_at(bytes, 16)),
        cycles: u32_at(bytes, 18),
        processes: u32::from(u16_at(bytes, 22)),
        length: u32::from(u16_at(bytes, 24)),
        distance: u32::from(u16_at(bytes, 26)),
        rounds: u32::from(u16_at(bytes, 28)),
        seed: u32_at(bytes, 30),
        capacity: u32::from(u16_at(bytes, 34)),
        read_limit: u32::from(u16_at(bytes, 36)),
        write_limit: u32::from(u16_at(bytes, 38)),
    };
    Settings::new(raw).ok()
}

fn read_entries(bytes: &[u8; 512], count: usize) -> [HeaderEntry; 20]
    requires { count ≤ 20 }
    ensures { (es : List HeaderEntry) (rest : List ℕ) → length es ≡ count → All (λ e. (e.entry < 2 ^ 64) × (e.age < 2 ^ 64)) es
        → drop 50 bytes.now ≡ entry_places 20 es ++ rest → take count result ≡ es }
{
    let mut places = [NO_ENTRY; PLACES];
    for i in 0..count {
        places[i] = read_entry(bytes, 50 + 17 * i);
    }
    places
}

fn read_entry(bytes: &[u8; 512], at: usize) -> HeaderEntry
    requires { at + 17 ≤ 512 }
    ensures { (e : HeaderEntry) (rest : List ℕ) → e.entry < 2 ^ 64 → e.age < 2 ^ 64 → drop at bytes.now ≡ entry_bytes e ++ rest → result ≡ e }
{
    HeaderEntry {
        entry: u64_at(bytes, at),
        slot: u8_at(bytes, at + 8),
        age: u64_at(bytes, at + 9),
    }
}
