//! How the warriors of a hill are read from their slots, with the results of their matches.

ghost use Rattle.std.specs.Prelude.{◌≡◌, ◌+◌, ◌<◌, ◌≤◌, All, IfErr, IfOk, OnOk, get_or, length, map, take};
ghost use Rattle.{war_types.specs.Warrior.Fits, sector_disk.specs.Served.IsKept, hill_bytes.specs.Layout.{FitRounds, code_room, layout_of, sectors_in}};
ghost use Rattle.hill_images.specs.{Stands.{bout_of, no_wins}, Reading.{refusal_of, HillNotRead, HillRead, IsDecodedAs, ResultsRead, WarriorNotRead, WarriorRead}};
ghost use Rattle.hill_images.specs.declared.reading.Unread.{Unread};

use crate::refusal::Refusal;
use crate::slots::read_slot;
use hill_bytes::{Format, Header, HeaderEntry, RESULTS, Wins};
use koth_hill::Hill;
use koth_match::Bout;
use sector_disk::{Device, Fault};
use std::alloc::{AllocError, Allocator};
use war_types::{Settings, Warrior};

/// Why a warrior was not read, and so the hill that it is on.
#[derive(Clone, Copy, PartialEq, Eq)]
pub(crate) enum Unread {
    /// The device failed.
    Disk,
    /// There was no memory.
    Memory,
    /// A slot holds no warrior that fits the settings.
    Damaged,
}

pub(crate) fn refusal_of(unread: Unread) -> Refusal
    ensures { result ≡ refusal_of unread }
{
    match unread {
        Unread::Disk => Refusal::Disk,
        Unread::Memory => Refusal::Memory,
        Unread::Damaged => Refusal::Damaged,
    }
}

/// Others that a warrior on a hill may be younger than, and one more.
const OTHERS: usize = 20;

const NO_ROUNDS: Bout = Bout {
    older_wins: 0,
    younger_wins: 0,
    ties: 0,
};

/// Reads the hill of a header, with the results that are in the slots.
pub(crate) fn read_hill<D: Device, A: Allocator + Copy>(
    alloc: A,
    device: &mut D,
    format: Format,
    header: &Header,
) -> Result<Hill<A>, Unread>
    requires size { sectors_in (layout_of format) header.now.settings.capacity ≤ D.facts.size device.old }
    requires room { D.facts.lawful device.old → header.now.settings.length ≤ code_room (layout_of format) }
    ensures kept { IsKept D.facts device.old device.new }
    ensures same { D.facts.lawful device.old → D.facts.disk device.new ≡ D.facts.disk device.old }
    ensures faultless { OnOk result (D.facts.faults device.new ≡ D.facts.faults device.old) }
    ensures read { IfOk result (HillRead (layout_of format) D.facts device.old header.now) }
    ensures unread { IfErr result (HillNotRead (layout_of format) D.facts device.old device.new header.now) }
    ensures unfaulted { IfErr result (λ unread. unread ≡ Unread.Damaged
        → D.facts.faults device.new ≡ D.facts.faults device.old) }
{
    let settings = *header.settings();
    let entries = header.entries();
    let mut hill = match Hill::with_counter(alloc, settings, header.counter()) {
        Ok(hill) => hill,
        Err(AllocError) => return Err(Unread::Memory),
    };
    for (i, e) in entries.iter().enumerate() {
        let held = match read_warrior(alloc, device, format, e.slot, &settings) {
            Ok(held) => held,
            Err(unread) => return Err(unread),
        };
        let bouts = bouts_with(&held.results, &entries[..i], settings.rounds());
        hill.put_back(e.entry, e.age, held.warrior, &bouts[..i]);
    }
    // Tells the proof that this is a hill.
    let _count = hill.len();
    Ok(hill)
}

/// The results with the warriors of these entries, which are by their slots: rounds that no one won were ties.
fn bouts_with(results: &[Wins; RESULTS], older: &[HeaderEntry], rounds: u16) -> [Bout; OTHERS]
    requires few { length older.now ≤ 20 }
    requires slots { All (λ e. e.slot ≤ 20) older.now }
    requires rounds { FitRounds rounds results.now }
    ensures value { take (length older.now) result
        ≡ map (λ e. bout_of rounds (get_or results.now e.slot no_wins)) older.now }
    ensures len { length result ≡ 20 }
{
    let mut bouts = [NO_ROUNDS; OTHERS];
    for (i, e) in older.iter().enumerate() {
        bouts[i] = bout_of(results[usize::from(e.slot)], rounds);
    }
    bouts
}

fn bout_of(wins: Wins, rounds: u16) -> Bout
    requires { wins.older + wins.younger ≤ rounds }
    ensures { result ≡ bout_of rounds wins }
{
    Bout {
        older_wins: wins.older,
        younger_wins: wins.younger,
        ties: rounds - (wins.older + wins.younger),
    }
}

/// What a slot holds.
#[derive(Drop)]
pub(crate) struct Held<A: Allocator> {
    warrior: Warrior<A>,
    /// By the slots of older warriors.
    results: [Wins; RESULTS],
}

/// Reads the warrior of a slot, and its results.
pub(crate) fn read_warrior<D: Device, A: Allocator + Copy>(
    alloc: A,
    device: &mut D,
    format: Format,
    slot: u8,
    settings: &Settings,
) -> Result<Held<A>, Unread>
    requires size { sectors_in (layout_of format) slot ≤ D.facts.size device.old }
    requires room { D.facts.lawful device.old → settings.now.length ≤ code_room (layout_of format) }
    ensures kept { IsKept D.facts device.old device.new }
    ensures same { D.facts.lawful device.old → D.facts.disk device.new ≡ D.facts.disk device.old }
    ensures faultless { OnOk result (D.facts.faults device.new ≡ D.facts.faults device.old) }
    ensures fits { IfOk result (λ held. Fits settings.now held.warrior) }
    ensures rounds { IfOk result (λ held. FitRounds settings.now.rounds held.results) }
    ensures len { IfOk result (λ held. length held.results ≡ 21) }
    ensures read { IfOk result (λ held. WarriorRead
        (layout_of format) D.facts device.old settings.now slot held.warrior) }
    ensures results { IfOk result (λ held. ResultsRead (layout_of format) D.facts device.old slot held.results) }
    ensures unread { IfErr result (WarriorNotRead (layout_of format) D.facts device.old device.new settings.now slot) }
    ensures unfaulted { IfErr result (λ unread. unread ≡ Unread.Damaged
        → D.facts.faults device.new ≡ D.facts.faults device.old) }
{
    let content = match read_slot(device, format, slot) {
        Ok(content) => content,
        Err(Fault) => return Err(Unread::Disk),
    };
    match decoded(content.decode(alloc, settings)) {
        Ok(warrior) => Ok(Held {
            warrior,
            results: content.results(),
        }),
        Err(unread) => Err(unread),
    }
}

fn decoded<A: Allocator>(
    found: Result<Option<Warrior<A>>, AllocError>,
) -> Result<Warrior<A>, Unread>
    ensures { IsDecodedAs found result }
{
    match found {
        Ok(Some(warrior)) => Ok(warrior),
        Ok(None) => Err(Unread::Damaged),
        Err(AllocError) => Err(Unread::Memory),
    }
}
