//! The slot: the sectors that hold a warrior.

ghost use Rattle.std.specs.Prelude.{◌≡◌, ◌↔◌, ◌+◌, ◌*◌, ◌<◌, ◌≤◌, ◌++◌, ℕ, List, [], All, IsTrue, length, drop, get_or, replicate, Some, IfOk, IfSome};
ghost use Rattle.war_types.specs.{declared.instr.Instr.Instr, Bytes.instr_bytes, Title.IsTitle, Warrior.{WarriorParts, HasNumbersBelow, Fits}};
ghost use Rattle.hill_bytes.specs.Layout.{new_layout, code_places, code_room, fields_bytes, filled, slot_bytes, result_places, results_in, wins_in, with_code, FitRounds, IsTitled, IsSlot, IsSlotRead};

use crate::header::reader::u16_at;
use crate::header::writer::SectorWriter;
use crate::wins::Wins;
use byteorder::{BigEndian, ByteOrder};
use std::alloc::{AllocError, Allocator};
use war_types::{Instr, Settings, Title, Warrior};

/// Sectors of a slot.
pub const SECTORS: usize = 4;

/// The last of them. Those before it are full of code.
pub(crate) const LAST: usize = SECTORS - 1;

/// Instructions that stand in a sector full of code.
const FULL_PLACES: usize = 64;

/// Instructions that stand in the last sector.
const LAST_PLACES: usize = 8;

/// The offset of its fields.
pub(crate) const FIELDS_AT: usize = 288;

/// Results that stand in it: one for each slot that an older warrior may have.
pub const RESULTS: usize = 21;

/// The offset of the results.
const RESULTS_AT: usize = 388;

/// The sectors of a slot: the first three hold instructions 0 to 191, 64 each, the last instructions 192 to 199, the number of all, the
/// start, the two names, and the results by the older warrior's slot.
#[derive(Debug, Drop)]
pub struct Slot {
    /// In their order on the device.
    pub sectors: [[u8; 512]; SECTORS],
}

impl Slot {
    /// Sectors of zeros. It needs no memory.
    pub fn blank() -> Slot
        ensures { result.sectors ≡ replicate (new_layout.full + 1) (replicate 512 0) }
    {
        Slot {
            sectors: [[0; 512]; SECTORS],
        }
    }

    /// The sectors that hold a warrior and the results of its matches, by the older warrior's slot. It needs no memory.
    pub fn encode<A: Allocator>(warrior: &Warrior<A>, results: &[Wins; RESULTS]) -> Slot
        ensures value { result.sectors ≡ slot_bytes new_layout warrior.now results.now }
        ensures titled { IsTitled warrior.now }
    {
        let mut sectors = [[0; 512]; SECTORS];
        for n in 0..LAST {
            sectors[n] = full_sector(warrior.code(), n);
        }
        sectors[LAST] = last_sector(warrior, results);
        Slot { sectors }
    }

    /// The warrior that these sectors hold; `None` if they are no slot with a warrior of these settings.
    pub fn decode<A: Allocator + Copy>(
        &self,
        alloc: A,
        settings: &Settings,
    ) -> Result<Option<Warrior<A>>, AllocError>
        ensures { IfOk result (IsSlotRead new_layout settings.now self.now.sectors) }
    {
        let results = self.results();
        if !fit_rounds(settings.rounds(), &results) {
            return Ok(None);
        }
        let Some(warrior) = self.read(alloc, settings)? else {
            return Ok(None);
        };
        let again = Slot::encode(&warrior, &results);
        if again.sectors == self.sectors {
            Ok(Some(warrior))
        } else {
            Ok(None)
        }
    }

    /// The results that stand in the last sector, by the older warrior's slot. It needs no memory.
    pub fn results(&self) -> [Wins; RESULTS]
        ensures value { result ≡ results_in new_layout self.now.sectors }
        ensures len { length result ≡ 21 }
    {
        let mut results = [Wins::NONE; RESULTS];
        for place in 0..RESULTS {
            results[place] = wins_at(&self.sectors[LAST], RESULTS_AT + 4 * place);
        }
        results
    }

    /// Reads the fields. Sectors that hold no warrior may give any that fits, or none.
    fn read<A: Allocator + Copy>(
        &self,
        alloc: A,
        settings: &Settings,
    ) -> Result<Option<Warrior<A>>, AllocError>
        ensures fits { IfOk result (λ read. IfSome read (Fits settings.now)) }
        ensures every { IfOk result (λ read. (w : WarriorParts) → IsSlot new_layout settings.now self.now.sectors w → read ≡ Some w) }
    {
        let core = settings.core();
        let last = &self.sectors[LAST];
        let Some(name) = title_at(last, FIELDS_AT + 4) else {
            return Ok(None);
        };
        let Some(author) = title_at(last, FIELDS_AT + 52) else {
            return Ok(None);
        };
        let len = usize::from(u16_at(last, FIELDS_AT));
        if len > FULL_PLACES * LAST + LAST_PLACES {
            return Ok(None);
        }
        let code = self.read_code(alloc, len, core)?;
        let start = u16_at(last, FIELDS_AT + 2);
        Ok(Warrior::new(code, start, name, author, settings))
    }

    /// Reads `len` instructions, or those before the first place that holds none.
    fn read_code<A: Allocator + Copy>(
        &self,
        alloc: A,
        len: usize,
        core: u16,
    ) -> Result<Vec<Instr, A>, AllocError>
        requires { len ≤ code_room new_layout }
        ensures { IfOk result (λ code. (is : List Instr) (behind : List ℕ) → length is ≡ len → All (HasNumbersBelow core) is
            → self.now.sectors ≡ with_code new_layout is behind → code.items ≡ is) }
    {
        let mut code = Vec::new(alloc);
        for place in 0..len {
            match self.instr_at(place, core) {
                Some(instr) => code.push(instr)?,
                None => return Ok(code),
            }
        }
        Ok(code)
    }

    /// The instruction of a place, counted from 0 through all sectors.
    fn instr_at(&self, place: usize, core: u16) -> Option<Instr>
        requires { place < code_room new_layout }
        ensures { (is : List Instr) (behind : List ℕ) (other : Instr) → place < length is → HasNumbersBelow core (get_or is place other)
            → self.now.sectors ≡ with_code new_layout is behind → result ≡ Some (get_or is place other) }
    {
        read_instr(
            &self.sectors[place / FULL_PLACES],
            8 * (place % FULL_PLACES),
            core,
        )
    }
}

/// The instructions from number `from` on; none if there are no more.
fn code_from(code: &[Instr], from: usize) -> &[Instr]
    ensures { result.now ≡ drop from code.now }
{
    &code[code.len().min(from)..]
}

/// The n-th of the sectors that are full of code.
fn full_sector(code: &[Instr], n: usize) -> [u8; 512]
    requires { n < new_layout.full }
    ensures { result ≡ code_places 64 (drop (64 * n) code.now) }
{
    let mut sector = SectorWriter::new();
    put_code(&mut sector, code_from(code, FULL_PLACES * n), FULL_PLACES);
    sector.into_sector()
}

/// The last sector of a slot.
fn last_sector<A: Allocator>(warrior: &Warrior<A>, results: &[Wins; RESULTS]) -> [u8; 512]
    ensures value { result ≡ code_places new_layout.last (drop (64 * new_layout.full) warrior.now.code) ++ (replicate new_layout.zeros 0 ++ fields_bytes warrior.now results.now) }
    ensures titled { IsTitled warrior.now }
{
    let mut sector = SectorWriter::new();
    put_code(
        &mut sector,
        code_from(warrior.code(), FULL_PLACES * LAST),
        LAST_PLACES,
    );
    sector.put_zeros(FIELDS_AT - 8 * LAST_PLACES);
    sector.put_u16(warrior.code().len() as u16);
    sector.put_u16(warrior.start());
    put_title(&mut sector, warrior.name());
    put_title(&mut sector, warrior.author());
    put_results(&mut sector, results);
    sector.put_zeros(40);
    sector.into_sector()
}

/// The result at a place of a sector.
fn wins_at(sector: &[u8; 512], at: usize) -> Wins
    requires { at + 4 ≤ 512 }
    ensures { result ≡ wins_in (drop at sector.now) }
{
    Wins {
        older: BigEndian::read_u16(&sector[at..]),
        younger: BigEndian::read_u16(&sector[at + 2..]),
    }
}

/// Whether no result has more rounds won than a match has rounds.
fn fit_rounds(rounds: u16, results: &[Wins]) -> bool
    ensures { IsTrue result ↔ FitRounds rounds results.now }
{
    results.iter().all(|wins| u32::from(wins.older) + u32::from(wins.younger) <= u32::from(rounds))
}

fn read_instr(sector: &[u8; 512], at: usize, core: u16) -> Option<Instr>
    requires { at + 8 ≤ 512 }
    ensures { (i : Instr) (rest : List ℕ) → HasNumbersBelow core i → drop at sector.now ≡ instr_bytes i ++ rest → result ≡ Some i }
{
    let mut bytes = [0; 8];
    bytes.copy_from_slice(&sector[at..at + 8]);
    Instr::from_bytes(&bytes, core)
}

fn title_at(sector: &[u8; 512], at: usize) -> Option<Title>
    requires { at + 48 ≤ 512 }
    ensures { (title rest : List ℕ) → IsTitle title → drop at sector.now ≡ filled 48 title ++ rest → result ≡ Some title }
{
    let mut bytes = [0; 48];
    bytes.copy_from_slice(&sector[at..at + 48]);
    Title::read(&bytes)
}

/// Writes instructions to `places` places, and zeros to the places that are left.
fn put_code(sector: &mut SectorWriter, code: &[Instr], places: usize)
    requires few { places ≤ 64 }
    requires room { length sector.old + 8 * places ≤ 512 }
    ensures value { sector.new ≡ sector.old ++ code_places places code.now }
    ensures len { length sector.new ≡ length sector.old + 8 * places }
{
    for place in 0..places {
        match code.get(place) {
            Some(instr) => sector.put(&instr.to_bytes()),
            None => sector.put_zeros(8),
        }
    }
}

/// Writes results one after the other.
fn put_results(sector: &mut SectorWriter, results: &[Wins])
    requires { length sector.old + 4 * length results.now ≤ 512 }
    ensures value { sector.new ≡ sector.old ++ result_places results.now }
    ensures len { length sector.new ≡ length sector.old + 4 * length results.now }
{
    for wins in results {
        sector.put_u16(wins.older);
        sector.put_u16(wins.younger);
    }
}

/// Writes a title to its 48 bytes.
fn put_title(sector: &mut SectorWriter, title: &Title)
    requires { length sector.old + 48 ≤ 512 }
    ensures value { sector.new ≡ sector.old ++ filled 48 title.now }
    ensures len { length sector.new ≡ length sector.old + 48 }
    ensures title { IsTitle title.now }
{
    let bytes = title.bytes();
    sector.put(bytes);
    sector.put_zeros(48 - bytes.len());
}
