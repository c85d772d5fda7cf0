//! The core: its cells, and the addresses of those that were written.

ghost use Rattle.std.specs.Prelude.{◌≡◌, ◌+◌, ◌<◌, ◌≤◌, List, length, replicate, slice_set, IfOk};
ghost use Rattle.{war_types.specs.Warrior.HasNumbersBelow, mars_words.specs.{Numbers.with_number, Code.field_of}, mars_operations.specs.Cells.{IsCore, blank, cell}};

use mars_words::{Field, Size, Word};
use std::alloc::{AllocError, Allocator};
use std::marker::Model;
use war_types::{Instr, Mode, Modifier, Op};

/// What a cell holds before anything is loaded into it: `DAT.F $0,$0`.
const BLANK: Instr = Instr {
    op: Op::Dat,
    modifier: Modifier::F,
    a_mode: Mode::Direct,
    a: 0,
    b_mode: Mode::Direct,
    b: 0,
};

/// The cells of a core. Those that were written since it was cleared are listed, so that clearing touches no others.
#[derive(Drop)]
pub struct Core<A: Allocator> {
    cells: Vec<u64, A>,
    /// Its first `count` elements are the addresses that were written, each once.
    written: Vec<u16, A>,
    count: usize,
}

impl<A: Allocator> Model for Core<A> {
    ghost use Rattle.{std.specs.Prelude.{List, length}, war_types.specs.declared.instr.Instr.Instr, mars_operations.specs.Marks.{core_in, AreCells}};

    ghost Value = { List Instr };

    ghost view = { λ c. core_in c.cells.items };

    ghost invariant = { λ c. AreCells c.cells.items c.written.items c.count };
}

impl<A: Allocator + Copy> Core<A> {
    /// A core of `size` blank cells.
    pub fn new(alloc: A, size: u16) -> Result<Core<A>, AllocError>
        ensures { IfOk result (λ c. c ≡ replicate size blank) }
    {
        let cells = Vec::from_elem(alloc, Word::of(BLANK).bits(), usize::from(size))?;
        let written = Vec::from_elem(alloc, 0, usize::from(size))?;
        Ok(Core {
            cells,
            written,
            count: 0,
        })
    }
}

impl<A: Allocator> Core<A> {
    /// What the cell at an address holds.
    #[inline(always)]
    pub fn cell(&self, size: Size, at: u32) -> Word
        requires core { IsCore size self.now }
        requires address { at < size }
        ensures value { result.instr ≡ cell self.now at }
        ensures numbers { HasNumbersBelow size result.instr }
    {
        Word::in_bits(self.cells[at as usize])
    }

    /// Puts an instruction into the cell at an address. Where both have the mark, the word is stored as it is.
    #[inline(always)]
    pub fn put(&mut self, size: Size, at: u32, word: Word)
        requires core { IsCore size self.old }
        requires address { at < size }
        requires numbers { HasNumbersBelow size word.instr }
        ensures value { self.new ≡ slice_set self.old at word.instr }
        ensures core { IsCore size self.new }
    {
        let before = Word::in_bits(self.cells[at as usize]);
        if word.is_marked() && before.is_marked() {
            self.cells[at as usize] = word.bits();
        } else {
            self.put_marked(size, at, word);
        }
    }

    /// The same, and marks the cell.
    #[inline(always)]
    fn put_marked(&mut self, size: Size, at: u32, word: Word)
        requires core { IsCore size self.old }
        requires address { at < size }
        requires numbers { HasNumbersBelow size word.instr }
        ensures value { self.new ≡ slice_set self.old at word.instr }
        ensures core { IsCore size self.new }
    {
        let before = Word::in_bits(self.cells[at as usize]);
        self.cells[at as usize] = word.marked().bits();
        if !before.is_marked() {
            list(self.written.as_mut_slice(), &mut self.count, at as u16);
        }
    }

    /// Puts a number into the cell at an address, and leaves the rest of it.
    #[inline(always)]
    pub fn put_number(&mut self, size: Size, at: u32, field: Field, n: u32)
        requires core { IsCore size self.old }
        requires address { at < size }
        requires number { n < size }
        ensures value { self.new ≡ slice_set self.old at (with_number (field_of field) n (cell self.old at)) }
        ensures core { IsCore size self.new }
    {
        self.put(size, at, self.cell(size, at).with_number(field, n));
    }

    /// Blanks the cells that were written.
    pub fn clear(&mut self)
        ensures { self.new ≡ replicate (length self.old) blank }
    {
        let blank = Word::of(BLANK).bits();
        for place in 0..self.count {
            self.cells[usize::from(self.written[place])] = blank;
        }
        self.count = 0;
    }
}

/// Puts an address after the others of a list.
#[inline(always)]
fn list(written: &mut [u16], count: &mut usize, at: u16)
    requires room { count.old < length written.old }
    ensures written { written.new ≡ slice_set written.old count.old at }
    ensures count { count.new ≡ count.old + 1 }
{
    written[*count] = at;
    *count += 1;
}
