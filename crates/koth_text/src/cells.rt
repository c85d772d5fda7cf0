//! Rows of cells.

ghost use Rattle.std.specs.Prelude.{◌≡◌, ◌≤◌, ◌++◌, ◌∷◌, [], length, decimal, IfOk, OnOk};
ghost use Rattle.koth_text.specs.Columns.{cell_at};

use crate::line::Line;
use std::alloc::{AllocError, Allocator};
use std::marker::Model;
use war_types::Title;

/// The cells of a row, from the left to the right.
#[derive(Drop)]
pub struct Cells<A: Allocator> {
    cells: Vec<Line, A>,
}

impl<A: Allocator> Model for Cells<A> {
    ghost use Rattle.std.specs.Prelude.{ℕ, List};

    ghost Value = { List (List ℕ) };

    ghost view = { λ c. c.cells.items };
}

impl<A: Allocator> Cells<A> {
    /// A row of these cells. The error is lack of memory.
    pub fn of<const N: usize>(alloc: A, cells: [Line; N]) -> Result<Cells<A>, AllocError>
        ensures { IfOk result (λ row. row ≡ cells.entry) }
    {
        Ok(Cells {
            cells: Vec::from_array(alloc, cells)?,
        })
    }

    /// Puts a cell at the right of the others. The error is lack of memory.
    pub fn push(&mut self, cell: Line) -> Result<(), AllocError>
        ensures { OnOk result (self.new ≡ self.old ++ cell ∷ []) }
    {
        self.cells.push(cell)?;
        Ok(())
    }

    pub(crate) fn len(&self) -> usize
        ensures { result ≡ length self.now }
    {
        self.cells.len()
    }

    /// The cell in a column, which is empty past the last.
    pub(crate) fn cell(&self, column: usize) -> &[u8]
        ensures { result.now ≡ cell_at self.now column }
    {
        match self.cells.get(column) {
            Some(cell) => cell.as_slice(),
            None => b"",
        }
    }
}

/// A cell with a number.
pub fn number(value: u64) -> Line
    ensures value { result ≡ decimal value }
    ensures len { length result ≤ 20 }
{
    let mut cell = Line::new();
    cell.put_number(value);
    cell
}

/// A cell with a word of at most 48 bytes.
pub fn word(word: &[u8]) -> Line
    requires { length word.now ≤ 48 }
    ensures { result ≡ word.now }
{
    let mut cell = Line::new();
    cell.put(word);
    cell
}

/// A cell with a name.
pub fn named(title: &Title) -> Line
    ensures { result ≡ title.now }
{
    word(title.bytes())
}
