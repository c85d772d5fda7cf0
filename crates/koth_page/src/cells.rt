//! Cells of a table.

ghost use Rattle.std.specs.Prelude.{◌≡◌, ◌+◌, ◌≤◌, ◌++◌, length, codes, decimal, OnOk};
ghost use Rattle.koth_page.specs.Cells.{name_cell, name_heading, number_cell, number_cells};

use koth_text::Piece::{Escaped, Text};
use koth_text::{Line, put_all, put_line};
use std::alloc::{AllocError, Allocator};

#[tactic(auto, unfolding(crate::specs::Cells::number_cell))]
pub(crate) fn number_cell(number: u64) -> Line
    ensures { result ≡ number_cell number }
{
    let mut line = Line::new();
    line.put(b"<td>");
    line.put_number(number);
    line.put(b"</td>");
    line
}

pub(crate) fn put_number_cells<A: Allocator>(
    page: &mut Vec<u8, A>,
    numbers: &[u64],
) -> Result<(), AllocError>
    ensures { OnOk result (page.new.items ≡ page.old.items ++ number_cells numbers.now) }
{
    for number in numbers {
        put_line(page, number_cell(*number))?;
    }
    Ok(())
}

#[tactic(auto, unfolding(crate::specs::Cells::name_cell))]
pub(crate) fn put_name_cell<A: Allocator>(
    page: &mut Vec<u8, A>,
    name: &[u8],
) -> Result<(), AllocError>
    ensures { OnOk result (page.new.items ≡ page.old.items ++ name_cell name.now) }
{
    put_all(
        page,
        &[Text(b"<td class=\"name\">"), Escaped(name), Text(b"</td>")],
    )
}

/// Puts the name of the warrior of a row, of which it is the heading.
#[tactic(auto, unfolding(crate::specs::Cells::name_heading))]
pub(crate) fn put_name_heading<A: Allocator>(
    page: &mut Vec<u8, A>,
    name: &[u8],
) -> Result<(), AllocError>
    ensures { OnOk result (page.new.items ≡ page.old.items ++ name_heading name.now) }
{
    put_all(
        page,
        &[
            Text(b"<th scope=\"row\" class=\"name\">"),
            Escaped(name),
            Text(b"</th>"),
        ],
    )
}
