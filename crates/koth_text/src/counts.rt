//! The counts of one match.

ghost use Rattle.std.specs.Prelude.{◌≡◌, ◌≤◌, ◌∷◌, [], IfOk};
ghost use Rattle.koth_text.specs.{Bout.{bout_view, rounds_cells, rounds_heading}, Tally.points_of};

use crate::cells::{Cells, named, number, word};
use crate::columns::{Alignment, columns_text};
use crate::tally::Tally;
use koth_match::Bout;
use std::alloc::{AllocError, Allocator};
use war_types::{Title, Warrior};

/// The sides of the three columns of rounds, of the points, and of the two of names after them.
pub const SIDES: [Alignment; 6] = [
    Alignment::Right,
    Alignment::Right,
    Alignment::Right,
    Alignment::Right,
    Alignment::Left,
    Alignment::Left,
];

/// The counts of a match with headings: a line for the older warrior and then a line for the younger, each with the rounds that it won,
/// lost and tied, its points, its name and its author. The error is lack of memory.
pub fn bout_view<A: Allocator + Copy, B: Allocator, C: Allocator>(
    alloc: A,
    older: &Warrior<B>,
    younger: &Warrior<C>,
    bout: Bout,
) -> Result<Vec<u8, A>, AllocError>
    ensures { IfOk result (λ text. text.items ≡ bout_view older.now younger.now bout) }
{
    let mut lines = Vec::new(alloc);
    lines.push(heading(alloc)?)?;
    lines.push(side_of(alloc, older, Tally::of_older(bout))?)?;
    lines.push(side_of(alloc, younger, Tally::of_younger(bout))?)?;
    columns_text(alloc, &SIDES, lines.as_slice())
}

fn side_of<A: Allocator, B: Allocator>(
    alloc: A,
    warrior: &Warrior<B>,
    rounds: Tally,
) -> Result<Cells<A>, AllocError>
    requires { points_of rounds ≤ u64.MAX }
    ensures { IfOk result (λ cells. cells ≡ rounds_cells warrior.now.name warrior.now.author rounds) }
{
    cells_of(alloc, warrior.name(), warrior.author(), rounds)
}

/// The headings of rounds, points and names. The error is lack of memory.
pub fn heading<A: Allocator>(alloc: A) -> Result<Cells<A>, AllocError>
    ensures { IfOk result (λ cells. cells ≡ rounds_heading) }
{
    Cells::of(
        alloc,
        [
            word(b"won"),
            word(b"lost"),
            word(b"tied"),
            word(b"points"),
            word(b"warrior"),
            word(b"author"),
        ],
    )
}

/// The cells of a warrior with its rounds and their points. The error is lack of memory.
pub fn cells_of<A: Allocator>(
    alloc: A,
    name: &Title,
    author: &Title,
    rounds: Tally,
) -> Result<Cells<A>, AllocError>
    requires { points_of rounds ≤ u64.MAX }
    ensures { IfOk result (λ cells. cells ≡ rounds_cells name.now author.now rounds) }
{
    Cells::of(
        alloc,
        [
            number(rounds.won),
            number(rounds.lost),
            number(rounds.tied),
            number(rounds.points()),
            named(name),
            named(author),
        ],
    )
}
