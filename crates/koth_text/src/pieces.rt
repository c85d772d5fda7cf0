//! A text as a list of its pieces.

ghost use Rattle.std.specs.Prelude.{◌≡◌, ◌++◌, OnOk};
ghost use Rattle.koth_text.specs.Pieces.{piece_text, pieces_text};

use crate::cells::number;
use crate::columns::{Alignment, put_padded};
use crate::escape::put_escaped;
use crate::lines::put_number;
use std::alloc::{AllocError, Allocator};

/// A piece of a text.
#[derive(Clone, Copy)]
pub enum Piece<'t> {
    /// These bytes.
    Text(&'t [u8]),
    /// What others wrote, as it stands in a page.
    Escaped(&'t [u8]),
    /// A number in decimal digits.
    Number(u64),
    /// A number at the right of this many places, or a longer one as it is.
    Right(usize, u64),
    /// These bytes at one side of this many places; more of them are as they are.
    Padded(Alignment, usize, &'t [u8]),
}

/// Puts these pieces, one after the other. The error is lack of memory.
pub fn put_all<A: Allocator>(text: &mut Vec<u8, A>, pieces: &[Piece<'_>]) -> Result<(), AllocError>
    ensures { OnOk result (text.new.items ≡ text.old.items ++ pieces_text pieces.now) }
{
    let mut rest = pieces;
    while let [piece, behind @ ..] = rest {
        put_piece(text, *piece)?;
        rest = behind;
    }
    Ok(())
}

fn put_piece<A: Allocator>(text: &mut Vec<u8, A>, piece: Piece<'_>) -> Result<(), AllocError>
    ensures { OnOk result (text.new.items ≡ text.old.items ++ piece_text piece.entry) }
{
    match piece {
        Piece::Text(bytes) => text.extend_from_slice(bytes),
        Piece::Escaped(bytes) => put_escaped(text, bytes),
        Piece::Number(value) => put_number(text, value),
        Piece::Right(places, value) => {
            put_padded(text, Alignment::Right, places, number(value).as_slice())
        }
        Piece::Padded(side, places, bytes) => put_padded(text, side, places, bytes),
    }
}
