//! The shade of a cell: by how much one side is ahead.

ghost use Rattle.std.specs.Prelude.{◌≡◌, ◌<◌, ◌*◌, ◌^◌, ◌++◌, OnOk};
ghost use Rattle.koth_page.specs.Shade.{quarter, shade};

use koth_text::Piece::{Number, Text};
use koth_text::{Tally, put_all};
use std::alloc::{AllocError, Allocator};

/// Puts the class of the cell of a match: `w1` to `w4` for more rounds won, `l1` to `l4` for more lost, and `e`.
#[tactic(auto, unfolding(crate::specs::Shade::shade))]
pub(crate) fn put_shade<A: Allocator>(
    page: &mut Vec<u8, A>,
    rounds: Tally,
) -> Result<(), AllocError>
    ensures { OnOk result (page.new.items ≡ page.old.items ++ shade rounds) }
{
    let (won, lost) = (u128::from(rounds.won), u128::from(rounds.lost));
    let all = won + lost + u128::from(rounds.tied);
    if rounds.lost < rounds.won {
        put_all(page, &[Text(b"w"), Number(quarter(won, lost, all))])
    } else if rounds.won < rounds.lost {
        put_all(page, &[Text(b"l"), Number(quarter(lost, won, all))])
    } else {
        page.extend_from_slice(b"e")
    }
}

/// In which quarter of all rounds it lies by how many `one` is more than `other`, from 1 on.
fn quarter(one: u128, other: u128, all: u128) -> u64
    requires one { one < 2 ^ 64 }
    requires other { other < 2 ^ 64 }
    requires all { all < 3 * 2 ^ 64 }
    ensures { result ≡ quarter one other all }
{
    if 3 * all + 4 * other < 4 * one {
        4
    } else if 2 * all + 4 * other < 4 * one {
        3
    } else if all + 4 * other < 4 * one {
        2
    } else {
        1
    }
}
