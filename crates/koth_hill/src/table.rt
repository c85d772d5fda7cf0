//! The table of a hill.

ghost use Rattle.std.specs.Prelude.{◌≡◌, ◌+◌, ◌<◌, ◌≤◌, ◌++◌, length, map, OnOk, IfOk};
ghost use Rattle.koth_hill.specs.{Rows.rows_parts, Table.{rows_of_rank, table_by}, Kept.{members_of, rows_of as kept_rows, entries_of, kept_results}, Standings.{AreStandings, standing_of}};

use crate::member::Entrant;
use crate::points::scores;
use crate::row::Row;
use crate::score::{Score, rank_among};
use crate::standings::Standings;
use std::alloc::{AllocError, Allocator};

/// The rows of these members by rank. An error is lack of memory.
pub(crate) fn rows_of<'h, A: Allocator, B: Allocator>(
    alloc: A,
    members: &'h [Entrant<B>],
) -> Result<Vec<Row<'h>, A>, AllocError>
    requires standings { AreStandings (map standing_of members.now) }
    requires few { length members.now ≤ 20 }
    ensures { IfOk result (λ rows. rows_parts rows.items
        ≡ table_by (kept_results (entries_of (members_of members.now)) (kept_rows members.now))
        (members_of members.now)) }
{
    let standings = Standings::of(members);
    let all_scores = scores(standings.as_slice(), None);
    let mut rows = Vec::with_capacity(alloc, members.len())?;
    for place in 0..members.len() as u32 {
        push_rank(&mut rows, members, all_scores.as_slice(), place + 1)?;
    }
    Ok(rows)
}

/// Appends the rows of the members of one rank. Each member has its score at its own index of `scores`.
fn push_rank<'h, A: Allocator, B: Allocator>(
    rows: &mut Vec<Row<'h>, A>,
    members: &'h [Entrant<B>],
    scores: &[Score],
    rank: u32,
) -> Result<(), AllocError>
    requires beside { length scores.now ≡ length members.now }
    requires few { length members.now ≤ 20 }
    ensures { OnOk result (rows_parts rows.new.items ≡ rows_parts rows.old.items
        ++ rows_of_rank scores.now rank (members_of members.now) scores.now) }
{
    for (i, member) in members.iter().enumerate() {
        if rank_among(scores, scores[i]) == rank {
            rows.push(member.row(scores[i].points))?;
        }
    }
    Ok(())
}
