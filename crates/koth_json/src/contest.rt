//! The lines of `fight` and `rank`.

ghost use Rattle.std.specs.Prelude.{◌≡◌, ◌∷◌, [], ◌++◌, codes, OnOk};
ghost use Rattle.koth_json.specs.{declared.key.Key.Key, Contest.{contender_fields, contender_parts, match_line, opponent_fields, ranked_line, round_line, sum_line, tally_fields}, Objects.{Value, further_text}};

use crate::key::Key;
use crate::object::Value::{Number, Text};
use crate::object::{begin, end_with, put_fields, put_object};
use koth_text::Tally;
use std::alloc::{AllocError, Allocator};
use war_types::Title;

/// A warrior, and what its source is called.
#[derive(Clone, Copy)]
pub struct Contender<'c> {
    pub file: &'c str,
    pub name: &'c Title,
    pub author: &'c Title,
}

/// Puts the line of a contest of one warrior with another: both, and the rounds and the points of the first. The error
/// is lack of memory.
pub fn put_match<A: Allocator>(
    lines: &mut Vec<u8, A>,
    mine: Contender<'_>,
    other: Contender<'_>,
    tally: Tally,
    points: u64,
) -> Result<(), AllocError>
    ensures { OnOk result (lines.new.items ≡ lines.old.items
        ++ match_line (contender_parts mine.entry) (contender_parts other.entry) tally points) }
{
    begin(lines, (Key::Type, Text(b"match")))?;
    put_contender(lines, mine)?;
    put_opponent(lines, other)?;
    end_with_result(lines, tally, points)
}

/// Puts the line of all contests of one warrior together, with how many opponents it met. The error is lack of memory.
pub fn put_sum<A: Allocator>(
    lines: &mut Vec<u8, A>,
    mine: Contender<'_>,
    opponents: u64,
    tally: Tally,
    points: u64,
) -> Result<(), AllocError>
    ensures { OnOk result (lines.new.items ≡ lines.old.items
        ++ sum_line (contender_parts mine.entry) opponents tally points) }
{
    begin(lines, (Key::Type, Text(b"sum")))?;
    put_contender(lines, mine)?;
    put_fields(lines, &[(Key::Opponents, Number(opponents))])?;
    end_with_result(lines, tally, points)
}

/// Puts the line of a warrior of a field: its rank, and its rounds and points against all others. The error is lack of
/// memory.
pub fn put_ranked<A: Allocator>(
    lines: &mut Vec<u8, A>,
    rank: u64,
    warrior: Contender<'_>,
    tally: Tally,
    points: u64,
) -> Result<(), AllocError>
    ensures { OnOk result (lines.new.items ≡ lines.old.items
        ++ ranked_line rank (contender_parts warrior.entry) tally points) }
{
    begin(lines, (Key::Type, Text(b"ranked")))?;
    put_fields(lines, &[(Key::Rank, Number(rank))])?;
    put_contender(lines, warrior)?;
    end_with_result(lines, tally, points)
}

fn put_contender<A: Allocator>(
    line: &mut Vec<u8, A>,
    contender: Contender<'_>,
) -> Result<(), AllocError>
    ensures { OnOk result (line.new.items ≡ line.old.items
        ++ further_text (contender_fields (contender_parts contender.entry))) }
{
    let fields = [
        (Key::File, Text(contender.file.as_bytes())),
        (Key::Name, Text(contender.name.bytes())),
        (Key::Author, Text(contender.author.bytes())),
    ];
    put_fields(line, &fields)
}

fn put_opponent<A: Allocator>(
    line: &mut Vec<u8, A>,
    opponent: Contender<'_>,
) -> Result<(), AllocError>
    ensures { OnOk result (line.new.items ≡ line.old.items
        ++ further_text (opponent_fields (contender_parts opponent.entry))) }
{
    let fields = [
        (Key::OpponentFile, Text(opponent.file.as_bytes())),
        (Key::OpponentName, Text(opponent.name.bytes())),
        (Key::OpponentAuthor, Text(opponent.author.bytes())),
    ];
    put_fields(line, &fields)
}

/// Ends a line with the rounds and the points of one side.
fn end_with_result<A: Allocator>(
    line: &mut Vec<u8, A>,
    tally: Tally,
    points: u64,
) -> Result<(), AllocError>
    ensures { OnOk result (line.new.items ≡ line.old.items
        ++ (further_text (tally_fields tally ++ (Key.Points, Value.number points) ∷ []) ++ codes "}\n")) }
{
    let fields = [
        (Key::Won, Number(tally.won)),
        (Key::Lost, Number(tally.lost)),
        (Key::Tied, Number(tally.tied)),
        (Key::Points, Number(points)),
    ];
    end_with(line, &fields)
}

/// What is reported about a round.
#[derive(Clone, Copy)]
pub struct Round<'r> {
    /// The first round is 1.
    pub number: u32,
    pub seed: u32,
    /// The address at which the second warrior is loaded.
    pub position: u16,
    /// Who moves first.
    pub first: &'r str,
    /// Who won, or that it is a tie.
    pub outcome: &'r str,
    /// How many turns were made.
    pub turns: u32,
}

/// Puts the line of a round. The error is lack of memory.
pub fn put_round<A: Allocator>(lines: &mut Vec<u8, A>, round: Round<'_>) -> Result<(), AllocError>
    ensures { OnOk result (lines.new.items ≡ lines.old.items ++ round_line round.entry.number round.entry.seed
        round.entry.position round.entry.first.now round.entry.outcome.now round.entry.turns) }
{
    let fields = [
        (Key::Round, Number(u64::from(round.number))),
        (Key::Seed, Number(u64::from(round.seed))),
        (Key::Position, Number(u64::from(round.position))),
        (Key::First, Text(round.first.as_bytes())),
        (Key::Outcome, Text(round.outcome.as_bytes())),
        (Key::Turns, Number(u64::from(round.turns))),
    ];
    put_object(lines, "round", &fields)
}
