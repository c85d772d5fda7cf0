//! What became of a warrior that was submitted: what is after the line of the reply.

ghost use Rattle.std.specs.Prelude.{◌≡◌, ◌⊎◌, ◌++◌, [], None, IfOk, IfSome};
ghost use Rattle.{koth_views.specs.{Fallen.fallen_view, Placed.fell_text}, koth_hills.specs.{Json.settled_lines, Placing.{fell_view, outcome_view}}};

use crate::json::matches_lines;
use crate::settled::Settled;
use hill_store::Reply;
use koth_hill::{Hill, Verdict};
use koth_match::Bout;
use koth_views::{Entered, Place, fallen_view, fell_text, placed_text};
use koth_words::View;
use std::alloc::{AllocError, Allocator};

/// What is after the line of a reply: for people what became of the warrior, and as lines of JSON its matches, if there
/// is memory for that; else nothing.
pub(crate) fn placing_text<A: Allocator + Copy>(
    alloc: A,
    view: View,
    before: &Option<Vec<Entered, A>>,
    hill: &Hill<A>,
    settled: &Settled<A>,
) -> Vec<u8, A>
    ensures plain { view ≡ View.Plain → result.items ≡ [] }
    ensures none { view ≡ View.Table → before.now ≡ None → result.items ≡ [] }
    ensures some { view ≡ View.Table → IfSome before.now (λ stood. (result.items ≡ [])
        ⊎ (result.items ≡ outcome_view stood.items hill.now settled.now.reply settled.now.judged)) }
    ensures json { view ≡ View.Json → (result.items ≡ [])
        ⊎ (result.items ≡ settled_lines hill.now settled.now.reply settled.now.judged) }
{
    match view {
        View::Plain => Vec::new(alloc),
        View::Table => told_text(alloc, before, hill, settled),
        View::Json => match matches_lines(alloc, hill, settled) {
            Ok(text) => text,
            Err(AllocError) => Vec::new(alloc),
        },
    }
}

/// What became of the warrior of a submission, if it is known who stood on the hill before and there is memory for it;
/// else nothing.
fn told_text<A: Allocator + Copy>(
    alloc: A,
    before: &Option<Vec<Entered, A>>,
    hill: &Hill<A>,
    settled: &Settled<A>,
) -> Vec<u8, A>
    ensures none { before.now ≡ None → result.items ≡ [] }
    ensures some { IfSome before.now (λ stood. (result.items ≡ [])
        ⊎ (result.items ≡ outcome_view stood.items hill.now settled.now.reply settled.now.judged)) }
{
    match before {
        Some(before) => match outcome_text(alloc, before.as_slice(), hill, settled) {
            Ok(text) => text,
            Err(AllocError) => Vec::new(alloc),
        },
        None => Vec::new(alloc),
    }
}

/// Where the warrior of a submission is on the hill after it, or that it fell, and its matches. If it fell, the lowest
/// points of those that stay too. `before` is the hill's roster from before the submission. No match is fought.
fn outcome_text<A: Allocator + Copy>(
    alloc: A,
    before: &[Entered],
    hill: &Hill<A>,
    settled: &Settled<A>,
) -> Result<Vec<u8, A>, AllocError>
    ensures { IfOk result (λ text. text.items
        ≡ outcome_view before.now hill.now settled.now.reply settled.now.judged) }
{
    match settled.reply {
        Reply::Placed { entry, rank, score } => {
            let place = Place { entry, rank, score };
            placed_text(alloc, before, hill, place)
        }
        Reply::Fell { entry, score } => fallen_text(alloc, entry, score, hill, &settled.judged),
        Reply::Refused(_) | Reply::Memory | Reply::Worn | Reply::Disk | Reply::Reopen => {
            Ok(Vec::new(alloc))
        }
    }
}

/// That a warrior fell, and its matches by its verdict.
fn fallen_text<A: Allocator + Copy>(
    alloc: A,
    entry: u64,
    score: u32,
    hill: &Hill<A>,
    judged: &Option<Verdict>,
) -> Result<Vec<u8, A>, AllocError>
    ensures { IfOk result (λ text. text.items ≡ fell_view entry score hill.now judged.now) }
{
    match judged {
        Some(judged) => text_with_matches(alloc, entry, score, hill, judged.bouts()),
        None => Ok(Vec::new(alloc)),
    }
}

fn text_with_matches<A: Allocator + Copy>(
    alloc: A,
    entry: u64,
    score: u32,
    hill: &Hill<A>,
    bouts: &[Bout],
) -> Result<Vec<u8, A>, AllocError>
    ensures { IfOk result (λ text. text.items ≡ fell_text entry score ++ fallen_view hill.now bouts.now) }
{
    let mut text = fell_text(alloc, entry, score)?;
    let matches = fallen_view(alloc, hill, bouts)?;
    text.extend_from_slice(matches.as_slice())?;
    Ok(text)
}
