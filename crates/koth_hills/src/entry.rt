//! A warrior on a hill, by its entry, for `show`.

ghost use Rattle.std.specs.Prelude.{◌≡◌, IfNone, IfSome};
ghost use Rattle.{war_types.specs.Warrior.Fits, koth_keeping.specs.Answers.Answers, koth_hills.specs.Hills.{HasEntry, IsWarriorAt, SaysWarrior}};

use koth_commands::trouble::{Fault, Trouble};
use koth_commands::{Answer, Cause, Reason, Subject};
use koth_hill::Hill;
use redcode_asm::load_text;
use std::alloc::Allocator;
use war_types::Warrior;

/// Answers with the load text of the warrior with this entry on the hill in the file at this path. The trouble is that
/// there is none, or that memory ran out.
pub(crate) fn answer_entry<'s, A: Allocator + Copy>(
    alloc: A,
    hill: &Hill<A>,
    path: &'s str,
    entry: u32,
) -> Result<Answer<A>, Trouble<'s>>
    ensures { Answers (SaysWarrior entry hill.now) result }
{
    let entry = u64::from(entry);
    match warrior_at(hill, entry) {
        Some(warrior) => {
            let text = load_text(alloc, warrior, hill.settings().core())?;
            Ok(Answer::done(alloc, text))
        }
        None => Err(no_entry(path, entry)),
    }
}

/// The trouble that the hill in a file has no warrior with this entry.
fn no_entry<'s>(path: &'s str, entry: u64) -> Trouble<'s>
    ensures { result.fault ≡ Fault.NoEntry }
{
    let subject = Subject::Warrior(path, entry);
    let reason = Reason::NoEntry;
    Trouble::of(Fault::NoEntry, Cause { subject, reason })
}

/// The warrior with this entry, if it is on the hill.
fn warrior_at<'h, A: Allocator>(hill: &'h Hill<A>, entry: u64) -> Option<&'h Warrior<A>>
    ensures fits { IfSome result (λ w. Fits hill.now.settings w.now) }
    ensures has { IfSome result (λ w. IsWarriorAt hill.now.members entry w.now) }
    ensures none { IfNone result (¬ (HasEntry hill.now.members entry)) }
{
    for place in 0..hill.len() {
        if let Some(member) = hill.member(place) {
            if member.entry == entry {
                return Some(member.warrior);
            }
        }
    }
    None
}
