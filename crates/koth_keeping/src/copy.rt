//! The command `copy`: the hill in a file, in a new file.

ghost use Rattle.std.specs.Prelude.{◌≡◌, Some, true, IfSome, None};
ghost use Rattle.koth_hill.specs.Kept.{AreTrue};
ghost use Rattle.koth_keeping.specs.{Answers.Answers, Audit.IsAudited, Copies.{CopiesOf, SaysCopied}};

use crate::answer::copied;
use crate::audit::answer_found;
use hill_file::TryLock;
use hill_store::{Store, Untrue};
use koth_commands::Answer;
use koth_commands::trouble::Trouble;
use koth_files::look_hill;
use koth_words::{Copied, View};
use sector_disk::Device;
use std::alloc::Allocator;
use std::rt::Files;

/// Copies the hill in a file to a new file, just large enough for it, that only its owner may read and write, and which
/// takes its name when it is whole. Nothing may have that name. The hill is only read, and its lock is not taken, so
/// that a service may work on it. If the arguments say so, each pair is fought again first. If a result that the hill
/// keeps isn't its match's, the answer is that of `audit`, and nothing is copied.
pub fn perform_copy<'c, R: Files, A: Allocator + Copy>(
    rt: &R,
    alloc: A,
    files: Copied<'c>,
) -> Result<Answer<A>, Trouble<'c>>
where
    R::File: TryLock,
    ensures { Answers (SaysCopied files.entry.audit) result }
{
    match look_hill(rt, alloc, files.hill) {
        Ok(mut store) => copy_audited(rt, alloc, &mut store, files),
        Err(trouble) => Err(trouble),
    }
}

/// Copies the hill of a store, unless it is to be audited and that finds something.
fn copy_audited<'c, R: Files, D: Device, A: Allocator + Copy>(
    rt: &R,
    alloc: A,
    store: &mut Store<D, A>,
    files: Copied<'c>,
) -> Result<Answer<A>, Trouble<'c>>
where
    R::File: TryLock,
    ensures { Answers (CopiesOf store.old.hill files.entry.audit) result }
{
    match first_untrue(store, files.audit) {
        Some(untrue) => Ok(answer_found(alloc, View::Plain, Some(untrue))?),
        None => copied(rt, alloc, store, files.new, b"COPIED\n"),
    }
}

/// The first result of a hill that isn't its match's, if there is one and that is asked for.
fn first_untrue<D: Device, A: Allocator + Copy>(
    store: &mut Store<D, A>,
    audit: bool,
) -> Option<Untrue>
    ensures none { audit ≡ true → result ≡ None → AreTrue store.old.hill }
    ensures some { IfSome result (λ untrue. (audit ≡ true) × IsAudited store.old.hill (Some untrue)) }
    ensures unchanged { store.new ≡ store.old }
{
    if audit {
        return store.first_untrue();
    }
    None
}
