//! The answer of a command that is done.

ghost use Rattle.std.specs.Prelude.{◌≡◌, [], IfOk};
ghost use Rattle.{koth_commands.specs.Answer.answer_parts, koth_keeping.specs.Answers.{Answers, SaysLine}};

use hill_file::TryLock;
use hill_store::Store;
use koth_commands::trouble::Trouble;
use koth_commands::{Answer, Status};
use koth_files::copy_hill;
use sector_disk::Device;
use std::alloc::{AllocError, Allocator};
use std::rt::Files;

/// An answer of this text, with this note after it.
pub(crate) fn answer_of<A: Allocator + Copy>(
    alloc: A,
    status: Status,
    text: &[u8],
    note: &[u8],
) -> Result<Answer<A>, AllocError>
    ensures { IfOk result (λ answer. answer ≡ answer_parts status text.now note.now) }
{
    let text = Vec::from_slice(alloc, text)?;
    let note = Vec::from_slice(alloc, note)?;
    Ok(Answer { status, text, note })
}

/// Copies the hill of a store to a new file, and answers with this line.
pub(crate) fn copied<'n, R: Files, D: Device, A: Allocator + Copy>(
    rt: &R,
    alloc: A,
    store: &Store<D, A>,
    new: &'n str,
    line: &[u8],
) -> Result<Answer<A>, Trouble<'n>>
where
    R::File: TryLock,
    ensures { Answers (SaysLine line.now) result }
{
    let answer = answer_of(alloc, Status::Done, line, b"")?;
    match copy_hill(rt, alloc, store, new) {
        Ok(()) => Ok(answer),
        Err(trouble) => Err(trouble),
    }
}
