//! The command `explain`: what a refusal or a warning means.

ghost use Rattle.std.specs.Prelude.{None, option_copied};
ghost use Rattle.koth_commands.specs.{Kinds.{EndsExplain, IsExplained}, Streams.streams};

use crate::answer::{Answer, deliver};
use crate::status::Status;
use crate::trouble::Trouble;
use koth_kinds::explained;
use std::alloc::Allocator;
use std::io::Write;

/// Writes what the kinds of this name mean, each with its examples, or a line for each kind if no name is given. A name
/// that no kind has is refused, and the names of all kinds are written on standard error.
pub fn explain_kind<A: Allocator + Copy, O: Write, E: Write>(
    alloc: A,
    name: Option<&str>,
    output: &mut O,
    errors: &mut E,
) -> Status
    ensures { EndsExplain (option_copied name.entry) result
        (streams None (O.contents output.old) (E.contents errors.old))
        (streams None (O.contents output.new) (E.contents errors.new)) }
{
    let done = perform_explain(alloc, name);
    deliver(alloc, done, false, output, errors)
}

fn perform_explain<'w, A: Allocator + Copy>(
    alloc: A,
    name: Option<&'w str>,
) -> Result<Answer<A>, Trouble<'w>>
    ensures { IsExplained (option_copied name.entry) result }
{
    let text = explained(alloc, name)?;
    match name {
        Some(name) if text.is_empty() => Err(Trouble::kind(name)),
        _ => Ok(Answer::done(alloc, text)),
    }
}
