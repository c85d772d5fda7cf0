//! What is reported about a header that can't be read.

ghost use Rattle.koth_hills.specs.Hills.{TellsNote};

use koth_commands::{Cause, Reason, tell_word};
use koth_files::has_lost_header;
use std::alloc::Allocator;
use std::io::Write;
use std::rt::Files;

/// Reports that a header in the file at this path can't be read though it begins as one, if the hill is there by the
/// other one.
pub fn tell_lost_header<R: Files, A: Allocator, E: Write>(
    rt: &R,
    alloc: A,
    path: &str,
    errors: &mut E,
)
    ensures { TellsNote (E.contents errors.old) (E.contents errors.new) }
{
    if has_lost_header(rt, path) {
        tell_word(
            alloc,
            "NOTE",
            Some(Cause::file(path, Reason::Header)),
            errors,
        );
    }
}
