//! What is reported of an argument that is not UTF-8.

ghost use Rattle.std.specs.Prelude.{◌≡◌, ◌≤◌, length, IfSome};
ghost use Rattle.koth_commands.specs.Told.{WritesSome};

use koth_commands::{Status, write_whole};
use std::alloc::{AllocError, Allocator};
use std::env::Env;
use std::io::Write;

/// Bytes of the longest argument that the system passes on.
const LONGEST: usize = 131_072;

const NO_TEXT: &str = "error: an argument is not UTF-8

For more information, try '--help'.
";

/// Reports the first argument that is not UTF-8, and returns how the program ends: its number, which is 1 for the first
/// after the program's name, and its bytes as ASCII. If there is no such argument or no memory, neither is reported.
pub fn refuse_arguments<R: Env, A: Allocator + Copy, E: Write>(
    rt: &R,
    alloc: A,
    errors: &mut E,
) -> Status
    ensures status { result ≡ Status.WordFault }
    ensures told { WritesSome (E.contents errors.old) (E.contents errors.new) }
{
    match refusal_text(rt, alloc) {
        Ok(text) => {
            let _ = write_whole(errors, text.as_bytes());
        }
        Err(AllocError) => {
            let _ = write_whole(errors, NO_TEXT.as_bytes());
        }
    }
    Status::WordFault
}

fn refusal_text<R: Env, A: Allocator + Copy>(rt: &R, alloc: A) -> Result<String<A>, AllocError> {
    let mut buffer = Vec::from_elem(alloc, 0u8, LONGEST)?;
    text_within(rt, alloc, buffer.as_mut_slice())
}

/// The same. Arguments are read into this buffer.
fn text_within<R: Env, A: Allocator>(
    rt: &R,
    alloc: A,
    buffer: &mut [u8],
) -> Result<String<A>, AllocError> {
    match unreadable(rt, buffer) {
        Some((number, count)) => format!(in alloc;
            "error: argument {} is not UTF-8: '{}'\n\nFor more information, try '--help'.\n",
            number,
            buffer[..count].escape_ascii()
        ),
        None => Err(AllocError),
    }
}

/// The number of the first argument that is not UTF-8, and how many bytes it has. These are then at the front of the
/// buffer.
fn unreadable<R: Env>(rt: &R, buffer: &mut [u8]) -> Option<(usize, usize)>
    ensures { IfSome result (λ found. found.1 ≤ length buffer.new) }
{
    for number in 0..usize::MAX {
        let Ok(count) = rt.arg(number, buffer) else {
            return None;
        };
        if str::from_utf8(&buffer[..count]).is_err() {
            return Some((number, count));
        }
    }
    None
}
