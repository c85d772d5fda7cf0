//! A source that is read from standard input or from a file.

ghost use Rattle.std.specs.Prelude.{◌≡◌, IfOk, IfErr};
ghost use Rattle.koth_commands.specs.{Trouble.IsReadFault, Streams.{Takes, TakesSome, source_name}};

use crate::cause::reason_of;
use crate::stream::fill;
use crate::trouble::Trouble;
use koth_words::Source;
use redcode_asm::SOURCE_LIMIT;
use std::alloc::Allocator;
use std::fs;
use std::io::Read;
use std::rt::Files;

/// Bytes of a source that are read: one more than a source may have, which shows that it is too long.
const READ_LIMIT: usize = SOURCE_LIMIT + 1;

/// What messages call a source.
pub fn source_name<'w>(source: Source<'w>) -> &'w str
    ensures { result.now ≡ source_name source.entry }
{
    match source {
        Source::Input(name) => name,
        Source::File(path) => path,
    }
}

/// The file of a source, to read its text from.
pub fn open_source<'w, R: Files>(rt: &R, path: &'w str) -> Result<R::File, Trouble<'w>>
    ensures { IfErr result IsReadFault }
{
    match fs::open(rt, path) {
        Ok(file) => Ok(file),
        Err(error) => Err(Trouble::file(path, reason_of(error.kind()))),
    }
}

/// What a reader has, up to one byte more than a source may have. `name` is what messages call it.
pub fn text_from<'w, A: Allocator + Copy, I: Read>(
    alloc: A,
    name: &'w str,
    input: &mut I,
) -> Result<Vec<u8, A>, Trouble<'w>>
    ensures taken { IfOk result (λ text. Takes (I.remaining input.old) (I.remaining input.new) text.items) }
    ensures lost { IfErr result (λ trouble. IsReadFault trouble
        × TakesSome (I.remaining input.old) (I.remaining input.new)) }
{
    let Ok(mut buffer) = Vec::from_elem(alloc, 0, READ_LIMIT) else {
        return Err(Trouble::memory());
    };
    match fill(input, buffer.as_mut_slice()) {
        Ok(count) => {
            buffer.truncate(count);
            Ok(buffer)
        }
        Err(fault) => Err(Trouble::file(name, fault.reason)),
    }
}
