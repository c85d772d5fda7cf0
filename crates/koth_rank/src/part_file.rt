//! The files of parts, and what is told of those that can't be joined.

ghost use Rattle.std.specs.{Prelude.MatchResult, Io.KnownBytes.Keeps};
ghost use Rattle.koth_rank.specs.Join.{Fails};

use koth_commands::trouble::Trouble;
use koth_commands::{Status, open_source, put_name, reason_of, write_whole};
use koth_standings::{NoPart, PartRead, read_part};
use koth_text::Piece::{Number, Text};
use koth_text::put_all;
use koth_words::Source;
use std::alloc::{AllocError, Allocator};
use std::io::{Read, Write};
use std::rt::Files;
use std::str;

/// Why parts are not joined.
#[derive(Clone, Copy)]
pub(crate) enum NotJoined<'w> {
    /// Parts are read twice, and the input only once.
    Input,
    /// The file has no part, or not all of it.
    Cut(&'w str),
    /// It is a part of another field, or of matches under other settings.
    Other(&'w str, &'w str),
    /// The part of this number is in both files.
    Twice(u64, &'w str, &'w str),
    /// The part of this number is in no file.
    Missing(u64),
}

/// What is in the file of a part. If it can't be read, standard error says why.
pub(crate) fn bytes_at<'w, R: Files, A: Allocator + Copy, E: Write>(
    rt: &R,
    alloc: A,
    part: Source<'w>,
    errors: &mut E,
) -> Result<Vec<u8, A>, Status>
    ensures { MatchResult result (λ bytes. Keeps (E.contents errors.old) (E.contents errors.new))
        (λ status. Fails status (E.contents errors.old) (E.contents errors.new)) }
{
    match part {
        Source::Input(_) => Err(refuse(alloc, NotJoined::Input, errors)),
        Source::File(path) => match file_bytes(rt, alloc, path) {
            Ok(bytes) => Ok(bytes),
            Err(trouble) => Err(failed(alloc, trouble, errors)),
        },
    }
}

fn file_bytes<'w, R: Files, A: Allocator + Copy>(
    rt: &R,
    alloc: A,
    path: &'w str,
) -> Result<Vec<u8, A>, Trouble<'w>> {
    let mut file = match open_source(rt, path) {
        Ok(file) => file,
        Err(trouble) => return Err(trouble),
    };
    let mut bytes = Vec::new(alloc);
    match file.read_to_end(&mut bytes) {
        Ok(_) => Ok(bytes),
        Err(error) => Err(Trouble::file(path, reason_of(error.kind()))),
    }
}

/// The part in the bytes of the file of this name.
pub(crate) fn part_in<'t, A: Allocator + Copy, E: Write>(
    alloc: A,
    name: &str,
    bytes: &'t [u8],
    errors: &mut E,
) -> Result<PartRead<'t, A>, Status>
    ensures { MatchResult result (λ part. Keeps (E.contents errors.old) (E.contents errors.new))
        (λ status. Fails status (E.contents errors.old) (E.contents errors.new)) }
{
    let Ok(text) = str::from_utf8(bytes) else {
        return Err(refuse(alloc, NotJoined::Cut(name), errors));
    };
    match read_part(alloc, text) {
        Ok(part) => Ok(part),
        Err(NoPart::Cut) => Err(refuse(alloc, NotJoined::Cut(name), errors)),
        Err(NoPart::Memory) => Err(failed(alloc, Trouble::memory(), errors)),
    }
}

/// Tells why no table is written.
pub(crate) fn failed<A: Allocator + Copy, E: Write>(
    alloc: A,
    trouble: Trouble<'_>,
    errors: &mut E,
) -> Status
    ensures { Fails result (E.contents errors.old) (E.contents errors.new) }
{
    match trouble.tell(alloc, errors) {
        Status::NoMemory => Status::NoMemory,
        Status::StreamFault => Status::StreamFault,
        _ => Status::Refused,
    }
}

/// Tells why parts are not joined.
pub(crate) fn refuse<A: Allocator + Copy, E: Write>(
    alloc: A,
    why: NotJoined<'_>,
    errors: &mut E,
) -> Status
    ensures { Fails result (E.contents errors.old) (E.contents errors.new) }
{
    match sentence(alloc, why) {
        Ok(text) => tell(text.as_slice(), errors),
        Err(AllocError) => failed(alloc, Trouble::memory(), errors),
    }
}

fn tell<E: Write>(text: &[u8], errors: &mut E) -> Status
    ensures { Fails result (E.contents errors.old) (E.contents errors.new) }
{
    let _ = write_whole(errors, text);
    Status::Refused
}

/// Why parts are not joined, and what to do.
fn sentence<A: Allocator + Copy>(alloc: A, why: NotJoined<'_>) -> Result<Vec<u8, A>, AllocError> {
    match why {
        NotJoined::Input => Vec::from_slice(
            alloc,
            b"a part is read twice: name its file, and not standard input\n",
        ),
        NotJoined::Cut(file) => sentence_of(
            alloc,
            &[file],
            b"",
            b": no part, or one that was cut short: make it again\n",
        ),
        NotJoined::Other(file, first) => sentence_of(
            alloc,
            &[file, first],
            b": rank the same warriors with the same options as for ",
            b"\n",
        ),
        NotJoined::Twice(number, file, first) => twice(alloc, number, file, first),
        NotJoined::Missing(number) => missing(alloc, number),
    }
}

/// The files, with a text between two of them, and a text at the end.
fn sentence_of<A: Allocator + Copy>(
    alloc: A,
    files: &[&str],
    between: &[u8],
    end: &[u8],
) -> Result<Vec<u8, A>, AllocError> {
    let mut text = Vec::new(alloc);
    for at in 0..files.len() {
        if at > 0 {
            text.extend_from_slice(between)?;
        }
        put_name(&mut text, files[at])?;
    }
    text.extend_from_slice(end)?;
    Ok(text)
}

fn twice<A: Allocator + Copy>(
    alloc: A,
    number: u64,
    file: &str,
    first: &str,
) -> Result<Vec<u8, A>, AllocError> {
    let mut text = of_number(alloc, number, b" is there twice: leave out ")?;
    put_name(&mut text, first)?;
    text.extend_from_slice(b" or ")?;
    put_name(&mut text, file)?;
    text.extend_from_slice(b"\n")?;
    Ok(text)
}

fn missing<A: Allocator + Copy>(alloc: A, number: u64) -> Result<Vec<u8, A>, AllocError> {
    of_number(alloc, number, b" is missing: make it, and name its file\n")
}

fn of_number<A: Allocator + Copy>(
    alloc: A,
    number: u64,
    end: &[u8],
) -> Result<Vec<u8, A>, AllocError> {
    let mut text = Vec::new(alloc);
    put_all(&mut text, &[Text(b"part "), Number(number), Text(end)])?;
    Ok(text)
}
