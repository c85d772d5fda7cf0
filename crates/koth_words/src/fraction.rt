//! Which part of a work is asked for: `K/N`.

ghost use Rattle.std.specs.Prelude.{◌≡◌, fold};
ghost use Rattle.{clap.specs.Words.{found_of, rows_of}, koth_words.specs.Fraction.{after_digit, part_at, part_in, part_of, read_after, with_count, with_number}};

use crate::given::text_given;
use crate::requests::Part;
use clap::ArgMatches;

/// What was read of two numbers with a slash between them, from the left.
#[derive(Clone, Copy)]
pub(crate) enum Read {
    Nothing,
    /// This number, and no slash yet.
    Number(u32),
    /// This number and a slash.
    Slash(u32),
    /// Both numbers.
    Both(u32, u32),
    /// Something else, or a number over 4,294,967,295.
    NoPart,
}

/// The part that `--part` names, if it names one.
pub(crate) fn part_given(matches: &ArgMatches<'_>) -> Option<Part>
    ensures { result ≡ part_in (rows_of (found_of matches.now)) }
{
    match text_given(matches, "part") {
        Some(text) => part_at(text.as_bytes()),
        None => None,
    }
}

/// The part that a text names.
fn part_at(text: &[u8]) -> Option<Part>
    ensures { result ≡ part_at text.now }
{
    let mut read = Read::Nothing;
    for byte in text {
        read = read_after(read, *byte);
    }
    part_of(read)
}

/// The part of what was read: the number is from 1 to the count.
fn part_of(read: Read) -> Option<Part>
    ensures { result ≡ part_of read }
{
    match read {
        Read::Both(number, count) if 1 <= number && number <= count => Some(Part { number, count }),
        _ => None,
    }
}

/// What was read with one byte more.
fn read_after(read: Read, byte: u8) -> Read
    ensures { result ≡ read_after read byte }
{
    match read {
        Read::Nothing => with_number(after_digit(0, byte)),
        Read::Number(number) => {
            if byte == b'/' {
                Read::Slash(number)
            } else {
                with_number(after_digit(number, byte))
            }
        }
        Read::Slash(number) => with_count(number, after_digit(0, byte)),
        Read::Both(number, count) => with_count(number, after_digit(count, byte)),
        Read::NoPart => Read::NoPart,
    }
}

fn with_number(number: Option<u32>) -> Read
    ensures { result ≡ with_number number }
{
    match number {
        Some(number) => Read::Number(number),
        None => Read::NoPart,
    }
}

fn with_count(number: u32, count: Option<u32>) -> Read
    ensures { result ≡ with_count number count }
{
    match count {
        Some(count) => Read::Both(number, count),
        None => Read::NoPart,
    }
}

/// A number with a digit more, if that is one of 32 bits.
fn after_digit(number: u32, byte: u8) -> Option<u32>
    ensures { result ≡ after_digit number byte }
{
    if !byte.is_ascii_digit() {
        return None;
    }
    let longer = u64::from(number) * 10 + u64::from(byte - b'0');
    if longer < 4_294_967_296 {
        Some(longer as u32)
    } else {
        None
    }
}
