//! Where a hill elsewhere is: an address and a port.

ghost use Rattle.std.specs.{Prelude.{◌≡◌, codes, fold}, Option.option_map_or};
ghost use Rattle.{clap.specs.Words.{first_of, found_of, rows_of}, koth_words.specs.Place.{is_port, names_port, part_after, with_digit, writes_place}};

use crate::given::text_given;
use clap::ArgMatches;

/// What was read of an address and a port, from the left.
#[derive(Clone, Copy)]
pub(crate) enum Part {
    Nothing,
    /// An address begins, and no port.
    Address,
    /// The last byte is a colon after an address.
    Colon,
    /// This number follows that.
    Port(u16),
    /// Something else follows it, or a number over 65,535.
    NoPort,
}

/// Whether the place that `--to` names has an address and a port, if that is given.
pub(crate) fn writes_place(matches: &ArgMatches<'_>) -> bool
    ensures { result ≡ writes_place (rows_of (found_of matches.now)) }
{
    match text_given(matches, "to") {
        Some(text) => names_port(text.as_bytes()),
        None => true,
    }
}

/// Whether a number from 1 to 65,535 is after the last colon of a text, and an address before it.
fn names_port(text: &[u8]) -> bool
    ensures { result ≡ names_port text.now }
{
    let mut part = Part::Nothing;
    for byte in text {
        part = part_after(part, *byte);
    }
    is_port(part)
}

fn is_port(part: Part) -> bool
    ensures { result ≡ is_port part }
{
    match part {
        Part::Port(port) => port > 0,
        Part::Nothing | Part::Address | Part::Colon | Part::NoPort => false,
    }
}

/// What was read with one byte more.
fn part_after(part: Part, byte: u8) -> Part
    ensures { result ≡ part_after part byte }
{
    match part {
        Part::Nothing => {
            if byte == b':' {
                Part::Nothing
            } else {
                Part::Address
            }
        }
        Part::Address => {
            if byte == b':' {
                Part::Colon
            } else {
                Part::Address
            }
        }
        Part::Colon => with_digit(0, byte),
        Part::Port(port) => with_digit(port, byte),
        Part::NoPort => {
            if byte == b':' {
                Part::Colon
            } else {
                Part::NoPort
            }
        }
    }
}

/// A number with a digit more, or what another byte makes of it.
fn with_digit(port: u16, byte: u8) -> Part
    ensures { result ≡ with_digit port byte }
{
    if byte == b':' {
        return Part::Colon;
    }
    if !byte.is_ascii_digit() {
        return Part::NoPort;
    }
    let number = u32::from(port) * 10 + u32::from(byte - b'0');
    if number < 65_536 {
        Part::Port(number as u16)
    } else {
        Part::NoPort
    }
}
