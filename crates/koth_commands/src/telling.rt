//! Reports on standard error: a word that programs know, followed by a text for people.

ghost use Rattle.std.specs.{Prelude.{◌≡◌, ◌++◌, OnErr, OnOk}, Io.KnownBytes.Appends};
ghost use Rattle.{koth_text.specs.Written.WritesPart, koth_commands.specs.Told.{apart_text, TellsCause, TellsWord}};

use crate::cause::{Cause, cause_text};
use crate::stream::{StreamFault, write_whole};
use std::alloc::{AllocError, Allocator};
use std::io::Write;

/// What is between a word and the text after it.
#[derive(Clone, Copy, PartialEq, Eq)]
pub enum Apart {
    /// The word ends its line.
    Line,
    /// A blank.
    Blank,
    /// A colon and a blank.
    Colon,
}

impl Apart {
    fn text(self) -> &'static [u8]
        ensures { result.now ≡ apart_text self }
    {
        match self {
            Apart::Line => b"\n",
            Apart::Blank => b" ",
            Apart::Colon => b": ",
        }
    }
}

/// Writes a word, followed by what failed and why if that is known and there is memory for it. If standard error fails,
/// a part of it is written.
pub fn tell_word<A: Allocator, E: Write>(
    alloc: A,
    word: &str,
    cause: Option<Cause<'_>>,
    errors: &mut E,
)
    ensures { TellsCause word.now cause.entry (E.contents errors.old) (E.contents errors.new) }
{
    match cause {
        Some(cause) => match cause_text(alloc, cause) {
            Ok(text) => tell_text(word, Apart::Blank, text.as_slice(), errors),
            Err(AllocError) => tell_text(word, Apart::Line, b"", errors),
        },
        None => tell_text(word, Apart::Line, b"", errors),
    }
}

/// Writes a word and a text after it, or a part of them if standard error fails.
pub fn tell_text<E: Write>(word: &str, apart: Apart, text: &[u8], errors: &mut E)
    ensures told { TellsWord word.now (E.contents errors.old) (E.contents errors.new) }
    ensures part { WritesPart (E.contents errors.old) (E.contents errors.new)
        (word.now ++ (apart_text apart ++ text.now)) }
{
    let _ = write_told(word, apart, text, errors);
}

fn write_told<E: Write>(
    word: &str,
    apart: Apart,
    text: &[u8],
    errors: &mut E,
) -> Result<(), StreamFault>
    ensures whole { OnOk result (Appends (E.contents errors.old) (E.contents errors.new)
        (word.now ++ (apart_text apart ++ text.now))) }
    ensures part { OnErr result (WritesPart (E.contents errors.old) (E.contents errors.new)
        (word.now ++ (apart_text apart ++ text.now))) }
{
    write_whole(errors, word.as_bytes())?;
    write_both(errors, apart.text(), text)
}

/// Writes two texts whole, one after the other. If the output fails, a part of them is written.
pub fn write_both<W: Write>(output: &mut W, first: &[u8], second: &[u8]) -> Result<(), StreamFault>
    ensures whole { OnOk result (Appends (W.contents output.old) (W.contents output.new) (first.now ++ second.now)) }
    ensures part { OnErr result (WritesPart (W.contents output.old) (W.contents output.new) (first.now ++ second.now)) }
{
    write_whole(output, first)?;
    write_whole(output, second)
}
