//! Which lines of a source are read.

ghost use Rattle.std.specs.Prelude.{◌≡◌, ◌<◌, ◌≤◌, ◌+◌};
ghost use Rattle.redcode_define.specs.Place.{behind_word, ended_by, open_in};

use redcode_text::Word;

/// Where a line of a source is.
#[derive(Clone, Copy, PartialEq, Eq)]
pub(crate) enum Place {
    /// Before the `;redcode` line, with this number of lines between the two.
    Ignored(u32),
    /// Among the lines that are read, in this number of open blocks.
    Read(u32),
    /// After an `END` in no block.
    Ended,
}

impl Place {
    ghost use Rattle.std.specs.Prelude.{◌≡◌, ◌<◌, ◌≤◌, ◌+◌};
    ghost use Rattle.redcode_define.specs.Place.{behind, is_read, open_in, place_by};

    /// The place of the first line of a source, of which the lines from this number on count.
    pub(crate) fn first(number: u32) -> Place
        ensures place { result ≡ place_by number }
        ensures blocks { open_in result ≡ 0 }
    {
        if number > 1 {
            Place::Ignored(number - 2)
        } else {
            Place::Read(0)
        }
    }

    /// Whether a line there is read.
    pub(crate) fn is_read(self) -> bool
        ensures { result ≡ is_read self }
    {
        matches!(self, Place::Read(_))
    }

    /// The place after a line there with this word.
    pub(crate) fn behind(self, word: Option<Word>) -> Place
        requires { open_in self < 65536 }
        ensures place { result ≡ behind self word }
        ensures blocks { open_in result ≤ open_in self + 1 }
    {
        match self {
            Place::Ignored(0) => Place::Read(0),
            Place::Ignored(lines) => Place::Ignored(lines - 1),
            Place::Read(blocks) => behind_word(blocks, word),
            Place::Ended => Place::Ended,
        }
    }
}

/// The place after a line that is read in this number of open blocks.
fn behind_word(blocks: u32, word: Option<Word>) -> Place
    requires { blocks < 65536 }
    ensures place { result ≡ behind_word blocks word }
    ensures blocks { open_in result ≤ blocks + 1 }
{
    match word {
        Some(Word::For) => Place::Read(blocks + 1),
        Some(Word::Rof) => Place::Read(blocks.saturating_sub(1)),
        Some(Word::End) => ended_by(blocks),
        _ => Place::Read(blocks),
    }
}

/// The place after an `END` in this number of open blocks.
fn ended_by(blocks: u32) -> Place
    ensures place { result ≡ ended_by blocks }
    ensures blocks { open_in result ≤ blocks }
{
    if blocks == 0 {
        Place::Ended
    } else {
        Place::Read(blocks)
    }
}
