//! The title of a warrior or of its author.

ghost use Rattle.std.specs.Prelude.{◌≡◌, ◌≤◌, ◌<◌, ◌↔◌, ℕ, List, All, IfSome, IsTrue, length, map, replicate, slice_index, take};
ghost use Rattle.war_types.specs.Title.{is_blank, after_blanks, before_blanks, shown, stored_title, title_of, IsPrintable, IsTitle};

use std::marker::Model;

/// Bytes that a title has at most.
const TITLE_LIMIT: usize = 48;

/// The name of a warrior or of its author: 1 to 48 bytes, each a printable character of ASCII.
#[derive(Debug, Drop)]
pub struct Title {
    bytes: [u8; 48],
    len: usize,
}

impl Model for Title {
    ghost use Rattle.std.specs.Prelude.{ℕ, ◌≤◌, List, take};
    ghost use Rattle.war_types.specs.Title.{IsTitle};

    ghost Value = { List ℕ };

    ghost view = { λ t. take t.len t.bytes };

    ghost invariant = { λ t. IsTitle (take t.len t.bytes) × (t.len ≤ 48) };
}

impl Title {
    /// The title that a text gives: without the blanks at both ends, cut to 48 bytes, and with a question mark
    /// for each byte that can't be printed. If the text has nothing but blanks, the title is the default.
    pub fn new(text: &[u8], default: &'static str) -> Title
        requires { IsTitle default.now }
        ensures { result ≡ title_of text.now default.now }
    {
        let inner = without_blanks_behind(without_blanks_before(text));
        if inner.is_empty() {
            return Title::of_shown(default.as_bytes());
        }
        Title::of_shown(&inner[..inner.len().min(TITLE_LIMIT)])
    }

    /// The title that is stored in these bytes: its own, and zeros after them. Other bytes are no title's.
    pub fn read(bytes: &[u8; 48]) -> Option<Title>
        ensures some { IfSome result (λ title. IsTitle title × (bytes.now ≡ stored_title title)) }
        ensures every { (title : List ℕ) → IsTitle title → bytes.now ≡ stored_title title → result ≡ Some title }
    {
        let len = printable_len(bytes);
        if len == 0 || !are_zeros(&bytes[len..]) {
            return None;
        }
        Some(Title { bytes: *bytes, len })
    }

    /// The title's 1 to 48 bytes.
    pub fn bytes(&self) -> &[u8]
        ensures value { result.now ≡ self.now }
        ensures title { IsTitle self.now }
    {
        &self.bytes[..self.len]
    }

    fn of_shown(text: &[u8]) -> Title
        requires not_empty { 1 ≤ length text.now }
        requires short { length text.now ≤ 48 }
        ensures { result ≡ map shown text.now }
    {
        let mut bytes = [0; TITLE_LIMIT];
        for i in 0..text.len() {
            bytes[i] = shown(text[i]);
        }
        Title {
            bytes,
            len: text.len(),
        }
    }
}

/// How many bytes at the front can be printed.
fn printable_len(text: &[u8]) -> usize
    ensures within { result ≤ length text.now }
    ensures printable { All IsPrintable (take result text.now) }
    ensures stops { result < length text.now → ¬ IsPrintable (slice_index text.now result) }
{
    for (i, byte) in text.iter().enumerate() {
        if !is_printable(*byte) {
            return i;
        }
    }
    text.len()
}

fn is_printable(byte: u8) -> bool
    ensures { IsTrue result ↔ IsPrintable byte }
{
    (0x20..=0x7E).contains(&byte)
}

fn are_zeros(bytes: &[u8]) -> bool
    ensures { IsTrue result ↔ (bytes.now ≡ replicate (length bytes.now) 0) }
{
    bytes.iter().all(|&byte| byte == 0)
}

/// A space, a tab or a carriage return.
pub fn is_blank(byte: u8) -> bool
    ensures { result ≡ is_blank byte }
{
    byte == b' ' || byte == b'\t' || byte == b'\r'
}

fn shown(byte: u8) -> u8
    ensures { result ≡ shown byte }
{
    if is_printable(byte) { byte } else { b'?' }
}

fn without_blanks_before(text: &[u8]) -> &[u8]
    ensures { result.now ≡ after_blanks text.now }
{
    let mut rest = text;
    while let [first, after @ ..] = rest {
        if !is_blank(*first) {
            break;
        }
        rest = after;
    }
    rest
}

/// The text without the blanks at its end.
pub fn without_blanks_behind(text: &[u8]) -> &[u8]
    ensures { result.now ≡ before_blanks text.now }
{
    let mut rest = text;
    while let [before @ .., last] = rest {
        if !is_blank(*last) {
            break;
        }
        rest = before;
    }
    rest
}
