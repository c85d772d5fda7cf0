//! Which page the target of a request names.

ghost use Rattle.std.specs.{Prelude.{◌≡◌, ◌^◌, ◌<◌, ◌==◌, ℕ, IfSome, Some, None, decimal, bytes_eq}, List.{before_first, after_first}};
ghost use Rattle.koth_http.specs.Target.{IsPage, single_of, number_of, page_of, page_named, path_of, round_of, target_for};

use itoa::Buffer;
use std::str::from_utf8;

/// A page that there can be.
#[derive(Clone, Copy)]
pub enum Page {
    /// The hill, for people.
    Hill,
    /// The hill, for programs.
    Data,
    /// Whether the hill takes warriors.
    Health,
    /// Which pages programs that follow links are not to ask for.
    Robots,
    /// The picture that browsers ask for unasked. It is empty.
    Icon,
    /// A round of the match between two entries, turn by turn.
    Round {
        /// The entry number of the older warrior, as it is written.
        older: u64,
        /// And of the younger.
        younger: u64,
        round: u32,
    },
}

const REPLAY: &[u8] = b"/replay/";

/// The page that a target names, with or without a query: `/`, `/hill.json`, `/health`, `/robots.txt`, `/favicon.ico` or `/replay/OLDER/YOUNGER/ROUND`.
pub fn page_named(target: &[u8]) -> Option<Page>
    ensures value { result ≡ page_named target.now }

    // It is the page with this target, if there is one.
    ensures written { IfSome result (λ page. path_of target.now ≡ target_for page) }
    ensures found { (page : Page) → IsPage page → path_of target.now ≡ target_for page → result ≡ Some page }
{
    let (path, _) = cut(target, b'?');
    page_of(path)
}

#[tactic(auto, unfolding(crate::specs::Target::page_of))]
fn page_of(path: &[u8]) -> Option<Page>
    ensures { result ≡ page_of path.now }
{
    if let Some(page) = single_of(path) {
        return Some(page);
    }
    if path.len() >= 8 && &path[..8] == REPLAY {
        round_of(&path[8..])
    } else {
        None
    }
}

/// The page of which there is only one, by its path.
#[tactic(auto, unfolding(crate::specs::Target::single_of))]
fn single_of(path: &[u8]) -> Option<Page>
    ensures { result ≡ single_of path.now }
{
    if path == b"/".as_slice() {
        Some(Page::Hill)
    } else if path == b"/hill.json".as_slice() {
        Some(Page::Data)
    } else if path == b"/health".as_slice() {
        Some(Page::Health)
    } else if path == b"/robots.txt".as_slice() {
        Some(Page::Robots)
    } else if path == b"/favicon.ico".as_slice() {
        Some(Page::Icon)
    } else {
        None
    }
}

#[tactic(auto, unfolding(crate::specs::Target::round_of))]
fn round_of(text: &[u8]) -> Option<Page>
    ensures { result ≡ round_of text.now }
{
    let (older, rest) = cut(text, b'/');
    let (younger, round) = cut(rest, b'/');
    match (number(older), number(younger), small_number(round)) {
        (Some(older), Some(younger), Some(round)) => Some(Page::Round {
            older,
            younger,
            round,
        }),
        _ => None,
    }
}

/// The bytes before the first separator, and the bytes after it.
pub(crate) fn cut(text: &[u8], separator: u8) -> (&[u8], &[u8])
    ensures before { result.0.now ≡ before_first (λ b. b == separator) text.now }
    ensures after { result.1.now ≡ after_first (λ b. b == separator) text.now }
{
    for at in 0..text.len() {
        if text[at] == separator {
            return (&text[..at], &text[at + 1..]);
        }
    }
    (text, &[])
}

fn small_number(text: &[u8]) -> Option<u32>
    ensures { result ≡ number_of (2 ^ 32) text.now }
{
    let number = number(text)?;
    if number <= u64::from(u32::MAX) {
        Some(number as u32)
    } else {
        None
    }
}

/// The number that a text writes, without a plus sign or zeros before it.
fn number(text: &[u8]) -> Option<u64>
    ensures { result ≡ number_of (2 ^ 64) text.now }
{
    let number = number_read(text)?;
    if is_written(number, text) {
        Some(number)
    } else {
        None
    }
}

fn is_written(number: u64, text: &[u8]) -> bool
    ensures { result ≡ bytes_eq (decimal number) text.now }
{
    let mut digits = Buffer::new();
    digits.format(number).as_bytes() == text
}

/// The number that a text writes, maybe with a plus sign or zeros before it.
fn number_read(text: &[u8]) -> Option<u64>
    ensures { (n : ℕ) → n < 2 ^ 64 → text.now ≡ decimal n → result ≡ Some n }
{
    match from_utf8(text) {
        Ok(text) => text.parse::<u64>().ok(),
        Err(_) => None,
    }
}
