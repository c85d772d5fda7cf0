//! Names that are nearly a reserved word.

ghost use Rattle.std.specs.{Prelude.{◌≡◌, find, map, option_map}, Char.to_ascii_lowercase};
ghost use Rattle.redcode_warnings.specs.Label.{are_exchanged, is_near, is_one_edit, near_word};

use redcode_text::is_word;

/// The reserved words.
const WORDS: [&str; 25] = [
    "DAT", "MOV", "ADD", "SUB", "MUL", "DIV", "MOD", "JMP", "JMZ", "JMN", "DJN", "CMP", "SEQ",
    "SNE", "SLT", "SPL", "NOP", "LDP", "STP", "EQU", "FOR", "ROF", "ORG", "END", "PIN",
];

/// The first reserved word that is one edit from a name of three or four letters.
pub(crate) fn near_word(name: &[u8]) -> Option<&'static str>
    ensures { option_map (λ w. w.now) result ≡ near_word name.now }
{
    if name.len() < 3 || 4 < name.len() {
        return None;
    }
    first_near(name, &WORDS)
}

/// The first of these words that is one edit from a name.
fn first_near(name: &[u8], words: &[&'static str]) -> Option<&'static str>
    ensures { option_map (λ w. w.now) result ≡ find (is_near name.now) (map (λ w. w.now) words.now) }
{
    let mut rest = words;
    while let [word, behind @ ..] = rest {
        if is_one_edit(name, word.as_bytes()) {
            return Some(word);
        }
        rest = behind;
    }
    None
}

/// Whether one letter put in, left out or exchanged with its neighbour leads from one text to the other, upper and lower
/// case being one.
fn is_one_edit(from: &[u8], to: &[u8]) -> bool
    ensures { result ≡ is_one_edit (map to_ascii_lowercase from.now) (map to_ascii_lowercase to.now) }
{
    match (from, to) {
        ([], _) => to.len() == 1,
        ([_, behind @ ..], []) => behind.is_empty(),
        ([a, behind_a @ ..], [b, behind_b @ ..]) => {
            if a.eq_ignore_ascii_case(b) {
                return is_one_edit(behind_a, behind_b);
            }
            is_word(to, behind_a) || is_word(behind_b, from) || are_exchanged(from, to)
        }
    }
}

/// Whether one text is the other with its first two letters exchanged.
fn are_exchanged(from: &[u8], to: &[u8]) -> bool
    ensures { result ≡ are_exchanged (map to_ascii_lowercase from.now) (map to_ascii_lowercase to.now) }
{
    match (from, to) {
        ([a, b, from @ ..], [c, d, to @ ..]) => {
            a.eq_ignore_ascii_case(d) && b.eq_ignore_ascii_case(c) && is_word(to, from)
        }
        _ => false,
    }
}
