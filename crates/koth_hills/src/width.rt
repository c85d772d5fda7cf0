//! How wide a text is, for people who read it on a terminal.

ghost use Rattle.std.specs.Prelude.{◌≡◌};
ghost use Rattle.koth_hills.specs.Width.{longest_line};

/// The characters that a line has at most on a terminal of the usual width.
pub(crate) const TERMINAL_WIDTH: usize = 80;

/// The bytes of the longest line of a text, without its line feed.
pub(crate) fn longest_line(text: &[u8]) -> usize
    ensures { result ≡ longest_line text.now }
{
    let mut longest: usize = 0;
    let mut before: usize = 0;
    for byte in text {
        if *byte == b'\n' {
            longest = before.max(longest);
            before = 0;
        } else {
            before += 1;
        }
    }
    before.max(longest)
}
