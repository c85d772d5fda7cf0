//! The first line of a source.

ghost use Rattle.std.specs.Prelude.{◌≡◌, ◌<◌, ◌≤◌, ◌∷◌, length};
ghost use Rattle.redcode_lines.specs.Source.{lines_of};

/// The first line without the line feed that ends it, and what is after that.
pub(crate) fn first_line(source: &[u8]) -> (&[u8], &[u8])
    requires { 0 < length source.now }
    ensures lines { lines_of source.entry.now ≡ result.0.now ∷ lines_of result.1.now }
    ensures shorter { length result.1.now < length source.entry.now }
    ensures short { length result.0.now ≤ length source.entry.now }
{
    for (i, byte) in source.iter().enumerate() {
        if *byte == b'\n' {
            return (&source[..i], &source[i + 1..]);
        }
    }
    source.split_at(source.len())
}
