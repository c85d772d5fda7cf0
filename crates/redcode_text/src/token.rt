//! The tokens of a line.

/// What a token is.
#[derive(Clone, Copy, PartialEq, Eq)]
pub enum TokenKind {
    /// A letter or `_`, then letters, digits and `_`.
    Name,
    /// Digits.
    Number,
    /// An operator, a mode or a separator.
    Symbol,
    /// A semicolon and the rest of the line.
    Comment,
    /// A byte that begins no other token.
    Bad,
}

/// A token, which borrows its text from the line.
#[derive(Clone, Copy)]
pub struct Token<'l> {
    pub text: &'l [u8],
    /// How many bytes of the line stand before it.
    pub at: u32,
    pub kind: TokenKind,
}
