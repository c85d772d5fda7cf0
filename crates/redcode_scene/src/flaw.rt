//! Why tokens make no expression.

use redcode_lines::has_text;
use redcode_text::{Token, TokenKind};

/// What a token is in an expression.
#[derive(Clone, Copy)]
enum Role {
    /// A number or a name.
    Value,
    Open,
    Close,
    Not,
    Sign,
    Operator,
    /// No part of any expression.
    Stranger,
}

/// Why tokens make no expression.
#[derive(Clone, Copy)]
pub enum Flaw<'l, 's> {
    SideBySide(&'l Token<'s>, &'l Token<'s>),
    /// Two `/`, as before a comment of other languages.
    Slashes(&'l Token<'s>, &'l Token<'s>),
    Stranger(&'l Token<'s>),
    /// A `!` after a value.
    Behind(&'l Token<'s>),
    /// A `)` without its `(`.
    Unopened(&'l Token<'s>),
    /// A `(` without its `)`.
    Unclosed(&'l Token<'s>),
    /// Something else at the place of a value.
    NoValue(&'l Token<'s>),
    /// The last token, after which a value is due.
    NoEnd(&'l Token<'s>),
}

impl<'l, 's> Flaw<'l, 's> {
    /// The first of the tokens that show it, and the last.
    pub fn tokens(self) -> (&'l Token<'s>, &'l Token<'s>) {
        match self {
            Flaw::SideBySide(first, last) | Flaw::Slashes(first, last) => (first, last),
            Flaw::Stranger(token)
            | Flaw::Behind(token)
            | Flaw::Unopened(token)
            | Flaw::Unclosed(token)
            | Flaw::NoValue(token)
            | Flaw::NoEnd(token) => (token, token),
        }
    }
}

/// How far an expression is read.
#[derive(Clone, Copy)]
struct Reader<'l, 's> {
    last: Option<&'l Token<'s>>,
    /// Whether a value ends with the last token.
    is_value: bool,
    /// Parentheses that are open.
    open: u32,
}

fn role_of(token: &Token<'_>) -> Role {
    match token.kind {
        TokenKind::Name | TokenKind::Number => Role::Value,
        TokenKind::Comment | TokenKind::Bad => Role::Stranger,
        TokenKind::Symbol => match token.text {
            b"(" => Role::Open,
            b")" => Role::Close,
            b"!" => Role::Not,
            b"+" | b"-" => Role::Sign,
            b"*" | b"/" | b"%" | b"<" | b">" => Role::Operator,
            b"<=" | b">=" | b"==" | b"!=" | b"&&" | b"||" => Role::Operator,
            _ => Role::Stranger,
        },
    }
}

impl<'l, 's> Reader<'l, 's> {
    /// The flaw that a further token shows.
    fn flaw_at(&self, token: &'l Token<'s>) -> Option<Flaw<'l, 's>> {
        match (role_of(token), self.is_value, self.last) {
            (Role::Stranger, _, _) => Some(Flaw::Stranger(token)),
            (Role::Value | Role::Open, true, Some(last)) => Some(Flaw::SideBySide(last, token)),
            (Role::Not, true, _) => Some(Flaw::Behind(token)),
            (Role::Close, _, _) if self.open == 0 => Some(Flaw::Unopened(token)),
            (Role::Operator, false, Some(last)) if are_slashes(last, token) => {
                Some(Flaw::Slashes(last, token))
            }
            (Role::Close | Role::Operator, false, _) => Some(Flaw::NoValue(token)),
            _ => None,
        }
    }

    /// The reader after a further token.
    fn behind(self, token: &'l Token<'s>) -> Reader<'l, 's> {
        let role = role_of(token);
        Reader {
            last: Some(token),
            is_value: matches!(role, Role::Value | Role::Close),
            open: match role {
                Role::Open => self.open.saturating_add(1),
                Role::Close => self.open.saturating_sub(1),
                _ => self.open,
            },
        }
    }
}

/// Whether these are two `/`.
fn are_slashes(first: &Token<'_>, second: &Token<'_>) -> bool {
    has_text(first, b"/") && has_text(second, b"/")
}

/// The first flaw of some tokens, if their order shows one.
pub fn flaw_of<'l, 's>(tokens: &'l [Token<'s>]) -> Option<Flaw<'l, 's>> {
    let mut reader = Reader {
        last: None,
        is_value: false,
        open: 0,
    };
    for token in tokens {
        if let Some(flaw) = reader.flaw_at(token) {
            return Some(flaw);
        }
        reader = reader.behind(token);
    }
    match reader.last {
        Some(last) if !reader.is_value => Some(Flaw::NoEnd(last)),
        _ => unclosed(tokens),
    }
}

/// The last `(` without its `)`.
fn unclosed<'l, 's>(tokens: &'l [Token<'s>]) -> Option<Flaw<'l, 's>> {
    let mut closed: u32 = 0;
    for token in tokens.iter().rev() {
        match role_of(token) {
            Role::Close => closed = closed.saturating_add(1),
            Role::Open if closed == 0 => return Some(Flaw::Unclosed(token)),
            Role::Open => closed = closed.saturating_sub(1),
            _ => {}
        }
    }
    None
}
