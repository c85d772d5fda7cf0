//! A line as it was judged, with the places from which its tokens come.

use crate::definitions::{Role, definition};
use crate::judge::{faulty_line, labels_on};
use crate::scene::{Row, Scene};
use redcode_asm::Labels;
use redcode_expand::Expanded;
use redcode_lines::{Line, Span, has_text, is_name, operands_of, spans_of};
use redcode_text::{Token, TokenKind};
use std::alloc::{AllocError, Allocator};
use war_types::{AsmFault, Settings};

/// A line of the expanded source with a fault. Each of its tokens has the place of the token from which it comes, of the
/// line as it is written: a joined name that of the name before the `&`, a token of an `EQU`'s body that of its name.
#[derive(Drop)]
pub struct Judged<'e, 's, A: Allocator + Copy> {
    expanded: &'e Expanded<'s, A>,
    settings: &'e Settings,
    pub line: Line,
    /// The tokens of the line as it is written, from the word on.
    written: &'e [Token<'s>],
    /// Bytes of the line before the text that these come from.
    shift: u32,
    tokens: Vec<Token<'s>, A>,
}

/// The line of the expanded source that has this fault.
pub fn judged_line<'e, 's, A: Allocator + Copy>(
    scene: &'e Scene<'s, A>,
    row: &Row<'e, 's>,
    fault: AsmFault,
) -> Result<Option<Judged<'e, 's, A>>, AllocError> {
    let Some(expanded) = &scene.expanded else {
        return Ok(None);
    };
    let Some(faulty) = faulty_line(expanded, scene.settings, fault) else {
        return Ok(None);
    };
    let written = row.reading.tokens;
    match placed(scene, written, faulty.tokens) {
        Ok(tokens) => Ok(Some(Judged {
            expanded,
            settings: scene.settings,
            line: faulty.line,
            written,
            shift: row.shift,
            tokens,
        })),
        Err(error) => Err(error),
    }
}

impl<'e, 's, A: Allocator + Copy> Judged<'e, 's, A> {
    /// Its operands, or its expression.
    pub fn operands(&self) -> &[Token<'s>] {
        operands_of(self.line.kind, self.tokens.as_slice())
    }

    /// All of its tokens, from the word on.
    pub fn tokens(&self) -> &[Token<'s>] {
        self.tokens.as_slice()
    }

    /// What names stand for on it.
    pub fn names(&self) -> Labels<'e, 's, A> {
        labels_on(self.expanded, self.settings, self.line)
    }

    /// The written tokens from which one of its tokens comes: a name, with the counters that are joined to it.
    fn origin(&self, token: &Token<'_>) -> &'e [Token<'s>] {
        let written = from_place(self.written, token.at);
        &written[..written.len().min(self.width_of(written))]
    }

    /// How many of these tokens of the written line are the first one, with the counters that are joined to it.
    fn width_of(&self, written: &[Token<'_>]) -> usize {
        for (i, token) in written.iter().enumerate() {
            if i % 2 == 1 && (!has_text(token, b"&") || self.has_place(token.at)) {
                return i;
            }
        }
        written.len()
    }

    /// Whether a token comes from this place.
    fn has_place(&self, at: u32) -> bool {
        self.tokens.iter().any(|token| token.at == at)
    }

    /// The tokens that come from one of the written line: those that a name stands for.
    pub fn standing_for(&self, written: &Token<'_>) -> &[Token<'s>] {
        let rest = from_place(self.tokens.as_slice(), written.at);
        for (i, token) in rest.iter().enumerate() {
            if token.at != written.at {
                return &rest[..i];
            }
        }
        rest
    }

    /// The name or the symbol from which a token comes.
    pub fn source_of(&self, token: &Token<'_>) -> Option<&'e Token<'s>> {
        from_place(self.written, token.at).first()
    }

    /// Whether a token is a name to which counters are joined.
    pub fn is_joined(&self, token: &Token<'_>) -> bool {
        match self.origin(token) {
            [name, _, _, ..] => is_name(token) && token.text.starts_with(name.text),
            _ => false,
        }
    }

    /// Whether a token comes from the body of an `EQU`.
    pub fn is_replaced<B: Allocator + Copy>(
        &self,
        scene: &Scene<'_, B>,
        token: &Token<'_>,
    ) -> bool {
        match self.source_of(token) {
            Some(source) if is_name(source) && source.text != token.text => {
                !self.is_joined(token) && !is_number_of(scene, source, token)
            }
            _ => false,
        }
    }

    /// The place of one of its tokens.
    pub fn span(&self, token: &Token<'_>) -> Span {
        match spans_of(self.shift, self.origin(token)) {
            Some(span) => span,
            None => self.whole(),
        }
    }

    /// From the first of some of its tokens to the last; the whole of it if there are none.
    pub fn spans(&self, tokens: &[Token<'_>]) -> Span {
        match (tokens.first(), tokens.last()) {
            (Some(first), Some(last)) => self.span(first).to(self.span(last)),
            _ => self.whole(),
        }
    }

    /// The whole of it, from the word on.
    fn whole(&self) -> Span {
        match spans_of(self.shift, self.written) {
            Some(span) => span,
            None => Span {
                from: 0,
                width: u32::MAX,
            },
        }
    }
}

/// Whether a token is the number of a copy in place of this counter.
fn is_number_of<A: Allocator + Copy>(
    scene: &Scene<'_, A>,
    name: &Token<'_>,
    token: &Token<'_>,
) -> bool {
    matches!(token.kind, TokenKind::Number)
        && definition(scene, Role::Counter, name.text, u32::MAX).is_some()
}

/// These tokens from the one at this place on.
fn from_place<'t, 's>(tokens: &'t [Token<'s>], at: u32) -> &'t [Token<'s>] {
    for (i, token) in tokens.iter().enumerate() {
        if token.at == at {
            return &tokens[i..];
        }
    }
    &[]
}

/// The tokens of a line as it was judged, each at the place from which it comes among the written ones.
fn placed<'s, A: Allocator + Copy>(
    scene: &Scene<'_, A>,
    written: &[Token<'s>],
    judged: &[Token<'s>],
) -> Result<Vec<Token<'s>, A>, AllocError> {
    let mut tokens = Vec::with_capacity(scene.alloc, judged.len())?;
    match place_all(written, judged, &mut tokens) {
        Ok(()) => Ok(tokens),
        Err(error) => Err(error),
    }
}

/// Appends the judged tokens, each at its place.
fn place_all<'s, A: Allocator>(
    written: &[Token<'s>],
    judged: &[Token<'s>],
    tokens: &mut Vec<Token<'s>, A>,
) -> Result<(), AllocError> {
    let mut done: usize = 0;
    let mut joined: usize = 0;
    for (i, first) in written.iter().enumerate() {
        let (_, rest) = judged.split_at(judged.len().min(done));
        let run = if joined > 0 {
            Run {
                count: 0,
                joined: joined - 1,
            }
        } else {
            run_from(first, &written[i + 1..], rest)
        };
        let (these, _) = rest.split_at(rest.len().min(run.count));
        put_at(these, first.at, tokens)?;
        done = done.saturating_add(run.count);
        joined = run.joined;
    }
    let (_, rest) = judged.split_at(judged.len().min(done));
    put_at(rest, 0, tokens)
}

/// Appends tokens that come from this place.
fn put_at<'s, A: Allocator>(
    these: &[Token<'s>],
    at: u32,
    tokens: &mut Vec<Token<'s>, A>,
) -> Result<(), AllocError> {
    for token in these {
        let Token { text, kind, .. } = *token;
        tokens.push(Token { text, at, kind })?;
    }
    Ok(())
}

/// What comes from a token of a line as it is written.
#[derive(Clone, Copy)]
struct Run {
    /// How many judged tokens come from it.
    count: usize,
    /// How many tokens after it are joined to it.
    joined: usize,
}

/// How many judged tokens come from the first written one, and how many of those after it are joined to it.
fn run_from(first: &Token<'_>, behind: &[Token<'_>], judged: &[Token<'_>]) -> Run {
    let stays = match judged {
        [token, ..] => token.text == first.text,
        [] => true,
    };
    if stays || !is_name(first) {
        return Run {
            count: 1,
            joined: 0,
        };
    }
    let joined = joined_tokens(behind, judged);
    let (_, behind) = behind.split_at(behind.len().min(joined));
    let count = count_before(behind, judged).unwrap_or(judged.len());
    Run { count, joined }
}

/// How many of the written tokens are joined to a name before them that doesn't stay: each `&` and the counter after it.
fn joined_tokens(behind: &[Token<'_>], judged: &[Token<'_>]) -> usize {
    for (i, token) in behind.iter().enumerate() {
        if i % 2 == 0 && (!has_text(token, b"&") || count_before(&behind[i..], judged).is_some()) {
            return i;
        }
    }
    behind.len()
}

/// The least number of judged tokens, one at least, after which the written ones follow.
fn count_before(written: &[Token<'_>], judged: &[Token<'_>]) -> Option<usize> {
    for i in 0..judged.len() {
        if follow(written, &judged[i + 1..]) {
            return Some(i + 1);
        }
    }
    None
}

/// Whether judged tokens begin with these written ones, up to a name that doesn't stay, or end with them.
fn follow(written: &[Token<'_>], judged: &[Token<'_>]) -> bool {
    let mut judged = judged;
    for token in written {
        let [first, behind @ ..] = judged else {
            return false;
        };
        if first.text != token.text || first.at != token.at {
            return is_name(token);
        }
        judged = behind;
    }
    judged.is_empty()
}
