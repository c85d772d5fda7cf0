//! The lines of a source that are not skipped.

ghost use Rattle.std.specs.Prelude.{◌≡◌, ◌+◌, ◌≤◌, ◌<◌, ◌++◌, ◌∷◌, [], None, length, take, drop, OnOk, IfOk};
ghost use Rattle.{redcode_text.specs.Tokens.pieces, redcode_lines.specs.{Source.{directive_of, lines_of, numbered_from}, Line.{source_line, statement, statement_tokens, tokens_read, without_comment}}};
ghost use Rattle.redcode_lines.specs.Block.{directive_line, line_by, source_lines};

use crate::reading::{LineForm, Reading, word_in};
use crate::source::{Directive, directive_of, first_line};
use redcode_text::{Token, TokenKind, Word, scan};
use std::alloc::{AllocError, Allocator};
use std::marker::Model;

/// A line of the source that is not skipped, without its comment.
#[derive(Drop)]
pub struct SourceLine<'s, A: Allocator> {
    number: u32,
    form: LineForm,
    word: Option<Word>,
    title: &'s [u8],
    tokens: Vec<Token<'s>, A>,
    /// Tokens before its word; 0 if it has no word.
    front: usize,
}

impl<'s, A: Allocator> Model for SourceLine<'s, A> {
    ghost use Rattle.std.specs.Prelude.{◌≤◌, length, take, drop};
    ghost use Rattle.{redcode_text.specs.Tokens.pieces, redcode_lines.specs.Line.{SourceLine, source_line}};

    ghost Value = { SourceLine };

    ghost view = { λ l. source_line l.number l.form l.word l.title.now (pieces (take l.front l.tokens.items)) (pieces (drop l.front l.tokens.items)) };

    ghost invariant = { λ l. l.front ≤ length l.tokens.items };
}

impl<'s, A: Allocator> SourceLine<'s, A> {
    ghost use Rattle.std.specs.Prelude.{◌≡◌};
    ghost use Rattle.redcode_lines.specs.Views.{line_read};

    /// Its number in the source, counted from 1.
    pub fn number(&self) -> u32
        ensures { result ≡ self.now.number }
    {
        self.number
    }

    /// The word of a statement.
    pub fn word(&self) -> Option<Word>
        ensures { result ≡ self.now.word }
    {
        self.word
    }

    /// How it reads in the source.
    pub fn reading(&self) -> Reading<'_, 's>
        ensures { line_read result ≡ self.now }
    {
        let (front, tokens) = self.tokens.as_slice().split_at(self.front);
        Reading {
            number: self.number,
            form: self.form,
            word: self.word,
            title: self.title,
            front,
            tokens,
        }
    }
}

/// The lines of a source whose first line has the number `first`. Lines that are skipped are left out.
pub fn source_lines<'s, A: Allocator + Copy>(
    alloc: A,
    first: u32,
    source: &'s [u8],
) -> Result<Vec<SourceLine<'s, A>, A>, AllocError>
    requires counted { 1 ≤ first }
    requires short { first + length source.now ≤ 65537 }
    ensures lines { IfOk result (λ lines. lines.items ≡ source_lines (numbered_from first (lines_of source.entry.now))) }
    ensures few { IfOk result (λ lines. length lines.items ≤ length source.entry.now) }
{
    let mut lines = Vec::new(alloc);
    let mut rest = source;
    let mut number = first;
    // Takes no step: each line is read once, before the walk.
    while !rest.is_empty() {
        let (line, behind) = first_line(rest);
        append_line(alloc, number, line, &mut lines)?;
        rest = behind;
        number += 1;
    }
    Ok(lines)
}

/// Appends a line of this number, if it is not skipped.
fn append_line<'s, A: Allocator + Copy>(
    alloc: A,
    number: u32,
    line: &'s [u8],
    lines: &mut Vec<SourceLine<'s, A>, A>,
) -> Result<(), AllocError>
    requires { length line.now ≤ 65536 }
    ensures { OnOk result (lines.new.items ≡ lines.old.items ++ line_by number line.entry.now (directive_of line.entry.now)) }
{
    match directive_of(line) {
        Some((directive, text)) => append_directive(alloc, number, directive, text, lines),
        None => {
            let tokens = statement_tokens(alloc, line)?;
            if tokens.is_empty() {
                return Ok(());
            }
            lines.push(statement(number, tokens))?;
            Ok(())
        }
    }
}

/// Appends a line that begins with a semicolon, if it is not skipped.
fn append_directive<'s, A: Allocator + Copy>(
    alloc: A,
    number: u32,
    directive: Directive,
    text: &'s [u8],
    lines: &mut Vec<SourceLine<'s, A>, A>,
) -> Result<(), AllocError>
    requires { length text.now ≤ 65536 }
    ensures { OnOk result (lines.new.items ≡ lines.old.items ++ directive_line number directive text.entry.now) }
{
    let line = match directive {
        Directive::Redcode | Directive::Remark => return Ok(()),
        Directive::Name => wordless(number, LineForm::Name, text, Vec::new(alloc)),
        Directive::Author => wordless(number, LineForm::Author, text, Vec::new(alloc)),
        Directive::Assert => {
            let tokens = statement_tokens(alloc, text)?;
            wordless(number, LineForm::Assert, b"", tokens)
        }
    };
    lines.push(line)?;
    Ok(())
}

/// The tokens of a line without the comment at its end.
fn statement_tokens<'s, A: Allocator + Copy>(
    alloc: A,
    line: &'s [u8],
) -> Result<Vec<Token<'s>, A>, AllocError>
    requires { length line.now ≤ 65536 }
    ensures { IfOk result (λ tokens. pieces tokens.items ≡ statement_tokens line.entry.now) }
{
    let mut tokens = scan(alloc, line)?;
    let kept = before_comment(tokens.as_slice());
    tokens.truncate(kept);
    Ok(tokens)
}

/// The number of tokens before the comment, all if there is none.
fn before_comment(tokens: &[Token<'_>]) -> usize
    ensures { pieces (take result tokens.now) ≡ without_comment (pieces tokens.now) }
{
    // Takes no step: each token of the source is passed once, before the walk.
    for (i, token) in tokens.iter().enumerate() {
        if matches!(token.kind, TokenKind::Comment) {
            return i;
        }
    }
    tokens.len()
}

fn statement<'s, A: Allocator>(number: u32, tokens: Vec<Token<'s>, A>) -> SourceLine<'s, A>
    ensures { result ≡ statement number (pieces tokens.entry.items) }
{
    let (word, front) = word_in(tokens.as_slice());
    SourceLine {
        number,
        form: LineForm::Statement,
        word,
        title: b"",
        tokens: tokens_read(word, front, tokens),
        front,
    }
}

/// The tokens of a statement that are read; `front` of them stand before its word. Of a `ROF` none is read after that word.
fn tokens_read<'s, A: Allocator>(
    word: Option<Word>,
    front: usize,
    mut tokens: Vec<Token<'s>, A>,
) -> Vec<Token<'s>, A>
    requires { front ≤ length tokens.items }
    ensures front { take front result.items ≡ take front tokens.entry.items }
    ensures tokens { pieces (drop front result.items) ≡ tokens_read word (pieces (drop front tokens.entry.items)) }
    ensures within { front ≤ length result.items }
{
    match word {
        Some(Word::Rof) => {
            tokens.truncate(front + 1);
            tokens
        }
        _ => tokens,
    }
}

/// A line that is no statement.
fn wordless<'s, A: Allocator>(
    number: u32,
    form: LineForm,
    title: &'s [u8],
    tokens: Vec<Token<'s>, A>,
) -> SourceLine<'s, A>
    ensures { result ≡ source_line number form None title.entry.now [] (pieces tokens.entry.items) }
{
    SourceLine {
        number,
        form,
        word: None,
        title,
        tokens,
        front: 0,
    }
}

/// The line after `at` others.
pub fn line_at<'l, 's, A: Allocator>(
    lines: &'l [SourceLine<'s, A>],
    at: usize,
) -> &'l SourceLine<'s, A>
    requires { at < length lines.now }
    ensures { drop at lines.entry.now ≡ result.now ∷ drop (at + 1) lines.entry.now }
{
    &lines[at]
}
