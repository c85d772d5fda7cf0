//! The lines of a source, with what the walk has to know of each before it reads it.
//!
//! A block without a copy counts nothing and may be met millions of times. So a `FOR` is paired with its `ROF` once, and the marks of both
//! say whether there is anything to read.

ghost use Rattle.std.specs.Prelude.{◌≡◌, ◌+◌, ◌<◌, ◌≤◌, ◌^◌, ◌∷◌, drop, length, IfOk};
ghost use Rattle.redcode_lines.specs.{Block.parsed, Views.line_read};
ghost use Rattle.redcode_expand.specs.declared.marked_lines.Edge.TheVariants.{For};
ghost use Rattle.redcode_expand.specs.Steps.{read_steps, rof_steps, steps_at, visit_steps};
ghost use Rattle.redcode_expand.specs.Marks.{edge_of, has_join, has_operands, is_bare, is_long, line_in, shortened, AreMarked, IsMarked, IsNextRof};

use crate::entry::MOST_TOKENS;
use crate::same_counts::SameCounts;
use crate::visits::visit_steps;
use redcode_lines::{LineForm, Reading, SourceLine, has_and, line_at};
use redcode_text::Word;
use std::alloc::{AllocError, Allocator};
use std::marker::Model;

/// What a line is to a block.
#[derive(Clone, Copy)]
pub(crate) enum Edge {
    /// It begins one.
    For,
    /// It ends one.
    Rof,
    Neither,
}

/// What the walk has to know of a line.
#[derive(Clone, Copy)]
pub(crate) struct Mark {
    pub edge: Edge,
    /// Whether nothing stands before its word, and no `&` after it.
    pub is_bare: bool,
    /// Whether it has too many operands in each copy.
    pub is_long: bool,
    /// The index of the `ROF` that matches this `FOR`, or that ends the block of any other line; `lines.len()` or more if there is none.
    pub rof: usize,
    /// Whether an `&` is among its tokens.
    pub joins: bool,
    /// The index of a line with the same tokens. Lines that read alike seldom have different ones.
    pub count: usize,
}

/// The lines of a source, with what the walk has to know of each.
#[derive(Drop)]
pub(crate) struct MarkedLines<'l, 's, A: Allocator> {
    lines: &'l [SourceLine<'s, A>],
    marks: Vec<Mark, A>,
}

impl<'l, 's, A: Allocator> Model for MarkedLines<'l, 's, A> {
    ghost use Rattle.{std.specs.Prelude.List, redcode_lines.specs.Line.SourceLine, redcode_expand.specs.Marks.AreMarked};

    ghost Value = { List SourceLine };

    ghost view = { λ m. m.lines.now };

    ghost invariant = { λ m. AreMarked 0 m.lines.now m.marks.items };
}

impl<'l, 's, A: Allocator + Copy> MarkedLines<'l, 's, A> {
    /// These lines.
    pub(crate) fn new(alloc: A, lines: &'l [SourceLine<'s, A>]) -> Result<Self, AllocError>
        ensures { IfOk result (λ marked. marked ≡ lines.entry.now) }
    {
        let blank = Mark {
            edge: Edge::Neither,
            is_bare: false,
            is_long: false,
            joins: false,
            rof: 0,
            count: 0,
        };
        let mut marks = vec![in alloc; blank; lines.len()]?;
        let mut same = SameCounts::new(alloc, lines.len())?;
        mark_all(lines, marks.as_mut_slice(), &mut same);
        Ok(MarkedLines { lines, marks })
    }

    /// The number of lines.
    pub(crate) fn len(&self) -> usize
        ensures { result ≡ length self.now }
    {
        self.lines.len()
    }

    /// How the line at index `at` reads.
    pub(crate) fn reading(&self, at: usize) -> Reading<'l, 's>
        requires { at < length self.now }
        ensures line { line_read result ≡ line_in self.now at }
        ensures first { drop at self.now ≡ line_read result ∷ drop (at + 1) self.now }
    {
        line_at(self.lines, at).reading()
    }

    /// The same, but for tokens that can't matter.
    pub(crate) fn shortened(&self, at: usize) -> Reading<'l, 's>
        requires { at < length self.now }
        ensures { line_read result ≡ shortened (line_in self.now at) }
    {
        let line = self.reading(at);
        let mark = self.marks[at];
        if !mark.is_long {
            return line;
        }
        let (tokens, _) = line.tokens.split_at(MOST_TOKENS);
        Reading {
            number: line.number,
            form: line.form,
            word: line.word,
            title: line.title,
            front: line.front,
            tokens,
        }
    }

    /// Its number in the source, counted from 1.
    pub(crate) fn number(&self, at: usize) -> u32
        requires { at < length self.now }
        ensures { result ≡ (line_in self.now at).number }
    {
        line_at(self.lines, at).number()
    }

    /// The steps of a visit within this number of blocks. A `FOR` pays for its `ROF` too, since a block without a copy is passed at once.
    pub(crate) fn steps(&self, at: usize, blocks: usize) -> u64
        requires { at < length self.now }
        ensures some { 0 < result }
        ensures most { result ≤ steps_at (visit_steps blocks) self.now at }
        ensures least { steps_at read_steps self.now at < 2 ^ 64 → steps_at read_steps self.now at ≤ result }
    {
        let joins = self.mark(at).joins;
        let own = visit_steps(self.shortened(at), joins, blocks);
        own.saturating_add(self.rof_steps(at, blocks))
    }

    /// The steps of the `ROF` of a `FOR`, if there is something to read in it; of any other line 0.
    fn rof_steps(&self, at: usize, blocks: usize) -> u64
        requires { at < length self.now }
        ensures most { result ≤ rof_steps (visit_steps blocks) (edge_of (line_in self.now at).word) (parsed (drop (at + 1) self.now)).1 }
        ensures least { rof_steps read_steps (edge_of (line_in self.now at).word) (parsed (drop (at + 1) self.now)).1 < 2 ^ 64 → rof_steps read_steps (edge_of (line_in self.now at).word) (parsed (drop (at + 1) self.now)).1 ≤ result }
    {
        match self.mark(at).edge {
            Edge::For => self.end_steps(at, blocks),
            Edge::Rof | Edge::Neither => 0,
        }
    }

    /// The steps of the `ROF` that belongs to the `FOR` at index `at`.
    fn end_steps(&self, at: usize, blocks: usize) -> u64
        requires { at < length self.now }
        ensures most { result ≤ rof_steps (visit_steps blocks) For (parsed (drop (at + 1) self.now)).1 }
        ensures least { rof_steps read_steps For (parsed (drop (at + 1) self.now)).1 < 2 ^ 64 → rof_steps read_steps For (parsed (drop (at + 1) self.now)).1 ≤ result }
    {
        let rof = self.mark(at).rof;
        if rof >= self.len() {
            return 0;
        }
        let end = self.mark(rof);
        if end.is_bare {
            return 0;
        }
        visit_steps(self.reading(rof), end.joins, blocks)
    }

    /// What the walk has to know of it.
    pub(crate) fn mark(&self, at: usize) -> Mark
        requires { at < length self.now }
        ensures { IsMarked self.now at result }
    {
        self.marks[at]
    }
}

impl Mark {
    /// The mark of a line. `rof` is the index of the first `ROF` after it whose `FOR` isn't after it, and `count` that of a line that
    /// reads the same.
    fn of(line: Reading<'_, '_>, rof: usize, count: usize) -> Mark
        ensures edge { result.edge ≡ edge_of (line_read line.entry).word }
        ensures bare { result.is_bare ≡ is_bare (line_read line.entry) }
        ensures long { result.is_long ≡ is_long (line_read line.entry) }
        ensures joins { result.joins ≡ has_join (line_read line.entry) }
        ensures rof { result.rof ≡ rof }
        ensures count { result.count ≡ count }
    {
        Mark {
            edge: edge_of(line.word),
            is_bare: line.front.is_empty() && !has_and(line.tokens),
            is_long: is_long(line),
            joins: has_and(line.front) || has_and(line.tokens),
            rof,
            count,
        }
    }
}

/// Whether a line has too many operands in each copy.
fn is_long(line: Reading<'_, '_>) -> bool
    ensures { result ≡ is_long (line_read line.entry) }
{
    line.tokens.len() > MOST_TOKENS
        && has_operands(line.form, line.word)
        && !has_and(line.front)
        && !has_and(line.tokens)
}

/// Whether a line of this form and word has operands or an expression.
fn has_operands(form: LineForm, word: Option<Word>) -> bool
    ensures { result ≡ has_operands form word }
{
    match (form, word) {
        (LineForm::Assert, _) => true,
        (LineForm::Statement, Some(word)) => matches!(
            word,
            Word::Operation(_) | Word::Pspace | Word::Org | Word::End
        ),
        _ => false,
    }
}

/// What a line with this word is to a block.
fn edge_of(word: Option<Word>) -> Edge
    ensures { result ≡ edge_of word }
{
    match word {
        Some(Word::For) => Edge::For,
        Some(Word::Rof) => Edge::Rof,
        _ => Edge::Neither,
    }
}

/// Marks each line, the last one first, so that the `ROF`s after a line are known. Each is read once, before the first step.
fn mark_all<A: Allocator>(lines: &[SourceLine<'_, A>], marks: &mut [Mark], same: &mut SameCounts<A>)
    requires { length marks.old ≡ length lines.now }
    ensures { AreMarked 0 lines.now marks.new }
{
    let mut rof = lines.len();
    let mut at = lines.len();
    while at > 0 {
        at -= 1;
        let count = same.count_of(lines, at);
        marks[at] = Mark::of(line_at(lines, at).reading(), rof, count);
        rof = rof_from(lines, marks, at);
    }
}

/// The index of the first `ROF` from the line at `at` on whose `FOR` isn't among these lines; `lines.len()` or more if there is none.
fn rof_from<A: Allocator>(lines: &[SourceLine<'_, A>], marks: &[Mark], at: usize) -> usize
    requires some { at < length lines.now }
    requires marked { AreMarked at lines.now marks.now }
    ensures { IsNextRof lines.now at result }
{
    let mark = marks[at];
    match mark.edge {
        Edge::For => {
            if mark.rof < lines.len() {
                marks[mark.rof].rof
            } else {
                mark.rof
            }
        }
        Edge::Rof => at,
        Edge::Neither => mark.rof,
    }
}
