//! The walk over the lines of a source.

ghost use Rattle.std.specs.Prelude.{◌≡◌, ◌+◌, ◌<◌, ◌≤◌, ◌^◌, [], length, Ok, IfOk, OnOk};
ghost use Rattle.{redcode_text.specs.Tokens.pieces, redcode_lines.specs.{Line.labels_of, Views.line_read}};
ghost use Rattle.{redcode_names.specs.Gives.Gives, redcode_expand.specs.{Cut.{cut_walk, with_cut}, Expansion.finished, Rest.counters_of, Taken.finish_steps}};
ghost use Rattle.redcode_expand.specs.Walk.{walk_begin, closed, copied, counted, labelled, with_line, placed, statement, lined, step, step_as, IsCopied};

use crate::entry::{Entry, cut};
use crate::expanded::{Expanded, replace_each};
use crate::open_blocks::OpenBlocks;
use crate::steps::Steps;
use redcode_copies::reading_of;
use redcode_lines::{Line, LineForm, LineKind, Reading, behind_first};
use redcode_names::{NameHash, Names};
use redcode_text::{Token, Word};
use std::alloc::Allocator;
use std::marker::Model;
use war_types::{AsmFault, AsmKind, Settings};

/// The most lines that may count.
const LINE_LIMIT: u32 = 4096;

/// How far the walk has come.
#[derive(Drop)]
pub(crate) struct Walk<'s, A: Allocator + Copy> {
    pub alloc: A,
    counted: u32,
    /// Instructions so far.
    pub before: u32,
    pub names: Names<'s, A>,
    entries: Vec<Entry<'s, A>, A>,
    /// Whether an `END` was met.
    pub ended: bool,
}

impl<'s, A: Allocator + Copy> Model for Walk<'s, A> {
    ghost use Rattle.redcode_expand.specs.Walk.{WalkState, walk_state, IsWalk};

    ghost Value = { WalkState };

    ghost view = { λ w. walk_state w.counted w.before w.names w.entries.items w.ended };

    ghost invariant = { λ w. IsWalk (walk_state w.counted w.before w.names w.entries.items w.ended) };
}

impl<'s, A: Allocator + Copy> Walk<'s, A> {
    /// The walk before the first line.
    pub(crate) fn new(alloc: A, hash: NameHash) -> Self
        ensures { result ≡ walk_begin }
    {
        Walk {
            alloc,
            counted: 0,
            before: 0,
            names: Names::new(alloc, hash),
            entries: Vec::new(alloc),
            ended: false,
        }
    }

    /// Lines that were counted.
    pub(crate) fn counted(&self) -> u32
        ensures { result ≡ self.now.counted }
    {
        self.counted
    }

    /// Walks over a line within blocks.
    pub(crate) fn step(
        &mut self,
        settings: &Settings,
        blocks: &OpenBlocks<'s, A>,
        line: Reading<'_, 's>,
    ) -> Result<(), AsmFault>
        ensures step { Gives (λ _. cut_walk self.new) result (with_cut (step settings.now (counters_of blocks.now) (line_read line.entry) self.old)) }
        ensures counted { OnOk result ((self.new.counted ≡ self.old.counted + 1) × (self.old.counted < 4096)) }
    {
        let copy = blocks.copy_of(line)?;
        self.step_as(settings, reading_of(line, &copy))
    }

    /// Walks over a line as it reads.
    fn step_as(&mut self, settings: &Settings, line: Reading<'_, 's>) -> Result<(), AsmFault>
        ensures step { Gives (λ _. cut_walk self.new) result (with_cut (step_as settings.now (line_read line.entry) self.old)) }
        ensures counted { OnOk result ((self.new.counted ≡ self.old.counted + 1) × (self.old.counted < 4096)) }
    {
        match line.form {
            LineForm::Statement => self.statement(settings, line),
            LineForm::Assert => self.lined(line.number, LineKind::Assert, b"", line.tokens),
            LineForm::Name => self.lined(line.number, LineKind::Name, line.title, &[]),
            LineForm::Author => self.lined(line.number, LineKind::Author, line.title, &[]),
        }
    }

    /// Walks over the `ROF` of a block: its labels.
    pub(crate) fn close(
        &mut self,
        settings: &Settings,
        blocks: &OpenBlocks<'s, A>,
        line: Reading<'_, 's>,
    ) -> Result<(), AsmFault>
        ensures closed { Gives (λ _. self.new) result (closed settings.now (counters_of blocks.now) (line_read line.entry) self.old) }
        ensures before { self.new.before ≡ self.old.before }
        ensures counted { self.new.counted ≡ self.old.counted }
    {
        let copy = blocks.copy_of(line)?;
        self.label(settings, reading_of(line, &copy))
    }

    /// Ends a copy that began when `start` lines were counted. A copy in which no line counted counts as one.
    pub(crate) fn end_copy(&mut self, number: u32, start: u32) -> Result<(), AsmFault>
        ensures copied { Gives (λ _. self.new) result (copied number start self.old) }
        ensures goes_on { OnOk result (self.new.ended ≡ self.old.ended) }
        ensures counted { OnOk result (IsCopied start self.old.counted self.new.counted) }
    {
        if self.counted == start {
            self.count(number)?;
        }
        Ok(())
    }

    /// The lines with the names of `EQU`s replaced in their operands, and the labels.
    pub(crate) fn finish(self, steps: &mut Steps) -> Result<Expanded<'s, A>, AsmFault>
        ensures steps { steps.old ≤ steps.new + 2 ^ 32 }
        ensures less { steps.new ≤ steps.old }
        ensures plain { self.entry.names.equs ≡ [] → steps.new ≡ steps.old }
        ensures taken { steps.old ≤ steps.new + finish_steps self.entry }
        ensures lines { IfOk result (λ expanded. length expanded.lines ≤ self.entry.counted) }
        ensures expanded { Gives (λ expanded. expanded) result (finished self.entry) }
    {
        let alloc = self.alloc;
        let names = self.names;
        match replace_each(alloc, &names, self.entries, steps) {
            Ok(entries) => Ok(Expanded {
                entries,
                labels: names.labels,
            }),
            Err(fault) => Err(fault),
        }
    }

    /// A line that counts, without a word.
    fn lined(
        &mut self,
        number: u32,
        kind: LineKind,
        title: &'s [u8],
        tokens: &[Token<'s>],
    ) -> Result<(), AsmFault>
        ensures lined { Gives (λ _. cut_walk self.new) result (with_cut (lined number kind title.entry.now (pieces tokens.now) self.old)) }
        ensures counted { OnOk result ((self.new.counted ≡ self.old.counted + 1) × (self.old.counted < 4096)) }
    {
        self.count(number)?;
        self.push(number, kind, None, title, tokens)
    }

    /// A line that has tokens.
    fn statement(&mut self, settings: &Settings, line: Reading<'_, 's>) -> Result<(), AsmFault>
        ensures statement { Gives (λ _. cut_walk self.new) result (with_cut (statement settings.now (line_read line.entry) self.old)) }
        ensures counted { OnOk result ((self.new.counted ≡ self.old.counted + 1) × (self.old.counted < 4096)) }
    {
        self.count(line.number)?;
        if matches!(line.word, Some(Word::Equ)) {
            let before = self.before;
            let body = behind_first(line.tokens);
            return self
                .names
                .equate_line(settings, line.number, before, line.labels(), body);
        }
        self.label(settings, line)?;
        self.place(line)
    }

    /// A line without its labels.
    fn place(&mut self, line: Reading<'_, 's>) -> Result<(), AsmFault>
        requires before { self.old.before < self.old.counted }
        requires lines { length self.old.lines < self.old.counted }
        ensures placed { Gives (λ _. cut_walk self.new) result (Ok (cut_walk (placed (line_read line.entry) self.old))) }
        ensures counted { self.new.counted ≡ self.old.counted }
    {
        let number = line.number;
        let word = line.word;
        let tokens = line.behind_labels();
        match word {
            Some(Word::Operation(_) | Word::Pspace) => {
                self.push(number, LineKind::Operation, word, b"", tokens)?;
                self.before += 1;
                Ok(())
            }
            Some(Word::Org) => self.push(number, LineKind::Org, word, b"", tokens),
            Some(Word::End) => {
                self.push(number, LineKind::End, word, b"", tokens)?;
                self.ended = true;
                Ok(())
            }
            Some(Word::Pin) => self.push(number, LineKind::Other, word, b"", tokens),
            Some(Word::Equ | Word::For | Word::Rof) => Ok(()),
            None if tokens.is_empty() => Ok(()),
            None => self.push(number, LineKind::Other, None, b"", tokens),
        }
    }

    /// A line that counts.
    fn count(&mut self, number: u32) -> Result<(), AsmFault>
        ensures counted { Gives (λ _. self.new) result (counted number self.old) }
        ensures room { OnOk result ((self.new.before < self.new.counted) × (length self.new.lines < self.new.counted)) }
    {
        if self.counted == LINE_LIMIT {
            return Err(AsmFault {
                line: number,
                kind: AsmKind::ForLimit,
            });
        }
        self.counted += 1;
        Ok(())
    }

    /// The labels of a line, at the next instruction. Each of them took a step in the visit to the line.
    fn label(&mut self, settings: &Settings, line: Reading<'_, 's>) -> Result<(), AsmFault>
        ensures labelled { Gives (λ _. self.new) result (labelled settings.now line.entry.number (labels_of (line_read line.entry)) self.old) }
        ensures before { self.new.before ≡ self.old.before }
        ensures counted { self.new.counted ≡ self.old.counted }
        ensures lines { self.new.lines ≡ self.old.lines }
    {
        if line.word.is_some() && line.front.is_empty() {
            return Ok(());
        }
        let address = self.before;
        self.names
            .define_all(settings, line.number, address, line.labels())
    }

    /// A further line of the expanded source. Of its tokens no more are kept than show what is wrong with it.
    fn push(
        &mut self,
        number: u32,
        kind: LineKind,
        word: Option<Word>,
        title: &'s [u8],
        tokens: &[Token<'s>],
    ) -> Result<(), AsmFault>
        requires { length self.old.lines < self.old.counted }
        ensures pushed { Gives (λ _. cut_walk self.new) result (Ok (cut_walk (with_line number kind word title.entry.now (pieces tokens.now) self.old))) }
        ensures counted { self.new.counted ≡ self.old.counted }
    {
        let line = Line {
            source_line: number,
            kind,
            before: self.before,
        };
        let tokens = cut(self.alloc, kind, tokens)?;
        self.entries.push(Entry {
            line,
            word,
            title,
            tokens,
        })?;
        Ok(())
    }
}
