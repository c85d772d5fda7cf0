//! The blocks whose copies are being written.

ghost use Rattle.std.specs.Prelude.{◌≡◌, ◌+◌, ◌≤◌, ◌∷◌, [], length, take, drop, false, ⊤, None, Some, IfOk, OnOk, MatchOption};
ghost use Rattle.{redcode_text.specs.Tokens.pieces, redcode_lines.specs.Views.line_read};
ghost use Rattle.redcode_copies.specs.{Counter.in_copies, Plain.has_join, Views.with_tokens};
ghost use Rattle.{redcode_names.specs.Name.address_of, redcode_expand.specs.Rest.{ArePlaced, counters_in, counters_of, place_in}};

use crate::open_block::OpenBlock;
use bumpalo::Bump;
use redcode_copies::{Counters, LineCopy, in_copy, plain_copy, reading_of};
use redcode_lines::{Reading, has_text, is_name};
use redcode_names::{CounterNames, NameHash};
use redcode_text::Token;
use std::alloc::{AllocError, Allocator};
use std::marker::Model;

/// The most blocks that are compared one after another, since a name's hash takes longer.
const FEW: usize = 8;

/// The blocks whose copies are being written, the innermost first.
#[derive(Drop)]
pub(crate) struct OpenBlocks<'s, A: Allocator + Copy> {
    alloc: A,
    region: &'s Bump<A>,
    blocks: Vec<OpenBlock<'s>, A>,
    /// For each counter's name the index of the outermost block that has it, and one that no block of the name is behind.
    names: CounterNames<'s, A>,
}

impl<'s, A: Allocator + Copy> Model for OpenBlocks<'s, A> {
    ghost use Rattle.{std.specs.Prelude.{List, reverse}, redcode_expand.specs.Rest.{OpenBlock, ArePlaced}};

    ghost Value = { List OpenBlock };

    ghost view = { λ b. reverse b.blocks.items };

    ghost invariant = { λ b. ArePlaced b.names b.blocks.items };
}

impl<'s, A: Allocator + Copy> OpenBlocks<'s, A> {
    /// No block. The tokens that copies make will lie in the region.
    pub(crate) fn new(alloc: A, region: &'s Bump<A>, hash: NameHash) -> Self
        ensures { result ≡ [] }
    {
        OpenBlocks {
            alloc,
            region,
            blocks: Vec::new(alloc),
            names: CounterNames::new(alloc, hash),
        }
    }

    /// How many there are.
    pub(crate) fn count(&self) -> usize
        ensures { result ≡ length self.now }
    {
        self.blocks.len()
    }

    /// Adds a block within the others.
    pub(crate) fn push(&mut self, block: OpenBlock<'s>) -> Result<(), AllocError>
        ensures { OnOk result (self.new ≡ block.entry ∷ self.old) }
    {
        place_next(&mut self.names, self.blocks.as_slice(), block.name())?;
        self.blocks.push(block)?;
        Ok(())
    }

    /// Removes the innermost block.
    pub(crate) fn pop(&mut self) -> Option<OpenBlock<'s>>
        ensures { MatchOption result ((self.old ≡ []) × (self.new ≡ [])) (λ block. self.old ≡ block ∷ self.new) }
    {
        self.blocks.pop()
    }

    /// The copy of a line within the copies that are being written; `None` if it reads as it stands in the source.
    pub(crate) fn copy_of(
        &self,
        line: Reading<'_, 's>,
    ) -> Result<Option<LineCopy<'s, A>>, AllocError>
        ensures { IfOk result (λ copy. with_tokens (line_read line.entry) copy ≡ in_copies (counters_of self.now) (line_read line.entry)) }
    {
        let blocks = self.blocks.as_slice();
        in_blocks(self.alloc, self.region, &self.names, blocks, line)
    }
}

/// The next of the open blocks, from the index `from` on.
#[derive(Drop)]
struct NextBlocks<'b, 's, A: Allocator + Copy> {
    names: &'b CounterNames<'s, A>,
    blocks: &'b [OpenBlock<'s>],
    from: usize,
    count: usize,
}

impl<'b, 's, A: Allocator + Copy> Model for NextBlocks<'b, 's, A> {
    ghost use Rattle.std.specs.Prelude.{◌≤◌, List, drop, length, take};
    ghost use Rattle.redcode_expand.specs.Rest.{OpenBlock, ArePlaced};

    ghost Value = { List OpenBlock };

    ghost view = { λ b. take b.count (drop b.from b.blocks.now) };

    ghost invariant = { λ b. ArePlaced b.names.now b.blocks.now × (b.from ≤ length b.blocks.now) };
}

impl<A: Allocator + Copy> Counters for NextBlocks<'_, '_, A> {
    ghost counters = { λ blocks. counters_in blocks };

    fn number_of(&self, name: &[u8]) -> Option<u64> {
        if self.count == 0 {
            return None;
        }
        let place = place_from(self.names, self.blocks, self.from, name)?;
        if place >= self.count {
            return None;
        }
        let block = &self.blocks[self.from + place];
        Some(block.copy())
    }
}

/// The copy of a line within copies of these blocks, the outermost first. All counters up to the next that follows an `&` are replaced at once.
fn in_blocks<'s, A: Allocator + Copy>(
    alloc: A,
    region: &'s Bump<A>,
    names: &CounterNames<'s, A>,
    blocks: &[OpenBlock<'s>],
    line: Reading<'_, 's>,
) -> Result<Option<LineCopy<'s, A>>, AllocError>
    requires { ArePlaced names.now blocks.now }
    ensures { IfOk result (λ copy. with_tokens (line_read line.entry) copy ≡ in_copies (counters_in blocks.now) (line_read line.entry)) }
{
    let mut copy = None;
    let mut from = 0;
    while from < blocks.len() {
        let count = unjoined(names, blocks, from, reading_of(line, &copy));
        let next = NextBlocks {
            names,
            blocks,
            from,
            count,
        };
        copy = plain_copy(alloc, region, &next, line, copy)?;
        from += count;
        if from == blocks.len() {
            return Ok(copy);
        }
        let block = &blocks[from];
        let written = in_copy(alloc, region, &block.counter, reading_of(line, &copy))?;
        copy = Some(written);
        from += 1;
    }
    Ok(copy)
}

/// The number of blocks from this index on before the first whose counter follows an `&` in the line; all if there is none.
fn unjoined<A: Allocator + Copy>(
    names: &CounterNames<'_, A>,
    blocks: &[OpenBlock<'_>],
    from: usize,
    line: Reading<'_, '_>,
) -> usize
    requires placed { ArePlaced names.now blocks.now }
    requires within { from ≤ length blocks.now }
    ensures within { from + result ≤ length blocks.now }
    ensures front { has_join (counters_in (take result (drop from blocks.now))) false (line_read line.entry).front ≡ false }
    ensures tokens { has_join (counters_in (take result (drop from blocks.now))) false (line_read line.entry).tokens ≡ false }
{
    let most = blocks.len() - from;
    let front = unjoined_in(names, blocks, from, most, line.front);
    unjoined_in(names, blocks, from, front, line.tokens)
}

/// The number of blocks from this index on before the first whose counter follows an `&` among the tokens; `most` if there are more.
fn unjoined_in<A: Allocator + Copy>(
    names: &CounterNames<'_, A>,
    blocks: &[OpenBlock<'_>],
    from: usize,
    most: usize,
    tokens: &[Token<'_>],
) -> usize
    requires placed { ArePlaced names.now blocks.now }
    requires within { from ≤ length blocks.now }
    ensures most { result ≤ most }
    ensures none { has_join (counters_in (take result (drop from blocks.now))) false (pieces tokens.now) ≡ false }
{
    let mut count = most;
    let mut is_behind_and = false;
    for token in tokens {
        if count == 0 {
            return 0;
        }
        if is_behind_and && is_name(token) {
            count = before(count, place_from(names, blocks, from, token.text));
        }
        is_behind_and = has_text(token, b"&");
    }
    count
}

/// The lesser of a number and of a place, if there is one.
fn before(count: usize, place: Option<usize>) -> usize
    ensures most { result ≤ count }
    ensures place { MatchOption place ⊤ (λ place. result ≤ place) }
{
    match place {
        Some(place) => count.min(place),
        None => count,
    }
}

/// The place of the first block of this name among those from this index on, counted from there.
fn place_from<A: Allocator + Copy>(
    names: &CounterNames<'_, A>,
    blocks: &[OpenBlock<'_>],
    from: usize,
    name: &[u8],
) -> Option<usize>
    requires placed { ArePlaced names.now blocks.now }
    requires within { from ≤ length blocks.now }
    ensures { result ≡ place_in (drop from blocks.now) name.now }
{
    let place = place_of(names, blocks, name)?;
    if place >= from {
        return Some(place - from);
    }
    match names.last_of(name) {
        Some(last) if last < from => None,
        _ => place_among(&blocks[from..], name),
    }
}

/// The index of the first block of this name.
fn place_of<A: Allocator + Copy>(
    names: &CounterNames<'_, A>,
    blocks: &[OpenBlock<'_>],
    name: &[u8],
) -> Option<usize>
    requires { ArePlaced names.now blocks.now }
    ensures { result ≡ place_in blocks.now name.now }
{
    if blocks.len() <= FEW {
        return place_among(blocks, name);
    }
    let place = names.first_of(name)?;
    if place >= blocks.len() {
        return None;
    }
    let block = &blocks[place];
    if block.is_named(name) {
        Some(place)
    } else {
        None
    }
}

/// The same, found by comparing one block after another.
fn place_among(blocks: &[OpenBlock<'_>], name: &[u8]) -> Option<usize>
    ensures { result ≡ place_in blocks.now name.now }
{
    for (i, block) in blocks.iter().enumerate() {
        if block.is_named(name) {
            return Some(i);
        }
    }
    None
}

/// Gives a name the index of the next block: as its innermost, and as its outermost if no counter of these blocks has it.
fn place_next<'s, A: Allocator + Copy>(
    names: &mut CounterNames<'s, A>,
    blocks: &[OpenBlock<'s>],
    name: &'s [u8],
) -> Result<(), AllocError>
    requires { ArePlaced names.old blocks.now }
    ensures placed { ArePlaced names.new blocks.now }
    ensures first { OnOk result (place_in blocks.now name.entry.now ≡ None → address_of names.new.firsts name.entry.now ≡ Some (length blocks.now)) }
    ensures last { OnOk result (address_of names.new.lasts name.entry.now ≡ Some (length blocks.now)) }
{
    first_next(names, blocks, name)?;
    names.set_last(name, blocks.len())?;
    Ok(())
}

/// Gives a name the index of the next block as its outermost, if no counter of these blocks has it.
fn first_next<'s, A: Allocator + Copy>(
    names: &mut CounterNames<'s, A>,
    blocks: &[OpenBlock<'s>],
    name: &'s [u8],
) -> Result<(), AllocError>
    requires { ArePlaced names.old blocks.now }
    ensures placed { ArePlaced names.new blocks.now }
    ensures first { OnOk result (place_in blocks.now name.entry.now ≡ None → address_of names.new.firsts name.entry.now ≡ Some (length blocks.now)) }
{
    if place_of(names, blocks, name).is_none() {
        names.set_first(name, blocks.len())?;
    }
    Ok(())
}
