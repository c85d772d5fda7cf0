//! What a copy of a line is under one counter.

ghost use Rattle.std.specs.Prelude.{◌≡◌, ◌≤◌, ◌++◌, length, Some, None, IfOk, OnOk};
ghost use Rattle.{redcode_text.specs.Tokens.pieces, redcode_lines.specs.{Line.dropped_while, Views.line_read}};
ghost use Rattle.redcode_copies.specs.{Counter.{behind_word, copied_tokens, from_word, in_copy, is_label, joined, kept, numbered, without_word}, Views.with_tokens};

use crate::counter::{Counter, Joined};
use crate::line_copy::LineCopy;
use bumpalo::Bump;
use redcode_lines::{LineForm, Reading, behind_first, has_text, is_name};
use redcode_text::{Token, Word};
use std::alloc::{AllocError, Allocator};

/// A line in the copy of this counter's number.
pub fn in_copy<'s, A: Allocator + Copy>(
    alloc: A,
    region: &'s Bump<A>,
    counter: &Counter<'s>,
    line: Reading<'_, 's>,
) -> Result<LineCopy<'s, A>, AllocError>
    ensures { IfOk result (λ copy. with_tokens (line_read line.entry) (Some copy) ≡ in_copy counter.now (line_read line.entry)) }
{
    let front = copied_front(alloc, region, counter, line.front)?;
    match copied_tokens(alloc, region, counter, line) {
        Ok(tokens) => Ok(LineCopy { front, tokens }),
        Err(error) => Err(error),
    }
}

/// The tokens before a word: no number stands for the counter among them.
fn copied_front<'s, A: Allocator + Copy>(
    alloc: A,
    region: &'s Bump<A>,
    counter: &Counter<'s>,
    tokens: &[Token<'s>],
) -> Result<Vec<Token<'s>, A>, AllocError>
    ensures { IfOk result (λ front. pieces front.items ≡ kept (joined counter.now (pieces tokens.now))) }
{
    let labels = joined_tokens(alloc, region, counter, tokens)?;
    let mut front = Vec::with_capacity(alloc, labels.len())?;
    append_kept(labels.as_slice(), &mut front)?;
    Ok(front)
}

/// The tokens of a line from its word on, or all of them if it has no word.
fn copied_tokens<'s, A: Allocator + Copy>(
    alloc: A,
    region: &'s Bump<A>,
    counter: &Counter<'s>,
    line: Reading<'_, 's>,
) -> Result<Vec<Token<'s>, A>, AllocError>
    ensures { IfOk result (λ tokens. pieces tokens.items ≡ copied_tokens counter.now line.entry.form line.entry.word (pieces line.entry.tokens.now)) }
{
    let mut out = Vec::with_capacity(alloc, line.tokens.len())?;
    match append_copied(alloc, region, counter, line, &mut out) {
        Ok(()) => Ok(out),
        Err(error) => Err(error),
    }
}

/// Appends the tokens of a line from its word on, or all of them if it has no word.
fn append_copied<'s, A: Allocator + Copy>(
    alloc: A,
    region: &'s Bump<A>,
    counter: &Counter<'s>,
    line: Reading<'_, 's>,
    out: &mut Vec<Token<'s>, A>,
) -> Result<(), AllocError>
    ensures { OnOk result (pieces out.new.items ≡ pieces out.old.items ++ copied_tokens counter.now line.entry.form line.entry.word (pieces line.entry.tokens.now)) }
{
    match (line.form, line.word) {
        (LineForm::Statement, Some(word)) => {
            append_from_word(alloc, region, counter, word, line.tokens, out)
        }
        (LineForm::Statement, None) => {
            append_without_word(alloc, region, counter, line.tokens, out)
        }
        _ => {
            let all = joined_tokens(alloc, region, counter, line.tokens)?;
            append_numbered(region, counter, all.as_slice(), out)
        }
    }
}

/// Appends the tokens of a line from this word on.
fn append_from_word<'s, A: Allocator + Copy>(
    alloc: A,
    region: &'s Bump<A>,
    counter: &Counter<'s>,
    word: Word,
    tokens: &[Token<'s>],
    out: &mut Vec<Token<'s>, A>,
) -> Result<(), AllocError>
    ensures { OnOk result (pieces out.new.items ≡ pieces out.old.items ++ from_word counter.now word (pieces tokens.now)) }
{
    let [first, behind @ ..] = tokens else {
        return Ok(());
    };
    out.push(*first)?;
    let behind = joined_tokens(alloc, region, counter, behind)?;
    append_behind(region, counter, word, behind.as_slice(), out)
}

/// Appends the tokens of a line without a word: among the names at its front no number stands for the counter.
fn append_without_word<'s, A: Allocator + Copy>(
    alloc: A,
    region: &'s Bump<A>,
    counter: &Counter<'s>,
    tokens: &[Token<'s>],
    out: &mut Vec<Token<'s>, A>,
) -> Result<(), AllocError>
    ensures { OnOk result (pieces out.new.items ≡ pieces out.old.items ++ without_word counter.now (joined counter.now (pieces tokens.now))) }
{
    let all = joined_tokens(alloc, region, counter, tokens)?;
    let all = all.as_slice();
    let behind = behind_names(all);
    append_kept(&all[..all.len() - behind.len()], out)?;
    append_numbered(region, counter, behind, out)
}

/// Appends the tokens after a word: the name of an operation's modifier stays.
fn append_behind<'s, A: Allocator + Copy>(
    region: &'s Bump<A>,
    counter: &Counter<'s>,
    word: Word,
    tokens: &[Joined<'s>],
    out: &mut Vec<Token<'s>, A>,
) -> Result<(), AllocError>
    ensures { OnOk result (pieces out.new.items ≡ pieces out.old.items ++ behind_word counter.now word tokens.now) }
{
    match (word, tokens) {
        (Word::Operation(_) | Word::Pspace, [dot, name, behind @ ..])
            if has_text(&dot.token, b".") => {
            out.push(dot.token)?;
            out.push(name.token)?;
            append_numbered(region, counter, behind, out)
        }
        _ => append_numbered(region, counter, tokens, out),
    }
}

/// The tokens from the first that is no name.
fn behind_names<'t, 's>(tokens: &'t [Joined<'s>]) -> &'t [Joined<'s>]
    ensures behind { result.now ≡ dropped_while is_label tokens.entry.now }
    ensures short { length result.now ≤ length tokens.entry.now }
{
    // Paid by the steps of a line with an `&`, as `joined_tokens` is.
    for (i, joined) in tokens.iter().enumerate() {
        if !is_name(&joined.token) {
            return &tokens[i..];
        }
    }
    &[]
}

/// The tokens, in which each name that an `&` and the counter follow is joined to the number, and whether each was joined.
fn joined_tokens<'s, A: Allocator + Copy>(
    alloc: A,
    region: &'s Bump<A>,
    counter: &Counter<'s>,
    tokens: &[Token<'s>],
) -> Result<Vec<Joined<'s>, A>, AllocError>
    ensures { IfOk result (λ all. all.items ≡ joined counter.now (pieces tokens.now)) }
{
    let mut all = Vec::with_capacity(alloc, tokens.len())?;
    let [first, behind @ ..] = tokens else {
        return Ok(all);
    };
    let mut token = *first;
    let mut is_joined = false;
    let mut rest = behind;
    // Paid by the steps of a line with an `&`: one for each token, for each block around it and for each 16 bytes of its names.
    while let [next, others @ ..] = rest {
        if counter.joins(&token, rest) {
            token = counter.joined_name(region, &token)?;
            is_joined = true;
            rest = behind_first(others);
        } else {
            all.push(Joined { is_joined, token })?;
            token = *next;
            is_joined = false;
            rest = others;
        }
    }
    all.push(Joined { is_joined, token })?;
    Ok(all)
}

/// Appends tokens as they are.
fn append_kept<'s, A: Allocator>(
    tokens: &[Joined<'s>],
    out: &mut Vec<Token<'s>, A>,
) -> Result<(), AllocError>
    ensures { OnOk result (pieces out.new.items ≡ pieces out.old.items ++ kept tokens.now) }
{
    for joined in tokens {
        // Paid by the steps of a line with an `&`, as `joined_tokens` is.
        out.push(joined.token)?;
    }
    Ok(())
}

/// Appends tokens with the number in place of the counter, but for those that were joined.
fn append_numbered<'s, A: Allocator + Copy>(
    region: &'s Bump<A>,
    counter: &Counter<'s>,
    tokens: &[Joined<'s>],
    out: &mut Vec<Token<'s>, A>,
) -> Result<(), AllocError>
    ensures { OnOk result (pieces out.new.items ≡ pieces out.old.items ++ numbered counter.now tokens.now) }
{
    for joined in tokens {
        // Paid by the steps of a line with an `&`, as `joined_tokens` is.
        out.push(counter.number_or(region, joined)?)?;
    }
    Ok(())
}
