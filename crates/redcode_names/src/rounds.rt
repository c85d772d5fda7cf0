//! The replacement of the names of EQUs, in 16 rounds at most.

ghost use Rattle.std.specs.{Prelude.{◌≡◌, ◌≤◌, ◌+◌, ◌/◌, suc, [], length}, Cow.cow_slice_items};
ghost use Rattle.{war_types.specs.declared.fault.AsmKind.TheVariants.EquLimit, redcode_text.specs.Tokens.{piece_of, pieces}};
ghost use Rattle.redcode_names.specs.{Gives.{Gives, fault_at}, Equ.replaced, Written.{has_name, appended, written}, Steps.{token_steps, rounds_steps, replacing_steps}};

use crate::equs::Equs;
use redcode_lines::is_name;
use redcode_text::Token;
use std::alloc::Allocator;
use std::borrow::CowSlice;
use war_types::{AsmFault, AsmKind};

/// Rounds of replacement.
const ROUNDS: u32 = 16;

/// Tokens that the operands of a line may have.
pub const TOKEN_LIMIT: usize = 512;

/// The tokens of a count with the names of EQUs replaced. Tokens without such a name are borrowed. `work` rises by the steps that it takes.
#[tactic(auto, using(crate::proofs::Unchanged::kept))]
pub fn replaced<'t, 's, A: Allocator + Copy>(
    alloc: A,
    equs: &Equs<'s, A>,
    line: u32,
    tokens: &'t [Token<'s>],
    work: &mut u64,
) -> Result<CowSlice<'t, Token<'s>, A>, AsmFault>
    ensures replaced { Gives (λ tokens. pieces (cow_slice_items tokens)) result (replaced line equs.now (pieces tokens.entry.now)) }
    ensures work { work.new ≤ work.old + replacing_steps equs.now (pieces tokens.entry.now) }
{
    if !equs.are_among(tokens) {
        if tokens.len() > TOKEN_LIMIT {
            return Err(too_many(line));
        }
        return Ok(CowSlice::Borrowed(tokens));
    }
    let all = written(alloc, equs, line, tokens, work)?;
    Ok(CowSlice::Owned(all))
}

/// Tokens with the names of EQUs replaced. `work` rises by the steps that it takes.
#[tactic(auto, using(crate::proofs::Unchanged::all_replaced))]
pub fn written<'s, A: Allocator + Copy>(
    alloc: A,
    equs: &Equs<'s, A>,
    line: u32,
    tokens: &[Token<'s>],
    work: &mut u64,
) -> Result<Vec<Token<'s>, A>, AsmFault>
    ensures replaced { Gives (λ tokens. pieces tokens.items) result (replaced line equs.now (pieces tokens.now)) }
    ensures work { work.new ≤ work.old + rounds_steps 16 equs.now (pieces tokens.now) }
{
    let mut out = Vec::with_capacity(alloc, tokens.len())?;
    match write(equs, line, ROUNDS, tokens, &mut out, work) {
        Ok(()) => Ok(out),
        Err(fault) => Err(fault),
    }
}

/// Appends what tokens become in `rounds` rounds: each token goes down through the bodies, one round deeper with each.
#[tactic(auto, using(crate::proofs::Replacing::steps))]
fn write<'s, A: Allocator + Copy>(
    equs: &Equs<'s, A>,
    line: u32,
    rounds: u32,
    tokens: &[Token<'s>],
    out: &mut Vec<Token<'s>, A>,
    work: &mut u64,
) -> Result<(), AsmFault>
    ensures written { Gives (λ _. pieces out.new.items) result (written (suc rounds) line equs.now (pieces out.old.items) (pieces tokens.now)) }
    ensures work { work.new ≤ work.old + rounds_steps rounds equs.now (pieces tokens.now) }
{
    if !has_name(tokens) {
        return append(line, tokens, out, work);
    }
    for token in tokens {
        *work = work.saturating_add(work_of(token));
        let body = equs.body_at(token);
        if !body.is_empty() {
            if rounds == 0 {
                return Err(too_many(line));
            }
            write(equs, line, rounds - 1, body, out, work)?;
            continue;
        }
        if out.len() >= TOKEN_LIMIT {
            return Err(too_many(line));
        }
        out.push(*token)?;
    }
    Ok(())
}

/// Whether a name is among the tokens.
fn has_name(tokens: &[Token<'_>]) -> bool
    ensures { result ≡ has_name (pieces tokens.now) }
{
    for token in tokens {
        // Paid by `work` for the body's name, and for each of its tokens if one is a name; a body keeps 513 tokens at most.
        if is_name(token) {
            return true;
        }
    }
    false
}

/// Appends tokens among which no name is, all at once. They take as many steps as they would one by one.
#[tactic(auto, using(crate::proofs::Replacing::appends))]
fn append<'s, A: Allocator>(
    line: u32,
    tokens: &[Token<'s>],
    out: &mut Vec<Token<'s>, A>,
    work: &mut u64,
) -> Result<(), AsmFault>
    ensures appended { Gives (λ _. pieces out.new.items) result (appended line (pieces out.old.items) (pieces tokens.now)) }
    ensures work { work.new ≤ work.old + token_steps (pieces tokens.now) }
{
    let mut steps = *work;
    // Counts in `work` what it appends.
    for token in tokens {
        steps = steps.saturating_add(work_of(token));
    }
    *work = steps;
    if tokens.len() > TOKEN_LIMIT.saturating_sub(out.len()) {
        return Err(too_many(line));
    }
    out.extend_from_slice(tokens)?;
    Ok(())
}

/// The steps of a token that is looked up: its name is read.
fn work_of(token: &Token<'_>) -> u64
    ensures { result ≡ 1 + length (piece_of token.now).text / 32 }
{
    1 + (token.text.len() / 32) as u64
}

pub fn too_many(line: u32) -> AsmFault
    ensures { result ≡ fault_at line EquLimit }
{
    AsmFault {
        line,
        kind: AsmKind::EquLimit,
    }
}
