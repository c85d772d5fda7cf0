//! What an operation reads and makes of its registers, by the pairs of its modifier.

ghost use Rattle.std.specs.Prelude.{◌≡◌, ◌<◌, ◌≤◌, ◌==◌, nat_lt, IfSome};
ghost use Rattle.{war_types.specs.Warrior.HasNumbersBelow, mars_words.specs.{Numbers.{minus, number}, Pairs.pairs, Code.{arithmetic_of, field_of, pair_of}}, mars_operations.specs.Cells.lowered};
ghost use Rattle.mars_operations.specs.Effect.{value, with_value, calculated, have_values, all_lowered, are_zero, fall_to_zero, are_equal, numbers_equal, are_less};

use mars_words::{Arithmetic, Field, Pair, Paired, Size, Word, pairs};
use war_types::Modifier;

/// The target of an operation on numbers, and whether every pair had a value.
#[inline(always)]
pub(crate) fn calculated(
    size: Size,
    arithmetic: Arithmetic,
    modifier: Modifier,
    a: Word,
    b: Word,
    target: Word,
) -> (Word, bool)
    requires a { HasNumbersBelow size a.instr }
    requires b { HasNumbersBelow size b.instr }
    requires target { HasNumbersBelow size target.instr }
    ensures target { result.0.instr ≡ calculated size (arithmetic_of arithmetic) a.instr b.instr
        (pairs modifier) target.instr }
    ensures all { result.1 ≡ have_values size (arithmetic_of arithmetic) a.instr b.instr (pairs modifier) }
    ensures numbers { HasNumbersBelow size result.0.instr }
{
    match pairs(modifier) {
        Paired::One(p) => {
            let n = value(size, arithmetic, a, b, p);
            (with_value(size, p.target, n, target), n.is_some())
        }
        Paired::Two(p, q) => {
            let n = value(size, arithmetic, a, b, p);
            let m = value(size, arithmetic, a, b, q);
            let half = with_value(size, p.target, n, target);
            (
                with_value(size, q.target, m, half),
                n.is_some() && m.is_some(),
            )
        }
    }
}

/// The value of a pair, by the registers; `None` for a division by 0.
#[inline(always)]
fn value(size: Size, arithmetic: Arithmetic, a: Word, b: Word, pair: Pair) -> Option<u32>
    requires a { HasNumbersBelow size a.instr }
    requires b { HasNumbersBelow size b.instr }
    ensures value { result ≡ value size (arithmetic_of arithmetic) a.instr b.instr (pair_of pair) }
    ensures below { IfSome result (λ n. n < size) }
{
    size.combined(arithmetic, b.number(pair.target), a.number(pair.source))
}

/// The target with the value in one of its fields, if there is a value.
#[inline(always)]
fn with_value(size: Size, field: Field, value: Option<u32>, target: Word) -> Word
    requires value { IfSome value (λ n. n < size) }
    requires target { HasNumbersBelow size target.instr }
    ensures value { result.instr ≡ with_value (field_of field) value target.instr }
    ensures numbers { HasNumbersBelow size result.instr }
{
    match value {
        Some(n) => target.with_number(field, n),
        None => target,
    }
}

/// The target of a DJN: its fields lowered by 1.
#[inline(always)]
pub(crate) fn all_lowered(size: Size, modifier: Modifier, target: Word) -> Word
    requires some { 1 ≤ size }
    requires target { HasNumbersBelow size target.instr }
    ensures value { result.instr ≡ all_lowered size (pairs modifier) target.instr }
    ensures numbers { HasNumbersBelow size result.instr }
{
    match pairs(modifier) {
        Paired::One(p) => lowered(size, p.target, target),
        Paired::Two(p, q) => lowered(size, q.target, lowered(size, p.target, target)),
    }
}

/// The instruction with one of its numbers lowered by 1.
#[inline(always)]
fn lowered(size: Size, field: Field, i: Word) -> Word
    requires some { 1 ≤ size }
    requires numbers { HasNumbersBelow size i.instr }
    ensures value { result.instr ≡ lowered size (field_of field) i.instr }
    ensures numbers { HasNumbersBelow size result.instr }
{
    i.with_number(field, size.minus(i.number(field), 1))
}

/// Whether every B field of the pairs is 0.
#[inline(always)]
pub(crate) fn are_zero(modifier: Modifier, b: Word) -> bool
    ensures { result ≡ are_zero modifier b.instr }
{
    match pairs(modifier) {
        Paired::One(p) => b.number(p.target) == 0,
        Paired::Two(p, q) => b.number(p.target) == 0 && b.number(q.target) == 0,
    }
}

/// Whether every B field of the pairs is 0 once it is lowered by 1.
#[inline(always)]
pub(crate) fn fall_to_zero(size: Size, modifier: Modifier, b: Word) -> bool
    requires some { 1 ≤ size }
    requires b { HasNumbersBelow size b.instr }
    ensures { result ≡ fall_to_zero size modifier b.instr }
{
    match pairs(modifier) {
        Paired::One(p) => size.minus(b.number(p.target), 1) == 0,
        Paired::Two(p, q) => {
            size.minus(b.number(p.target), 1) == 0 && size.minus(b.number(q.target), 1) == 0
        }
    }
}

/// Whether all pairs are equal, and under `.I` the operations, modifiers and modes too.
#[inline(always)]
pub(crate) fn are_equal(modifier: Modifier, a: Word, b: Word) -> bool
    ensures { result ≡ are_equal modifier a.instr b.instr }
{
    match modifier {
        Modifier::I => a.equals(b),
        _ => numbers_equal(modifier, a, b),
    }
}

#[inline(always)]
fn numbers_equal(modifier: Modifier, a: Word, b: Word) -> bool
    ensures { result ≡ numbers_equal modifier a.instr b.instr }
{
    match pairs(modifier) {
        Paired::One(p) => a.number(p.source) == b.number(p.target),
        Paired::Two(p, q) => {
            a.number(p.source) == b.number(p.target) && a.number(q.source) == b.number(q.target)
        }
    }
}

/// Whether in every pair the A field is below the B field.
#[inline(always)]
pub(crate) fn are_less(modifier: Modifier, a: Word, b: Word) -> bool
    ensures { result ≡ are_less modifier a.instr b.instr }
{
    match pairs(modifier) {
        Paired::One(p) => is_less(p, a, b),
        Paired::Two(p, q) => is_less(p, a, b) && is_less(q, a, b),
    }
}

#[inline(always)]
fn is_less(pair: Pair, a: Word, b: Word) -> bool
    ensures { result ≡ nat_lt (number (field_of pair.source) a.instr) (number (field_of pair.target) b.instr) }
{
    a.number(pair.source) < b.number(pair.target)
}
