//! What the tests' allocator refuses, counts and gives back. Each test that refuses growths stands on it.

use crate::expecting::{expect, expect_count};
use std::alloc::{AllocError, Global};
use std::process::Abort;
use tests_fixtures::{MOST_RUNS, Refusing, refuse_each};

/// A list that takes its memory of this.
type Words<'m> = Vec<u64, &'m Refusing<Global>>;

/// A `Vec` of words doubles from 4, so nine words are three growths: to 4, to 8 and to 16.
fn nine(memory: &Refusing<Global>) -> Result<Words<'_>, AllocError> {
    let mut words = Vec::new(memory);
    for word in 1..10u64 {
        words.push(word)?;
    }
    Ok(words)
}

/// Whether nine words get their memory, which they give back.
fn has_nine(rt: &impl Abort, memory: &Refusing<Global>) -> bool {
    match nine(memory) {
        Ok(words) => {
            expect_words(rt, words.as_slice(), &[1, 2, 3, 4, 5, 6, 7, 8, 9]);
            drop(words);
            true
        }
        Err(AllocError) => false,
    }
}

/// Whether a byte gets memory, which it gives back.
fn has_byte(memory: &Refusing<Global>) -> bool {
    Box::new(memory, 7u8).is_ok()
}

/// `count` growths were refused.
fn expect_refused(rt: &impl Abort, memory: &Refusing<Global>, count: u64) {
    expect_count(rt, memory.refused(), count, "growths refused");
}

/// These words are those that are due.
fn expect_words(rt: &impl Abort, found: &[u64], due: &[u64]) {
    assert_eq!(rt; found, due);
}

/// The run of nine words in which growth `k` is refused. In the one after the last of them they are there.
fn expect_nine(rt: &impl Abort, memory: &Refusing<Global>, k: u64) {
    let is_last = has_nine(rt, memory);
    expect(rt, is_last == (k == 3), "nine words");
    expect_refused(rt, memory, u64::from(!is_last));
}

/// One of `k` and one more growths is refused.
fn expect_one(rt: &impl Abort, memory: &Refusing<Global>, k: u64) {
    for _ in 0..k.saturating_add(1) {
        let _ = has_byte(memory);
    }
    expect_refused(rt, memory, 1);
}

/// Runs are counted and bounded, and nothing is refused after them.
fn expect_runs(rt: &impl Abort, memory: &Refusing<Global>) {
    let runs = refuse_each(memory, |k| expect_nine(rt, memory, k));
    expect_count(rt, runs, 4, "runs of nine words");
    expect(rt, has_nine(rt, memory), "nine words");
    expect_count(rt, refuse_each(memory, |_k| {}), 1, "runs of no growth");
    let most = refuse_each(memory, |k| expect_one(rt, memory, k));
    expect_count(rt, most, MOST_RUNS, "runs");
    expect_refused(rt, memory, 0);
    expect(rt, has_byte(memory), "a byte");
}

/// Growths are passed on or refused as these say, one after another.
fn expect_passed(rt: &impl Abort, memory: &Refusing<Global>, due: &[bool]) {
    for passed in due {
        expect(rt, has_byte(memory) == *passed, "a growth");
    }
}

/// The rest is refused, and the count kept.
fn expect_rest(rt: &impl Abort, memory: &Refusing<Global>) {
    memory.refuse(1, 2);
    expect_passed(rt, memory, &[true, false, false, true]);
    expect_refused(rt, memory, 2);

    memory.refuse_rest();
    expect_refused(rt, memory, 2);
    expect_passed(rt, memory, &[false, false, false]);
    expect_refused(rt, memory, 5);

    memory.refuse(0, 0);
    expect_refused(rt, memory, 0);
    expect_passed(rt, memory, &[true]);
}

#[test]
fn growths_are_refused_and_counted(rt: HostRuntime) {
    let memory = Refusing::new(rt.alloc());
    expect_runs(&rt, &memory);
    expect_rest(&rt, &memory);
    drop(memory);
}

/// Of no words. The growth after four of them is refused, and then isn't.
fn expect_grown(rt: &impl Abort, memory: &Refusing<Global>, words: &mut Words<'_>) {
    for word in 1..5u64 {
        expect(rt, words.push(word).is_ok(), "there is memory");
    }
    memory.refuse(0, 1);
    expect(rt, words.push(5).is_err(), "a growth that is refused");
    expect_refused(rt, memory, 1);
    expect_words(rt, words.as_slice(), &[1, 2, 3, 4]);
    expect(rt, words.push(5).is_ok(), "there is memory");
    expect_refused(rt, memory, 1);
    expect_words(rt, words.as_slice(), &[1, 2, 3, 4, 5]);
}

/// Of five words, after which each growth is refused. They need none to become fewer.
fn expect_whole(rt: &impl Abort, memory: &Refusing<Global>, words: &mut Words<'_>) {
    memory.refuse(0, u64::MAX);
    expect(rt, words.pop() == Some(5), "the last word");
    words.truncate(3);
    expect_refused(rt, memory, 0);
    for k in 1..6u64 {
        expect(rt, !has_nine(rt, memory), "nine words");
        expect_refused(rt, memory, k);
    }
    expect_words(rt, words.as_slice(), &[1, 2, 3]);
}

#[test]
fn words_stay_under_refusals(rt: HostRuntime) {
    let memory = Refusing::new(rt.alloc());
    let mut words = Vec::new(&memory);
    expect_grown(&rt, &memory, &mut words);
    expect_whole(&rt, &memory, &mut words);
    drop(words);
    drop(memory);
}

/// A block of one GiB, which is given back.
fn expect_block(rt: &impl Abort, memory: &Refusing<Global>) {
    let block: Vec<u8, &Refusing<Global>> = Vec::with_capacity(memory, 1 << 30).expect(
        rt,
        "there is memory",
    );
    expect(rt, block.is_empty(), "a block");
    drop(block);
}

/// One GiB more often than 2^47 bytes of addresses have room for, so the memory has to come back each time.
/// No contract says so: a `deallocate` that keeps the block meets the trait's.
#[test]
fn memory_is_given_back(rt: HostRuntime) {
    let memory = Refusing::new(rt.alloc());
    for _ in 0..140_000u32 {
        expect_block(&rt, &memory);
    }
    drop(memory);
}
