//! What tests expect of a run.

use crate::program::{Manner, Ran, Stage, whole};
use std::process::Abort;

/// What a run writes, how its errors begin, its status, and how many growths it is refused.
#[derive(Clone, Copy)]
pub(crate) struct Due<'d> {
    pub output: &'d [u8],
    pub errors: &'d str,
    pub status: u8,
    pub refused: u64,
}

/// A run with the words of this line, without growth `k`.
pub(crate) fn ran<S: Stage>(rt: &impl Abort, stage: &S, k: u64, line: &str, manner: Manner) -> Ran {
    stage.run(k, line, manner).expect(rt, "there is memory")
}

/// Such a run does what is due. How many reads there were is the answer.
pub(crate) fn check_over<S: Stage>(
    rt: &impl Abort,
    stage: &S,
    k: u64,
    line: &str,
    manner: Manner,
    due: &Due<'_>,
) -> u64 {
    let ran = ran(rt, stage, k, line, manner);
    expect_due(rt, &ran, line, k, due);
    let reads = ran.reads;
    drop(ran);
    reads
}

/// The same with this input, over streams that don't fail.
pub(crate) fn check<S: Stage>(
    rt: &impl Abort,
    stage: &S,
    k: u64,
    line: &str,
    input: &'static str,
    due: &Due<'_>,
) {
    check_over(rt, stage, k, line, whole(input), due);
}

/// A run did what is due.
fn expect_due(rt: &impl Abort, ran: &Ran, line: &str, k: u64, due: &Due<'_>) {
    let (output, errors) = (ran.output.as_slice(), ran.errors.as_slice());
    let is_due = ran.status == due.status && ran.refused == due.refused;
    let begins = errors.starts_with(due.errors.as_bytes());
    let is_told = begins && errors.is_empty() == due.errors.is_empty();
    expect(rt, is_due, line, k, "another status, or other refusals");
    expect(rt, output == due.output, line, k, text_in(output));
    expect(rt, is_told, line, k, text_in(errors));
}

/// This holds of the run with these words and without growth `k`.
pub(crate) fn expect(rt: &impl Abort, holds: bool, line: &str, k: u64, found: &str) {
    assert!(rt; holds, "{line} at {k}: {found}");
}

/// The text of these bytes, or a remark if they are not UTF-8.
pub(crate) fn text_in(bytes: &[u8]) -> &str {
    str::from_utf8(bytes).unwrap_or("bytes that are no text")
}
