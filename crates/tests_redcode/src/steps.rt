//! How many steps an assembly may take, on both sides of what a source takes.

use crate::expecting::expect_same;
use crate::sources::defaults;
use redcode_asm::{Unassembled, assemble_within};
use std::process::Abort;

/// A source, steps, and what comes of its assembly within these. A line that is walked over is a step, in each copy of a block again, and so
/// is each of its tokens. Where the name of an `EQU` is replaced, each token of the operands and of the body is one more.
type Within = (&'static str, u64, Result<usize, Unassembled>);

/// As many steps as a source takes are spent, and one more is enough.
const WITHIN: [Within; 9] = [
    ("MOV 0, 1", 0, Err(Unassembled::StepsSpent)),
    ("MOV 0, 1", 5, Err(Unassembled::StepsSpent)),
    ("MOV 0, 1", 6, Ok(1)),
    ("MOV 0, 1", 1_000_000, Ok(1)),
    ("x EQU 2+3\nMOV x, 1", 17, Err(Unassembled::StepsSpent)),
    ("x EQU 2+3\nMOV x, 1", 18, Ok(1)),
    ("FOR 2\nMOV 0, 1\nROF", 17, Err(Unassembled::StepsSpent)),
    ("FOR 2\nMOV 0, 1\nROF", 18, Ok(2)),
    ("FOR 2\nMOV 0, 1\nROF", 1_000_000, Ok(2)),
];

/// The source is answered so within these steps.
fn check_within(rt: &(impl Abort + AllocGlobal), within: &Within) {
    let (source, steps, answer) = *within;
    let found = match assemble_within(rt.alloc(), source.as_bytes(), &defaults(rt), steps) {
        Ok(warrior) => {
            let count = warrior.code().len();
            drop(warrior);
            Ok(count)
        }
        Err(cause) => Err(cause),
    };
    expect_same(rt, &found, &answer, format_args!("{steps} steps"));
}

#[test]
fn steps(rt: HostRuntime) {
    for within in &WITHIN {
        check_within(&rt, within);
    }
}
