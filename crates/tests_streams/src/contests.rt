//! Each growth of memory of a contest or an explanation refused in turn: what was written before is.

use crate::expecting::{expect, ran, text_in};
use crate::growths::{put, remove, small};
use crate::program::{Ran, Stage, Trial, on_host, whole};
use std::process::Abort;
use tests_fixtures::MOST_RUNS;

/// A command that writes line by line, or a page, and its input; what it writes, and its status.
#[derive(Clone, Copy)]
struct Contest {
    line: &'static str,
    input: &'static str,
    output: &'static str,
    status: u8,
    /// Whether it explains what it writes. Without memory for that it is done all the same.
    explains: bool,
}

macro_rules! contests {
    ($($line:expr, $input:expr => $output:expr, $status:expr, $explains:expr;)*) => {
        [$(Contest { line: $line, input: $input, output: $output, status: $status, explains: $explains }),*]
    };
}

static CONTESTS: [Contest; 6] = contests! {
    small!("koth fight stays.growths dat.growths stays.growths"), ""
        => "2 0 0 6 dat.growths\n0 0 2 2 stays.growths\n2 0 2 8\n", 0, false;
    small!("koth fight - dat.growths stays.growths --both --name stays"), "JMP 0\n"
        => "4 0 0 12 dat.growths\n0 0 4 4 stays.growths\n4 0 4 16\n", 0, false;
    small!("koth fight stays.growths field.growths"), "" => "2 0 0 6 field.growths/dat.red\n2 0 0 6\n", 0, false;
    small!("koth fight stays.growths dat.growths --each"), "" => "1 7 17 A A 2\n2 117649 29 B A 1\n", 0, false;
    small!("koth replay stays.growths dat.growths --won -o growths.html"), "" => "", 0, true;
    "koth asm", "MOV 0, 1\nMVO 0, 1\n" => "REFUSED 2 BadOperation\n", 1, true;
};

/// The sources of these.
static SOURCES: [(&str, &[u8]); 3] = [
    ("stays.growths", b"JMP 0\n"),
    ("dat.growths", b"DAT 0\n"),
    ("field.growths/dat.red", b"DAT 0\n"),
];

/// A contest without growth `k`. Whether it took no more growths is the answer.
fn is_done<S: Stage>(rt: &impl Abort, stage: &S, k: u64, contest: &Contest) -> bool {
    let ran = ran(rt, stage, k, contest.line, whole(contest.input));
    let (status, has_all) = (ran.status, ran.refused == 0);
    if has_all || contest.explains && status == contest.status {
        expect_done(rt, &ran, k, contest, has_all);
        expect(
            rt,
            status == contest.status,
            contest.line,
            k,
            "another status",
        );
    } else {
        expect_begun(rt, &ran, k, contest);
        expect(rt, status == 4, contest.line, k, "another status");
    }
    drop(ran);
    has_all
}

/// A run wrote all that this command writes, and explained it if it had all memory.
fn expect_done(rt: &impl Abort, ran: &Ran, k: u64, contest: &Contest, has_all: bool) {
    let output = ran.output.as_slice();
    let is_told = ran.errors.is_empty() != contest.explains || !has_all;
    expect(
        rt,
        output == contest.output.as_bytes(),
        contest.line,
        k,
        text_in(output),
    );
    expect(rt, is_told, contest.line, k, text_in(ran.errors.as_slice()));
}

/// A run that found no memory wrote the first lines of what this command writes, and `MEMORY`.
fn expect_begun(rt: &impl Abort, ran: &Ran, k: u64, contest: &Contest) {
    let output = ran.output.as_slice();
    let errors = ran.errors.as_slice();
    let has_lines = output.is_empty() || output.ends_with(b"\n");
    let is_begun = has_lines && contest.output.as_bytes().starts_with(output);
    expect(rt, is_begun, contest.line, k, text_in(output));
    expect(
        rt,
        errors.ends_with(b"MEMORY\n"),
        contest.line,
        k,
        text_in(errors),
    );
}

/// Each growth of a contest is refused in turn: whole lines come before `MEMORY`, and no page.
fn check_contest<S: Stage>(rt: &impl Abort, stage: &S, contest: &Contest) {
    let mut done = false;
    for k in 0..MOST_RUNS {
        done = done || is_done(rt, stage, k, contest);
    }
    expect(rt, done, contest.line, MOST_RUNS, "it makes more");
}

struct Contests;

impl<R: Abort> Trial<R> for Contests {
    fn run<S: Stage>(rt: &R, stage: &S) {
        stage.make_folder("field.growths").expect(rt, "it is made");
        for (file, source) in &SOURCES {
            put(rt, stage, file, source);
        }
        for contest in &CONTESTS {
            check_contest(rt, stage, contest);
        }
        for (file, _) in &SOURCES {
            remove(rt, stage, file);
        }
        remove(rt, stage, "growths.html");
        stage
            .remove_folder("field.growths")
            .expect(rt, "it is removed");
    }
}

#[test]
fn of_contests(rt: HostRuntime) {
    on_host::<HostRuntime, Contests>(&rt);
}
