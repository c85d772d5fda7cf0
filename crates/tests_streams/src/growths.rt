//! Each growth of memory of a command refused in turn: it is told or answered, and with memory the command is done
//! then.

use crate::expecting::{Due, check};
use crate::program::{Stage, Trial, on_host};
use std::process::Abort;

/// The hill of two on which the next commands are run: the first warrior is on it.
const HILL: &str = "growths.hill";

/// The second, in a file.
const SOURCE: &str = "growths.red";

/// A hill of the old format, in a file that no command changes.
const OLD_HILL: &str = "old_growths.hill";

/// A hill that is created, or moved there.
const CREATED: &str = "growing.hill";

/// What a submission of the second is answered.
const PLACED: &str = "PLACED 2 2 2\n";

/// A command and its input, and what it writes if it finds its memory. Its status is 0 then.
#[derive(Clone, Copy)]
struct Command {
    /// Growths whose refusal is told as a fault.
    faults: u64,
    /// These, and the ones after them, whose refusal is answered as `MEMORY`.
    answers: u64,
    /// These, and those after them, without which the answer stands alone.
    growths: u64,
    line: &'static str,
    input: &'static str,
    output: &'static str,
}

// Growths of a command, then of its submission, and then of what follows the answer to that; and the command.
macro_rules! commands {
    ($($faults:expr, $answers:expr, $others:expr => $line:expr, $input:expr => $output:expr;)*) => {
        [$(Command {
            faults: $faults,
            answers: $faults + $answers,
            growths: $faults + $answers + $others,
            line: $line,
            input: $input,
            output: $output,
        }),*]
    };
}

/// These words with the settings of a small hill of two, with another seed than the default one.
macro_rules! small {
    ($words:literal) => {
        concat!(
            $words,
            " --core=64 --cycles=100 --processes=8 --length=10 --distance=10 --rounds=2 --seed=7 --capacity=2"
        )
    };
}

pub(crate) use small;

/// A source is read into a buffer and assembled by 10 growths. A hill is created by 5, the members and an arena's four,
/// after two for the name of its new file, and opened by these and the code of the one warrior, after one for the name
/// of its folder if it is to be changed. One that is looked at is read into memory first. The hill of the old format
/// that is moved to a file that is made has three warriors. A line that is answered takes one growth, before anything
/// is done. Texts grow from 8 bytes to 16, 32 and 64, load text from 4. For a hill with another seed, a device and a
/// hill on it are made in memory, and its warrior is written as a source and submitted by 34 growths. The matches of a
/// trial take 16 after its answer.
static COMMANDS: [Command; 14] = commands! {
    1 + 10 + 5, 0, 0 => "koth asm", "MOV 0, 1\n" => "ORG 0\nMOV.I  $     0, $     1\nEND\n";
    11 + 11 + 4 + 1, 0, 0 => "koth fight growths.red growths.red --core=64 --cycles=100 --processes=8 --length=10 --distance=10 --rounds=2", ""
        => "0 0 2\n";
    1 + 2 + 5, 0, 0 => small!("koth create growing.hill"), "" => "CREATED\n";
    1 + 6 + 1 + 3, 0, 0 => "koth show growths.hill", "" => "1 1 0 0 Unnamed by Anonymous\n.\n";
    1 + 6 + 1 + 3 + 1 + 2 + 1, 0, 0 => "koth show growths.hill --matches", "" => "1 1 0 0 Unnamed by Anonymous\n.\n    1\n 1  -\n";
    1 + 6 + 1, 0, 0 => "koth audit growths.hill", "" => "true\n";
    1 + 1 + 5 + 3, 0, 0 => "koth migrate old_growths.hill growing.hill", "" => "MIGRATED\n";
    6 + 1 + 1 + 1, 10, 0 => "koth submit growths.hill growths.red", "" => PLACED;
    1 + 6 + 5, 0, 0 => "koth show growths.hill --settings", ""
        => "--core 64 --cycles 100 --processes 8 --length 10 --distance 10 --rounds 2 --capacity 2 --read-limit 0 --write-limit 0\n";
    1 + 6 + 1 + 1, 10, 0 => "koth try growths.hill growths.red", "" => PLACED;
    1 + 6 + 1 + 1, 10, 16 => "koth try growths.hill growths.red --table", ""
        => "PLACED 2 2 2\nwon  lost  tied  points  warrior  author\n  0     0     2       2  Unnamed  Anonymous\n";
    1 + 6 + 1 + 2, 0, 0 => "koth copy growths.hill growing.hill --audit", "" => "COPIED\n";
    1 + 6 + 1 + 5 + 34 + 1 + 2, 0, 0 => "koth reseed growths.hill growing.hill --seed 8", "" => "RESEEDED\n";
    1 + 6 + 1 + 2 + 5, 0, 0 => "koth create growing.hill --like growths.hill", "" => "CREATED\n";
};

/// What is due of a command without growth `k`.
fn without(command: &Command, k: u64) -> Due<'static> {
    let (output, errors, status) = if k < command.faults {
        ("", "MEMORY", 4)
    } else if k < command.answers {
        ("MEMORY\n", "", 4)
    } else {
        (PLACED, "", 0)
    };
    Due {
        output: output.as_bytes(),
        errors,
        status,
        refused: 1,
    }
}

/// What is due of a file that holds no hill.
static NO_HILL: Due<'static> = Due {
    output: b"",
    errors: "NotAHill growing.hill: ",
    status: 1,
    refused: 0,
};

/// Writes these bytes into a file.
pub(crate) fn put<S: Stage>(rt: &impl Abort, stage: &S, file: &str, bytes: &[u8]) {
    stage.put(file, bytes).expect(rt, "it is written");
}

/// Whether a file is there.
fn exists<S: Stage>(rt: &impl Abort, stage: &S, file: &str) -> bool {
    stage.exists(file).expect(rt, "it can be told")
}

/// Removes a file.
pub(crate) fn remove<S: Stage>(rt: &impl Abort, stage: &S, file: &str) {
    stage.remove(file).expect(rt, "it is removed");
}

/// The files as the commands find them: the hill has these bytes, and the other one is not there.
fn put_files<S: Stage>(rt: &impl Abort, stage: &S, hill: &[u8]) {
    put(rt, stage, HILL, hill);
    if exists(rt, stage, CREATED) {
        remove(rt, stage, CREATED);
    }
}

/// Nothing became of a command that found no memory: the hill has these bytes, and none was created.
fn expect_files<S: Stage>(rt: &impl Abort, stage: &S, hill: &[u8]) {
    let found = stage.bytes(HILL).expect(rt, "it is read");
    assert!(rt; found.as_slice() == hill, "the hill is another one");
    drop(found);
    if exists(rt, stage, CREATED) {
        check(rt, stage, u64::MAX, "koth show growing.hill", "", &NO_HILL);
    }
}

/// A command is done, though growth `k` would be refused.
fn check_done<S: Stage>(
    rt: &impl Abort,
    stage: &S,
    k: u64,
    line: &str,
    input: &'static str,
    output: &str,
) {
    let due = Due {
        output: output.as_bytes(),
        errors: "",
        status: 0,
        refused: 0,
    };
    check(rt, stage, k, line, input, &due);
}

/// A command without growth `k` leaves everything as it was. With memory it is done then.
fn check_refused<S: Stage>(rt: &impl Abort, stage: &S, hill: &[u8], k: u64, command: &Command) {
    let due = without(command, k);
    put_files(rt, stage, hill);
    check(rt, stage, k, command.line, command.input, &due);
    expect_files(rt, stage, hill);
    check_done(
        rt,
        stage,
        u64::MAX,
        command.line,
        command.input,
        command.output,
    );
}

/// Each growth of a command is refused in turn, and then one that it doesn't make.
fn check_command<S: Stage>(rt: &impl Abort, stage: &S, hill: &[u8], command: &Command) {
    for k in 0..command.growths {
        check_refused(rt, stage, hill, k, command);
    }
    put_files(rt, stage, hill);
    check_done(
        rt,
        stage,
        command.growths,
        command.line,
        command.input,
        command.output,
    );
}

/// The hill with its first warrior.
fn first_hill<S: Stage>(rt: &impl Abort, stage: &S) -> Vec<u8> {
    let create = small!("koth create growths.hill");
    let submit = "koth submit growths.hill -";
    check_done(rt, stage, u64::MAX, create, "", "CREATED\n");
    check_done(rt, stage, u64::MAX, submit, "MOV 0,1\n", "PLACED 1 1 0\n");
    stage.bytes(HILL).expect(rt, "it is read")
}

fn check_commands<S: Stage>(rt: &impl Abort, stage: &S) {
    let hill = first_hill(rt, stage);
    for command in &COMMANDS {
        check_command(rt, stage, hill.as_slice(), command);
    }
    put_files(rt, stage, hill.as_slice());
    drop(hill);
}

struct Growths;

impl<R: Abort> Trial<R> for Growths {
    fn run<S: Stage>(rt: &R, stage: &S) {
        put(rt, stage, SOURCE, b"JMP 0\n");
        put(rt, stage, OLD_HILL, &tests_fixtures::earlier_hill::bytes());
        check_commands(rt, stage);
        for file in [HILL, OLD_HILL, SOURCE] {
            remove(rt, stage, file);
        }
    }
}

#[test]
fn of_commands(rt: HostRuntime) {
    on_host::<HostRuntime, Growths>(&rt);
}
