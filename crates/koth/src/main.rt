//! The program `koth`.
#![tactic(auto)]

use koth_server::{PolledLog, Trouble, Typed, View, refuse_arguments, run};
use std::env::Env;
use std::io::{ErrorKind, IsTerminal};
use std::process::ExitCode;
use std::rt::Files;
use std::{env, fs, io};

fn main(rt: HostRuntime) -> ExitCode {
    let held = held_places(&rt);
    let status = status_of(&rt);
    drop(held);
    status
}

/// Opens the root folder on each of the descriptors 0 to 2 that is closed, so that no file that is opened later gets
/// one of these numbers. Otherwise an answer could be written over a hill that has the number of standard output.
/// Nothing can be read from the folder or written to it, so a closed stream is one that fails.
fn held_places<R: Files>(rt: &R) -> [io::Result<R::File>; 3] {
    [fs::open(rt, "/"), fs::open(rt, "/"), fs::open(rt, "/")]
}

fn status_of(rt: &HostRuntime) -> ExitCode {
    let words = match words_given(rt) {
        Ok(words) => words,
        Err(kind) => return ExitCode::from(code_without(rt, kind)),
    };
    ExitCode::from(run(
        rt,
        rt.alloc(),
        rt.alloc(),
        words.as_slice(),
        usual_view(rt),
        &mut Typed::new(rt.reader(), rt.stderr(), rt.stdin().is_terminal()),
        &mut io::writer(rt),
        &mut PolledLog::new(rt, rt.alloc(), rt.stderr(), rt.stderr().is_terminal()),
    ))
}

/// Columns for people if standard output is a terminal, else lines for programs.
fn usual_view(rt: &HostRuntime) -> View {
    if rt.stdout().is_terminal() {
        View::Table
    } else {
        View::Plain
    }
}

/// The arguments of the command line, with the program's name first. `OutOfMemory` if there is no memory for them, and
/// else one of them is not UTF-8.
fn words_given(rt: &(impl Env + AllocGlobal)) -> Result<Vec<String>, ErrorKind> {
    let given = match env::args(rt) {
        Ok(given) => given,
        Err(error) => return Err(error.kind()),
    };
    let mut words = Vec::new(rt.alloc());
    for word in given {
        if words.push(word).is_err() {
            return Err(ErrorKind::OutOfMemory);
        }
    }
    Ok(words)
}

/// Reports that there are no arguments, for this reason, and returns the status.
fn code_without(rt: &HostRuntime, kind: ErrorKind) -> u8 {
    let status = match kind {
        ErrorKind::OutOfMemory => Trouble::memory().tell(rt.alloc(), &mut rt.stderr()),
        _ => refuse_arguments(rt, rt.alloc(), &mut rt.stderr()),
    };
    status.code()
}
