//! The program, as tests know it: a run over streams that behave as a test wants, on memory that refuses growths.

use crate::streams::Signalled;
use koth_server::{LogWrite, View, run};
use std::alloc::{AllocError, Allocator, Global};
use std::fs::File;
use std::io::{Read, Write};
use std::net::Net;
use std::process::Abort;
use std::random::RandomSource;
use std::rt::{Clock, Files};
use std::{fs, io};
use tests_fixtures::{FULL, Full, FullWriter, Refusing, reader, writer};

/// How the streams of a run behave.
#[derive(Clone, Copy)]
pub(crate) struct Manner {
    /// The bytes of the input.
    pub input: &'static [u8],
    /// Bytes of a read at most.
    pub read: usize,
    /// The read that fails. The first is 1, and none is 0.
    pub fails_at: u64,
    /// Bytes of a write at most.
    pub written: usize,
    /// Bytes that the output takes before it is full.
    pub room: usize,
    /// What it does then.
    pub full: Full,
    /// Whether a signal interrupts each call once.
    pub signals: bool,
}

/// Streams that don't fail, with this input.
pub(crate) fn whole(input: &'static str) -> Manner {
    Manner {
        input: input.as_bytes(),
        read: usize::MAX,
        fails_at: 0,
        written: usize::MAX,
        room: usize::MAX,
        full: FULL[0],
        signals: false,
    }
}

/// What came of a run: its status, how many growths it was refused, its reads, and what it wrote.
#[derive(Drop)]
pub(crate) struct Ran {
    pub status: u8,
    pub refused: u64,
    pub reads: u64,
    pub output: Vec<u8>,
    pub errors: Vec<u8>,
}

/// Where the program runs, and its files are.
pub(crate) trait Stage {
    /// Runs the program with the words of this line, without growth `k`. The error is lack of memory for the words.
    fn run(&self, k: u64, line: &str, manner: Manner) -> Result<Ran, AllocError>;

    /// Writes these bytes into a file.
    fn put(&self, file: &str, bytes: &[u8]) -> io::Result<()>;

    /// The bytes of a file.
    fn bytes(&self, file: &str) -> io::Result<Vec<u8>>;

    /// Whether a file is there.
    fn exists(&self, file: &str) -> io::Result<bool>;

    /// Removes a file.
    fn remove(&self, file: &str) -> io::Result<()>;

    /// Makes a folder.
    fn make_folder(&self, folder: &str) -> io::Result<()>;

    /// Removes a folder.
    fn remove_folder(&self, folder: &str) -> io::Result<()>;
}

/// What a test tries on a stage.
pub(crate) trait Trial<R> {
    fn run<S: Stage>(rt: &R, stage: &S);
}

/// What the program takes of its host.
pub(crate) trait Host: Files<File = File> + Net + Clock + RandomSource + AllocGlobal {}

impl Host for HostRuntime {}

/// A host, and the memory of runs.
struct Machine<'h, R> {
    rt: &'h R,
    memory: &'h Refusing<Global>,
}

impl<R: Host> Stage for Machine<'_, R> {
    fn run(&self, k: u64, line: &str, manner: Manner) -> Result<Ran, AllocError> {
        let words = words_of(self.rt.alloc(), line)?;
        let ran = run_over(self.rt, self.memory, k, words.as_slice(), manner);
        drop(words);
        Ok(ran)
    }

    fn put(&self, file: &str, bytes: &[u8]) -> io::Result<()> {
        fs::write(self.rt, file, bytes)
    }

    fn bytes(&self, file: &str) -> io::Result<Vec<u8>> {
        fs::read(self.rt, file)
    }

    fn exists(&self, file: &str) -> io::Result<bool> {
        fs::exists(self.rt, file)
    }

    fn remove(&self, file: &str) -> io::Result<()> {
        fs::remove_file(self.rt, file)
    }

    fn make_folder(&self, folder: &str) -> io::Result<()> {
        fs::create_dir(self.rt, folder)
    }

    fn remove_folder(&self, folder: &str) -> io::Result<()> {
        fs::remove_dir(self.rt, folder)
    }
}

/// Tries it on this host, with memory of its own. Only this names the type of either.
pub(crate) fn on_host<R: Host, T: Trial<R>>(rt: &R) {
    let memory = Refusing::new(rt.alloc());
    let stage = Machine {
        rt,
        memory: &memory,
    };
    T::run(rt, &stage);
    let Machine { rt: _, memory: _ } = stage;
    drop(memory);
}

/// The words of a command line, in which blanks are between them.
fn words_of(alloc: Global, line: &str) -> Result<Vec<String>, AllocError> {
    let mut words = Vec::new(alloc);
    for word in line.split(' ') {
        words.push(String::from_str(alloc, word)?)?;
    }
    Ok(words)
}

/// A run with these words, over such streams.
fn run_over<R: Host>(
    rt: &R,
    memory: &Refusing<Global>,
    k: u64,
    words: &[String],
    manner: Manner,
) -> Ran {
    let source = reader(manner.input, manner.read, manner.fails_at);
    let target = writer(rt.alloc(), manner.written, manner.room, manner.full);
    let mut input = Signalled::new(source, manner.signals);
    let mut output = Signalled::new(target, manner.signals);
    let mut errors = Vec::new(rt.alloc());
    memory.refuse(k, 1);
    let heap = rt.alloc();
    let status = status_of(
        rt,
        heap,
        memory,
        words,
        &mut input,
        &mut output,
        &mut errors,
    );
    Ran {
        status,
        refused: memory.refused(),
        reads: input.stream.reads,
        output: taken(output),
        errors,
    }
}

/// What an output took.
fn taken(output: Signalled<FullWriter>) -> Vec<u8> {
    output.stream.taken
}

/// What a run of the program with these words leaves with. They are parsed on the heap, which refuses nothing.
fn status_of<A: Allocator + Copy>(
    rt: &(impl Files<File = File> + Net + Clock + RandomSource),
    heap: Global,
    alloc: A,
    words: &[String],
    input: &mut impl Read,
    output: &mut impl Write,
    errors: &mut impl LogWrite,
) -> u8 {
    run(rt, heap, alloc, words, View::Plain, input, output, errors)
}
