//! The seed that random bytes give, and what is told if arguments without a fault are refused.

use koth_server::{drawn_seed, refuse_arguments};
use std::alloc::Global;
use std::env::Env;
use std::io;
use std::io::ErrorKind;
use std::process::Abort;
use std::random::RandomSource;
use tests_fixtures::Refusing;

/// A source of random numbers that gives these bytes if as many are asked for, and else fails.
#[derive(Clone, Copy)]
struct Source<'s> {
    bytes: &'s [u8],
}

impl RandomSource for Source<'_> {
    fn fill_bytes(&self, buf: &mut [u8]) -> io::Result<()> {
        if buf.len() != self.bytes.len() {
            return Err(io::Error::from(ErrorKind::TimedOut));
        }
        buf.copy_from_slice(self.bytes);
        Ok(())
    }
}

/// Random bytes, and the seed that they give: of the least number and the greatest, and of those where the seeds begin
/// again. If the source fails there is no seed.
static DRAWN: [(&[u8], Option<u32>); 6] = [
    (&[0, 0, 0, 0, 0, 0, 0, 0], Some(1)),
    (&[0xfd, 0xff, 0xff, 0x7f, 0, 0, 0, 0], Some(2_147_483_646)),
    (&[0xfe, 0xff, 0xff, 0x7f, 0, 0, 0, 0], Some(1)),
    (&[6, 0, 0, 0x80, 0, 0, 0, 0], Some(9)),
    (&[0xff, 0xff, 0xff, 0xff, 0xff, 0xff, 0xff, 0xff], Some(16)),
    (&[], None),
];

fn check_drawn(rt: &impl Abort, bytes: &[u8], due: Option<u32>) {
    let found = drawn_seed(&Source { bytes }).ok();
    assert!(rt; found == due, "the seed");
}

#[test]
fn seeds_of_random_bytes(rt: HostRuntime) {
    for (bytes, due) in &DRAWN {
        check_drawn(&rt, bytes, *due);
    }
}

/// What is told if no argument is at fault, and if there is no memory to say which one is.
const NO_TEXT: &str = "error: an argument is not UTF-8\n\nFor more information, try '--help'.\n";

/// What is reported about the arguments of this program, which are all text, if growth `k` is refused.
fn check_arguments(rt: &(impl Abort + Env + AllocGlobal), memory: &Refusing<Global>, k: u64) {
    let mut errors = Vec::new(rt.alloc());
    memory.refuse(k, 1);
    let status = refuse_arguments(rt, memory, &mut errors).code();
    let is_told = errors.as_slice() == NO_TEXT.as_bytes();
    drop(errors);
    assert!(rt; is_told && status == 2, "at growth {k}");
}

#[test]
fn arguments_that_are_text(rt: HostRuntime) {
    let memory = Refusing::new(rt.alloc());
    check_arguments(&rt, &memory, u64::MAX);
    check_arguments(&rt, &memory, 0);
    drop(memory);
}
