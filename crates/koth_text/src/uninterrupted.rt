//! One read or write that no signal ends: if a signal interrupts the call, it is made again.

ghost use Rattle.std.specs.{Prelude.{◌≡◌, ◌≢◌, ◌↔◌, ◌≤◌, length, IfErr, IfOk, IsTrue}, IoError.error_kind, Io.KnownBytes.{ReadConsumes, WriteAppends}};

use std::io;
use std::io::{ErrorKind, Read, Write};

/// How often a call is made at most, so that it ends whatever the stream does.
const TRIES: u32 = u32::MAX;

/// Reads once, and again if a signal interrupts the call.
pub fn read_uninterrupted<R: Read>(input: &mut R, to: &mut [u8]) -> io::Result<usize>
    ensures size { length to.new ≡ length to.old }
    ensures within { IfOk result (λ count. count ≤ length to.new) }
    ensures bytes { ReadConsumes (R.remaining input.old) (R.remaining input.new) result to.new }
    ensures tried_again { IfErr result (λ error. error_kind error ≢ ErrorKind.Interrupted) }
{
    for _ in 0..TRIES {
        match input.read(to) {
            Ok(count) => return Ok(count),
            Err(error) => {
                if !is_interrupted(&error) {
                    return Err(error);
                }
            }
        }
    }
    Err(io::Error::from(ErrorKind::TimedOut))
}

/// Writes once, and again if a signal interrupts the call.
pub fn write_uninterrupted<W: Write>(output: &mut W, from: &[u8]) -> io::Result<usize>
    ensures within { IfOk result (λ count. count ≤ length from.now) }
    ensures bytes { WriteAppends (W.contents output.old) (W.contents output.new) result from.now }
    ensures tried_again { IfErr result (λ error. error_kind error ≢ ErrorKind.Interrupted) }
{
    for _ in 0..TRIES {
        match output.write(from) {
            Ok(count) => return Ok(count),
            Err(error) => {
                if !is_interrupted(&error) {
                    return Err(error);
                }
            }
        }
    }
    Err(io::Error::from(ErrorKind::TimedOut))
}

fn is_interrupted(error: &io::Error) -> bool
    ensures { IsTrue result ↔ (error_kind error.now ≡ ErrorKind.Interrupted) }
{
    error.kind() == ErrorKind::Interrupted
}
