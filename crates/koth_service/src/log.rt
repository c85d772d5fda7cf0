//! The output of a log.

ghost use Rattle.koth_service.specs.Told.{Grows};

use std::alloc::Allocator;
use std::io::Write;

/// The output of a log. Once a line was begun on it, a write fails if it would have to wait.
pub trait LogWrite: Write {
    /// Begins a line. If a part of the last one is there without its end, that one is ended first. It returns whether
    /// the line may be written.
    fn begin_line(&mut self) -> bool
        ensures { Grows (Self.contents self.old) (Self.contents self.new) };
}

/// A vector never waits.
impl<A: Allocator> LogWrite for Vec<u8, A> {
    fn begin_line(&mut self) -> bool {
        true
    }
}
