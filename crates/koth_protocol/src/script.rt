//! The commands of a session, as its bytes come.

ghost use Rattle.std.specs.{Prelude.{◌≡◌, ℕ, true, false, [], ◌∷◌, List, None, Option, IfOk}, Str.bytes_eq};
ghost use Rattle.koth_protocol.specs.{Commands.{kept_source, word_of}, Lines.{without_dot, without_return}, Reading.{IsReading, Reads, TakesCommand, TakesSourceLine}};

use crate::kept::Kept;
use crate::request::is_foreign;
use std::alloc::{AllocError, Allocator};

/// Bytes of a source that are passed on at most: one more than a source may have.
const SOURCE_KEPT: usize = 65_537;

/// What a line asks for if a command is pending.
#[derive(Clone, Copy, PartialEq, Eq)]
pub(crate) enum Word {
    Submit,
    Show,
    Quit,
    /// Nothing: no author sends it.
    Request,
    Other,
}

/// What a byte brought to its end.
#[derive(Clone, Copy, PartialEq, Eq)]
pub enum Met {
    /// No command: a line goes on, or a source does.
    Nothing,
    /// A submission, whose source is there.
    Submit,
    /// A line `SHOW`.
    Show,
    /// A line `QUIT`.
    Quit,
    /// A line that is no command, and begins as a request of HTTP does or has a control byte: no author sent it.
    Request,
    /// Another line that is no command.
    Bad,
}

/// What was read of a line, and of the source that is in progress.
#[derive(Drop)]
pub struct Script<A: Allocator> {
    line: Kept<A>,
    source: Kept<A>,
    in_source: bool,
}

impl<A: Allocator + Copy> Script<A> {
    /// The beginning of a session. All its memory is taken here.
    pub fn new(alloc: A) -> Result<Script<A>, AllocError>
        ensures { IfOk result (λ script. IsReading script [] None) }
    {
        Ok(Script {
            line: Kept::new(alloc)?,
            source: Kept::new(alloc)?,
            in_source: false,
        })
    }
}

impl<A: Allocator> Script<A> {
    /// Takes the next byte, and says what it brought to its end.
    pub fn take(&mut self, byte: u8) -> Met
        ensures { (line : List ℕ) → (source : Option (List ℕ)) → IsReading self.old line source
            → Reads line source byte result self.new }
    {
        if byte == b'\n' {
            self.end_line()
        } else {
            self.line.put(&[byte]);
            Met::Nothing
        }
    }

    /// The source of the submission that was met last.
    pub fn source(&self) -> &[u8]
        ensures { result.now ≡ kept_source self.now.source }
    {
        let source = self.source.as_slice();
        &source[..SOURCE_KEPT.min(source.len())]
    }

    fn end_line(&mut self) -> Met
        ensures { (line : List ℕ) → (source : Option (List ℕ)) → IsReading self.old line source
            → Reads line source 10 result self.new }
    {
        if self.in_source {
            self.end_source_line()
        } else {
            self.end_command_line()
        }
    }

    fn end_command_line(&mut self) -> Met
        requires { self.old.in_source ≡ false }
        ensures { (line : List ℕ) → (source : Option (List ℕ)) → IsReading self.old line source
            → Reads line source 10 result self.new }
    {
        let line = without_return(self.line.as_slice());
        let met = take_command_line(&mut self.source, &mut self.in_source, line);
        self.line.clear();
        met
    }

    fn end_source_line(&mut self) -> Met
        requires { self.old.in_source ≡ true }
        ensures { (line : List ℕ) → (source : Option (List ℕ)) → IsReading self.old line source
            → Reads line source 10 result self.new }
    {
        let line = without_return(self.line.as_slice());
        let met = take_source_line(&mut self.source, &mut self.in_source, line);
        self.line.clear();
        met
    }
}

/// Takes a line while a command is pending.
fn take_command_line<A: Allocator>(source: &mut Kept<A>, in_source: &mut bool, line: &[u8]) -> Met
    requires { in_source.old ≡ false }
    ensures { TakesCommand line.now result in_source.new source.new }
{
    match word_of(line) {
        Word::Submit => {
            source.clear();
            *in_source = true;
            Met::Nothing
        }
        Word::Show => Met::Show,
        Word::Quit => Met::Quit,
        Word::Request => Met::Request,
        Word::Other => Met::Bad,
    }
}

/// Takes a line of the source that is in progress.
fn take_source_line<A: Allocator>(source: &mut Kept<A>, in_source: &mut bool, line: &[u8]) -> Met
    requires { in_source.old ≡ true }
    ensures { TakesSourceLine line.now source.old result in_source.new source.new }
{
    if line == b".".as_slice() {
        *in_source = false;
        return Met::Submit;
    }
    source.put(without_dot(line));
    source.put(b"\n");
    Met::Nothing
}

fn word_of(line: &[u8]) -> Word
    ensures { result ≡ word_of line.now }
{
    if line == b"SUBMIT".as_slice() {
        Word::Submit
    } else if line == b"SHOW".as_slice() {
        Word::Show
    } else if line == b"QUIT".as_slice() {
        Word::Quit
    } else if is_foreign(line) {
        Word::Request
    } else {
        Word::Other
    }
}

/// The line without one carriage return at its end.
fn without_return(line: &[u8]) -> &[u8]
    ensures { result.now ≡ without_return line.entry.now }
{
    let end = line.len();
    if end == 0 {
        return line;
    }
    if line[end - 1] == b'\r' {
        return &line[..end - 1];
    }
    line
}

/// The line without one dot at its beginning.
fn without_dot(line: &[u8]) -> &[u8]
    ensures { result.now ≡ without_dot line.entry.now }
{
    match line {
        [b'.', rest @ ..] => rest,
        _ => line,
    }
}
