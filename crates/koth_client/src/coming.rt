//! What comes in answer.

ghost use Rattle.std.specs.{Prelude.{◌≡◌, ◌≤◌, length, take, IfOk, IfSome}, Io.KnownBytes.Consumes};
ghost use Rattle.koth_client.specs.Coming.{IsReply};

use crate::reply::reply_at;
use hill_store::Reply;
use koth_protocol::{Counted, ReadFault};
use std::alloc::{AllocError, Allocator};
use std::io::Read;

/// Bytes that are read of an answer at most.
const MOST: usize = 1_048_576;

/// What is asked of a session.
#[derive(Clone, Copy, PartialEq, Eq)]
pub(crate) enum Asked {
    /// The reply to a submission, which is a line.
    Reply,
    /// The table, whose last line is a dot.
    Table,
}

impl Asked {
    /// Whether the answer is whole after these bytes, of which those from a place on came last.
    fn is_whole(self, came: &[u8], from: usize) -> bool
        requires { from ≤ length came.now }
    {
        match self {
            Asked::Reply => came[from..].contains(&b'\n'),
            Asked::Table => came == b".\n".as_slice() || came.ends_with(b"\n.\n"),
        }
    }
}

/// Why no more was read.
#[derive(Clone, Copy, Debug, PartialEq, Eq)]
pub enum Ending {
    /// The answer is whole.
    Whole,
    /// The input is at its end.
    EndOfInput,
    /// A read failed, as after a time without a byte.
    ReadFault,
    /// A write failed, or took no byte: nothing was read.
    WriteFault,
    /// 1,048,576 bytes came, and no end of the answer.
    Limit,
}

/// What came in answer, and why no more was read.
#[derive(Drop)]
pub struct Told<A: Allocator> {
    pub bytes: Vec<u8, A>,
    pub ending: Ending,
}

impl<A: Allocator> Told<A> {
    /// The reply to a submission, if what came begins with the line of one.
    pub fn reply(&self) -> Option<Reply>
        ensures { IfSome result (IsReply self.now.bytes.items) }
    {
        reply_at(self.bytes.as_slice())
    }
}

/// Room for all that is read of an answer.
pub(crate) fn room<A: Allocator>(alloc: A) -> Result<Vec<u8, A>, AllocError>
    ensures { IfOk result (λ room. length room.items ≡ 1048576) }
{
    Vec::from_elem(alloc, 0, MOST)
}

/// Reads an answer into this room, and says why no more was read.
pub(crate) fn read_answer<R: Read, A: Allocator>(
    mut room: Vec<u8, A>,
    asked: Asked,
    input: &mut Counted<R>,
) -> Told<A>
    ensures { Consumes (R.remaining input.old.stream) (R.remaining input.new.stream) result.bytes.items }
{
    let (count, ending) = fill_until(asked, input, room.as_mut_slice());
    room.truncate(count);
    Told {
        bytes: room,
        ending,
    }
}

/// Reads until the answer is whole, the buffer is full, or no more comes. It says how many bytes came, and which of
/// these it was.
fn fill_until<R: Read>(asked: Asked, input: &mut Counted<R>, buffer: &mut [u8]) -> (usize, Ending)
    ensures within { result.0 ≤ length buffer.new }
    ensures taken { Consumes (R.remaining input.old.stream) (R.remaining input.new.stream) (take result.0 buffer.new) }
{
    let mut filled = 0;
    while filled < buffer.len() {
        match input.read(&mut buffer[filled..]) {
            Ok(0) => return (filled, Ending::EndOfInput),
            Ok(count) => {
                let before = filled;
                filled += count;
                if asked.is_whole(&buffer[..filled], before) {
                    return (filled, Ending::Whole);
                }
            }
            Err(ReadFault) => return (filled, Ending::ReadFault),
        }
    }
    (filled, Ending::Limit)
}
