//! What a client sends.

ghost use Rattle.std.specs.Prelude.{◌≡◌, ◌++◌, true, IfOk, OnOk};
ghost use Rattle.koth_protocol.specs.Commands.{Command, kept_source};
ghost use Rattle.koth_client.specs.Sending.{byte_sent, dotted_from, line_end, lines_taken, AsksAlone};

use std::alloc::{AllocError, Allocator};

/// The text that asks a session for its table, and for nothing else.
pub const TABLE_TEXT: &[u8] = b"SHOW\nQUIT\n";

/// The text that submits a source to a session, and does nothing else: its lines between `SUBMIT` and a dot, with a
/// second dot before each line that begins with one, and `QUIT`. A last line without its line feed gets one. The error
/// is lack of memory.
pub fn submission_text<A: Allocator>(alloc: A, source: &[u8]) -> Result<Vec<u8, A>, AllocError>
    ensures { IfOk result (λ text. AsksAlone (Command.Submit (kept_source (lines_taken source.now))) text.items) }
{
    let mut text = Vec::new(alloc);
    text.extend_from_slice(b"SUBMIT\n")?;
    put_dotted(&mut text, source)?;
    text.extend_from_slice(b".\nQUIT\n")?;
    Ok(text)
}

/// Puts the lines of a source.
fn put_dotted<A: Allocator>(text: &mut Vec<u8, A>, source: &[u8]) -> Result<(), AllocError>
    ensures { OnOk result (text.new.items ≡ text.old.items ++ dotted_from true source.now) }
{
    let mut starts = true;
    for byte in source {
        put_byte(text, starts, *byte)?;
        starts = *byte == b'\n';
    }
    put_end(text, starts)
}

/// Puts a byte of a source, with a dot before a dot if a line starts with it.
fn put_byte<A: Allocator>(text: &mut Vec<u8, A>, starts: bool, byte: u8) -> Result<(), AllocError>
    ensures { OnOk result (text.new.items ≡ text.old.items ++ byte_sent starts byte) }
{
    if starts & (byte == b'.') {
        text.extend_from_slice(b".")?;
    }
    text.extend_from_slice(&[byte])
}

/// Puts the end of the last line, unless a line starts.
fn put_end<A: Allocator>(text: &mut Vec<u8, A>, starts: bool) -> Result<(), AllocError>
    ensures { OnOk result (text.new.items ≡ text.old.items ++ line_end starts) }
{
    if starts {
        Ok(())
    } else {
        text.extend_from_slice(b"\n")
    }
}
