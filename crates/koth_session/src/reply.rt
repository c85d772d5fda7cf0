//! The line of a reply, and the table.

ghost use Rattle.std.specs.{Prelude.{◌≡◌, ◌≤◌, ◌++◌, length, codes, decimal, IfOk, OnOk, OnErr}, Io.KnownBytes.Appends};
ghost use Rattle.{koth_hill.specs.Kept.table_kept, koth_protocol.specs.{Counted.Rose, Refusal.refusal_line, Table.show_text, Written.WritesPart}, koth_session.specs.Reply.reply_line};

use hill_store::{Reply, Store};
use koth_protocol::{Counted, Line, WriteFault, refusal_line, send, show_text};
use sector_disk::Device;
use std::alloc::{AllocError, Allocator};
use std::io::Write;

/// Writes the line of a reply:
///
/// | Reply | Line |
/// |---|---|
/// | `Placed` | `PLACED entry rank score` |
/// | `Fell` | `FELL entry score` |
/// | `Refused` | `REFUSED line Kind` |
/// | `Memory`, `Worn`, `Disk`, `Reopen` | `MEMORY`, `WORN`, `DISK`, `REOPEN` |
///
/// One blank is between the parts, numbers are decimal, and a line feed ends the line. `WriteFault` comes if the stream
/// fails or takes no byte; a part of the line is written then, from its beginning on. It needs no memory.
pub fn write_reply<W: Write>(output: &mut Counted<W>, reply: &Reply) -> Result<(), WriteFault>
    ensures whole { OnOk result (Appends (W.contents output.old.stream) (W.contents output.new.stream)
        (reply_line reply.now)) }
    ensures part { OnErr result (WritesPart (W.contents output.old.stream) (W.contents output.new.stream)
        (reply_line reply.now)) }
    ensures ok { OnOk result (output.new.faults ≡ output.old.faults) }
    ensures rose { OnErr result (Rose output.old.faults output.new.faults) }
{
    send(output, line_of(reply).as_slice())
}

/// The line of a reply, as `write_reply` writes it. It needs no memory.
pub fn line_of(reply: &Reply) -> Line
    ensures { result ≡ reply_line reply.now }
{
    match *reply {
        Reply::Placed { entry, rank, score } => placed_line(entry, rank, score),
        Reply::Fell { entry, score } => fell_line(entry, score),
        Reply::Refused(fault) => refusal_line(fault),
        Reply::Memory => word_line(b"MEMORY\n"),
        Reply::Worn => word_line(b"WORN\n"),
        Reply::Disk => word_line(b"DISK\n"),
        Reply::Reopen => word_line(b"REOPEN\n"),
    }
}

fn placed_line(entry: u64, rank: u32, score: u32) -> Line
    ensures { result ≡ codes "PLACED " ++ decimal entry ++ codes " " ++ decimal rank ++ codes " " ++ decimal score
        ++ codes "\n" }
{
    let mut line = Line::new();
    line.put(b"PLACED ");
    line.put_number(entry);
    line.put(b" ");
    line.put_number(u64::from(rank));
    line.put(b" ");
    line.put_number(u64::from(score));
    line.put(b"\n");
    line
}

fn fell_line(entry: u64, score: u32) -> Line
    ensures { result ≡ codes "FELL " ++ decimal entry ++ codes " " ++ decimal score ++ codes "\n" }
{
    let mut line = Line::new();
    line.put(b"FELL ");
    line.put_number(entry);
    line.put(b" ");
    line.put_number(u64::from(score));
    line.put(b"\n");
    line
}

fn word_line(word: &[u8]) -> Line
    requires { length word.now ≤ 7 }
    ensures { result ≡ word.now }
{
    let mut line = Line::new();
    line.put(word);
    line
}

/// The answer to `SHOW` on a store's hill. `AllocError` comes if a growth of memory was refused.
pub fn table_of<D: Device, A: Allocator + Copy>(
    alloc: A,
    store: &Store<D, A>,
) -> Result<Vec<u8, A>, AllocError>
    ensures { IfOk result (λ text. text.items ≡ show_text (table_kept store.now.hill)) }
{
    let rows = store.rows()?;
    show_text(alloc, rows.as_slice())
}
