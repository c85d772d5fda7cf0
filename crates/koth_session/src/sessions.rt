//! One session over two streams: commands in, answers out.

ghost use Rattle.std.specs.{Prelude.{◌≡◌, ◌+◌, ◌<◌, ◌≤◌, true, false, [], None, Some, length, take, IfErr, IfOk, OnOk, OnErr}, Io.KnownBytes.{Consumes, IsAtEnd, Keeps}};
ghost use Rattle.{koth_protocol.specs.Counted.Rose, koth_session.specs.{Peer.{is_due_now, may_come_now, IsNew}, Sessions.{scene, EndsSession}}};
ghost use Rattle.koth_session.specs.{Spoken.Speaks, Streams.{end_of, GoesOn}, Within.EndsWithin};

use crate::end::PeerEnd;
use crate::peer::Peer;
use crate::waiting::WAITING_MOST;
use hill_store::Store;
use koth_protocol::{Counted, ReadFault, WriteFault, send};
use sector_disk::Device;
use std::alloc::{AllocError, Allocator};
use std::io::{Read, Write};

/// How a session ended.
#[derive(Clone, Copy, Debug, PartialEq, Eq)]
pub enum SessionEnd {
    /// A line `QUIT` came.
    Quit,
    /// The input is at its end.
    EndOfInput,
    /// A read failed.
    ReadFault,
    /// A write failed, or took no byte.
    WriteFault,
    /// 16,777,216 bytes were taken, and another is needed.
    Limit,
    /// The device failed: close the store, and open it again.
    StoreFailed,
    /// A growth of memory was refused.
    Memory,
}

/// Serves a session: takes commands from the input, and writes each one's answer before the next one is served. A
/// submission is answered once it is stored.
///
/// It ends with `Memory` if there is no memory for its buffers, and reads nothing then. So it does if there is no
/// memory for the answer to `SHOW`, or if that is over 1,048,576 bytes, and writes none of it then. It ends with
/// `ReadFault` or `WriteFault` if a stream fails, and with `Limit` if it has taken 16,777,216 bytes and needs another.
/// If the device fails in a submission, it ends with `StoreFailed`, and the submission is not answered.
pub fn session<R: Read, W: Write, D: Device, A: Allocator + Copy>(
    alloc: A,
    input: &mut Counted<R>,
    output: &mut Counted<W>,
    store: &mut Store<D, A>,
) -> SessionEnd
    ensures ends { EndsSession D.facts result (R.remaining input.old.stream) (R.remaining input.new.stream)
        (scene (W.contents output.old.stream) store.old) (scene (W.contents output.new.stream) store.new) }
    ensures limit { input.new.taken ≤ input.old.taken + 16777216 }
    ensures read_fault { result ≡ SessionEnd.ReadFault → Rose input.old.faults input.new.faults }
    ensures write_fault { result ≡ SessionEnd.WriteFault → Rose output.old.faults output.new.faults }
{
    match session_within(alloc, None, input, output, store) {
        Some(end) => end,
        None => unreachable!(),
    }
}

/// Serves a session as `session` does, and assembles each source in this number of steps if there is one. If the
/// assembly of a source spends them, the session ends with `None`: that source is not submitted, and not answered. So
/// it will be with the same source again.
pub fn session_within<R: Read, W: Write, D: Device, A: Allocator + Copy>(
    alloc: A,
    steps: Option<u64>,
    input: &mut Counted<R>,
    output: &mut Counted<W>,
    store: &mut Store<D, A>,
) -> Option<SessionEnd>
    ensures ends { EndsWithin D.facts steps result (R.remaining input.old.stream) (R.remaining input.new.stream)
        (scene (W.contents output.old.stream) store.old) (scene (W.contents output.new.stream) store.new) }
    ensures spoken { Speaks steps store.old.hill result (R.remaining input.old.stream) (R.remaining input.new.stream)
        (W.contents output.old.stream) (W.contents output.new.stream) }
    ensures limit { input.new.taken ≤ input.old.taken + 16777216 }
    ensures read_fault { result ≡ Some SessionEnd.ReadFault → Rose input.old.faults input.new.faults }
    ensures write_fault { result ≡ Some SessionEnd.WriteFault → Rose output.old.faults output.new.faults }
{
    match Peer::new(alloc) {
        Ok(mut peer) => serve(alloc, steps, &mut peer, input, output, store),
        Err(AllocError) => Some(SessionEnd::Memory),
    }
}

/// Serves the commands of a peer of which nothing came yet. Each one in what was read is answered before more is read.
fn serve<R: Read, W: Write, D: Device, A: Allocator + Copy>(
    alloc: A,
    steps: Option<u64>,
    peer: &mut Peer<A>,
    input: &mut Counted<R>,
    output: &mut Counted<W>,
    store: &mut Store<D, A>,
) -> Option<SessionEnd>
    requires { IsNew peer.old }
    ensures ends { EndsWithin D.facts steps result (R.remaining input.old.stream) (R.remaining input.new.stream)
        (scene (W.contents output.old.stream) store.old) (scene (W.contents output.new.stream) store.new) }
    ensures limit { input.new.taken ≤ input.old.taken + 16777216 }
    ensures read_fault { result ≡ Some SessionEnd.ReadFault → Rose input.old.faults input.new.faults }
    ensures write_fault { result ≡ Some SessionEnd.WriteFault → Rose output.old.faults output.new.faults }
{
    let mut chunk = [0; WAITING_MOST];
    'steps: while peer.end().is_none() {
        if peer.is_due() {
            if let Err(end) = answer_next(alloc, steps, peer, output, store) {
                return end;
            }
        } else {
            match read_chunk(peer, input, &mut chunk) {
                Ok(0) => peer.close(),
                Ok(count) => peer.take(&chunk[..count]),
                Err(ReadFault) => return Some(SessionEnd::ReadFault),
            }
        }
    }
    match peer.end() {
        Some(end) => end_of(end),
        None => unreachable!(),
    }
}

/// Reads once, at most what may come of the peer, and returns how many bytes came; 0 means that the input is at its
/// end. No command of the peer may be due then, and no answer unsent.
fn read_chunk<R: Read, A: Allocator>(
    peer: &Peer<A>,
    input: &mut Counted<R>,
    chunk: &mut [u8],
) -> Result<usize, ReadFault>
    requires size { length chunk.old ≡ 4096 }
    requires room { 0 < may_come_now peer.now }
    requires none_due { is_due_now peer.now ≡ false }
    requires none_unsent { peer.now.outbox.unsent ≡ [] }
    ensures size { length chunk.new ≡ length chunk.old }
    ensures within { IfOk result (λ count. (count ≤ may_come_now peer.now) × (count ≤ 4096)) }
    ensures taken { IfOk result (λ count. Consumes (R.remaining input.old.stream) (R.remaining input.new.stream)
        (take count chunk.new)) }
    ensures end { IfOk result (λ count. count ≡ 0 → IsAtEnd (R.remaining input.new.stream)) }
    ensures counted { IfOk result (λ count. input.new.taken ≤ input.old.taken + count) }
    ensures uncounted { OnErr result (input.new.taken ≡ input.old.taken) }
    ensures kept { OnErr result (Keeps (R.remaining input.old.stream) (R.remaining input.new.stream)) }
    ensures ok { OnOk result (input.new.faults ≡ input.old.faults) }
    ensures rose { OnErr result (Rose input.old.faults input.new.faults) }
{
    let most = peer.room();
    input.read(&mut chunk[..most])
}

/// Carries out the pending command, and sends its answer. The error is how the session ends, and `None` if a source
/// spends its steps.
fn answer_next<W: Write, D: Device, A: Allocator + Copy>(
    alloc: A,
    steps: Option<u64>,
    peer: &mut Peer<A>,
    output: &mut Counted<W>,
    store: &mut Store<D, A>,
) -> Result<(), Option<SessionEnd>>
    requires { is_due_now peer.old ≡ true }
    ensures goes { GoesOn D.facts steps result peer.old (scene (W.contents output.old.stream) store.old)
        peer.new (scene (W.contents output.new.stream) store.new) }
    ensures fewer { OnOk result (is_due_now peer.new ≡ true
        → length peer.new.inbox.waiting < length peer.old.inbox.waiting) }
    ensures closed { OnOk result (peer.new.closed ≡ peer.old.closed) }
    ensures ok { OnOk result (output.new.faults ≡ output.old.faults) }
    ensures rose { IfErr result (λ end. end ≡ Some SessionEnd.WriteFault → Rose output.old.faults output.new.faults) }
{
    if let Some(end) = peer.serve(alloc, steps, store) {
        return Err(end_of(end));
    }
    if let Err(WriteFault) = send(output, peer.unsent()) {
        return Err(Some(SessionEnd::WriteFault));
    }
    let count = peer.unsent().len();
    peer.pass(count);
    Ok(())
}

/// How a session over streams ends where its peer ended so: with `None` if a source spent its steps. Since nothing was
/// unsent, a command had no room or memory for its answer only if it was `SHOW`, and no room only if the table is over
/// 1,048,576 bytes.
fn end_of(end: PeerEnd) -> Option<SessionEnd>
    ensures { result ≡ end_of end }
{
    match end {
        PeerEnd::Quit => Some(SessionEnd::Quit),
        PeerEnd::EndOfInput => Some(SessionEnd::EndOfInput),
        PeerEnd::Limit => Some(SessionEnd::Limit),
        PeerEnd::StoreFailed => Some(SessionEnd::StoreFailed),
        PeerEnd::Unread | PeerEnd::Memory => Some(SessionEnd::Memory),
        PeerEnd::StepsSpent => None,
    }
}
