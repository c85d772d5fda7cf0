//! What came from a peer, and the pending command.

ghost use Rattle.std.specs.Prelude.{◌≡◌, ℕ, ◌+◌, ◌<◌, ◌≤◌, true, false, [], ◌∷◌, ◌++◌, List, length, IfOk};
ghost use Rattle.{koth_protocol.specs.Commands.{Command, Reader, kept_source}, koth_session.specs.Inbox.{is_met, is_submission, room_of, IsFollowed, IsNext, IsReadTo}};

use crate::waiting::Waiting;
use koth_protocol::{Met, Script};
use std::alloc::{AllocError, Allocator};

/// The most bytes that a peer may send.
pub(crate) const LIMIT: usize = 16_777_216;

/// A peer's bytes, read up to the pending command, and the bytes after that command.
#[derive(Drop)]
pub(crate) struct Inbox<A: Allocator> {
    script: Script<A>,
    due: Met,
    waiting: Waiting<A>,
    taken: usize,
}

impl<A: Allocator + Copy> Inbox<A> {
    /// The beginning of a session. All its memory is taken here.
    pub(crate) fn new(alloc: A) -> Result<Inbox<A>, AllocError>
        ensures { IfOk result (λ inbox. (reader : Reader) → IsReadTo reader inbox [] []) }
    {
        Ok(Inbox {
            script: Script::new(alloc)?,
            due: Met::Nothing,
            waiting: Waiting::new(alloc)?,
            taken: 0,
        })
    }
}

impl<A: Allocator> Inbox<A> {
    /// How many bytes may come now.
    pub(crate) fn room(&self) -> usize
        ensures room { result ≡ room_of self.now }
        ensures most { length self.now.waiting + result ≤ 4096 }
    {
        self.waiting.room().min(LIMIT.saturating_sub(self.taken))
    }

    /// How many bytes came.
    pub(crate) fn taken(&self) -> usize
        ensures { result ≡ self.now.taken }
    {
        self.taken
    }

    /// The command that is due.
    pub(crate) fn due(&self) -> Met
        ensures { result ≡ self.now.due }
    {
        self.due
    }

    /// The source of the pending submission.
    pub(crate) fn source(&self) -> &[u8]
        ensures { result.now ≡ kept_source self.now.script.source }
    {
        self.script.source()
    }

    /// Bytes came: they are read up to the next command, and the others wait.
    pub(crate) fn take(&mut self, bytes: &[u8])
        requires { length bytes.now ≤ room_of self.old }
        ensures reads { (reader : Reader) (came : List ℕ) (done : List Command) → IsReadTo reader self.old came done
            → IsReadTo reader self.new (came ++ bytes.now) done }
        ensures fewer { is_met self.old.due ≡ false → is_met self.new.due ≡ true
            → length self.new.waiting < length self.old.waiting + length bytes.now }
        ensures due { is_met self.old.due ≡ true → self.new.due ≡ self.old.due }
        ensures source { is_met self.old.due ≡ true → self.new.script.source ≡ self.old.script.source }
    {
        self.waiting.put(bytes);
        self.taken += bytes.len();
        self.read_on();
    }

    /// The command that was due was carried out, and the next one is looked for.
    pub(crate) fn pass(&mut self)
        ensures reads { (reader : Reader) (came : List ℕ) (done : List Command) (command : Command)
            → IsReadTo reader self.old came done
            → IsNext reader self.old.due self.old.script.source command
            → IsReadTo reader self.new came (done ++ command ∷ []) }
        ensures fewer { is_met self.new.due ≡ true → length self.new.waiting < length self.old.waiting }
    {
        self.due = Met::Nothing;
        self.read_on();
    }

    /// Reads until a command is pending, or no byte waits.
    fn read_on(&mut self)
        ensures reads { (reader : Reader) (came : List ℕ) (done : List Command) → IsFollowed reader self.old came done
            → IsReadTo reader self.new came done }
        ensures fewer { is_met self.old.due ≡ false → is_met self.new.due ≡ true
            → length self.new.waiting < length self.old.waiting }
        ensures due { is_met self.old.due ≡ true → self.new.due ≡ self.old.due }
        ensures source { is_met self.old.due ≡ true → self.new.script.source ≡ self.old.script.source }
    {
        'bytes: while !is_met(self.due) {
            match self.waiting.next() {
                Some(byte) => self.due = self.script.take(byte),
                None => return,
            }
        }
    }
}

/// Whether a command was met.
pub(crate) fn is_met(met: Met) -> bool
    ensures { result ≡ is_met met }
{
    match met {
        Met::Nothing => false,
        Met::Submit | Met::Show | Met::Quit | Met::Request | Met::Bad => true,
    }
}

/// Whether a submission was met.
pub(crate) fn is_submission(met: Met) -> bool
    ensures { result ≡ is_submission met }
{
    match met {
        Met::Submit => true,
        Met::Nothing | Met::Show | Met::Quit | Met::Request | Met::Bad => false,
    }
}
