//! How a session ends.

/// How a session ended.
#[derive(Clone, Copy, Debug, PartialEq, Eq)]
pub enum PeerEnd {
    /// A line `QUIT` came.
    Quit,
    /// The peer's bytes are at their end, and each of its commands was answered.
    EndOfInput,
    /// 16,777,216 bytes came, and each command in them was answered.
    Limit,
    /// The next answer may have no room, since 1,048,576 bytes of answers at most may be unsent: the command was not
    /// carried out.
    Unread,
    /// The assembly of the next source spent the steps that it may: the source was not submitted.
    StepsSpent,
    /// The device failed in a submission, now or earlier, which is not answered: close the store, and open it again.
    StoreFailed,
    /// A growth of memory was refused for an answer: the command was not carried out.
    Memory,
}
