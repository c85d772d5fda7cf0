//! Sessions of the line protocol on a store: one over two streams, or many at once as values. Commands come in as
//! bytes, and answers go out as bytes.
//!
//! It knows the store and streams, and no command line, files, sockets, clock or poll. The part of the protocol that
//! needs no store is in `koth_protocol`, and this crate passes it on. The modules, in the order in which the data pass:
//!
//! - `waiting` and `inbox`: the bytes that came from a peer, read up to the pending command;
//! - `outbox`: the answers that aren't sent yet;
//! - `reply` and `answers`: the lines of the replies, and a command that is carried out on the store and answered;
//! - `end` and `peer`: one session as a value, and how it ends;
//! - `judge`: the store, and the submission to it that is in progress, which is fought in steps;
//! - `numbers`, `turns` and `peers`: many of them on one store, and whose turn it is;
//! - `sessions`: one session over two streams: what is read is put into its peer, and each command is answered before
//!   more is read;
//! - `laws`: what a session is in the life of its device.
//!
//! `session` writes the transcript of the commands in the bytes that it took, and nothing else. It leaves the hill of
//! the submissions that it answered: no stop of the device loses one of these (`ends`). It takes 16,777,216 bytes at
//! most, and blames a stream only if that stream's count of faults rose. `session_within` is the same with steps for
//! each source. `write_reply` writes exactly the reply's line, or a part of it if the output fails. `line_of` and
//! `table_of` give the program the same lines for its own outputs.
//!
//! Of many peers, a call on one leaves every other as it is (`OnlyAt`). The next one served is the first to which the
//! turn may come after the one served last (`IsNext`): it has a command due, and while a submission is in progress it
//! is the peer of that, or its source was not put off. Before all comes the peer of the current submission, if that has
//! its share, or if none is, a source that was put off. Its command is the next of what came from it, and the answer is
//! that on the hill which stands then (`Serves`). A step of a submission changes neither the peers nor the store
//! (`IsStepped`). Nor does a source of another peer that is put off then, but for its mark (`IsPutOff`). At most 4,096
//! bytes of a peer wait and 16,777,216 come, and at most 1,048,576 bytes of answers to it are unsent: beyond that its
//! session ends, and no other. A service feeds them, and sends what they say.
//!
//! An answer must not go out before its submission is stored, and nothing of a submission in which the device failed. A
//! submission must not be carried out unless there is room and memory for its reply. The buffers of a session take
//! memory when it begins, and then its answers do.
#![tactic(auto)]

mod answers;
mod end;
mod inbox;
mod judge;
mod laws;
mod numbers;
mod outbox;
mod peer;
mod peers;
mod reply;
mod sessions;
mod turns;
mod waiting;

pub use end::PeerEnd;
pub use judge::Judge;
pub use koth_protocol::{Counted, Line, ReadFault, WriteFault};
pub use laws::sessions_in_lives;
pub use peer::Peer;
pub use peers::{NotConnected, Peers, Step};
pub use reply::{line_of, table_of, write_reply};
pub use sessions::{SessionEnd, session, session_within};
