//! Sockets of the system for `koth_service`, over `mio`'s poll.
//!
//! Nothing here waits but `PolledSockets::wait`, and nothing is known of commands, hills or pages. The modules, in the
//! order in which the data pass:
//!
//! - `door`: one listener, and the connection that it accepted last;
//! - `line`: one socket, and whether a read or a write of it may give something;
//! - `polled`: the listeners for peers and for browsers, and the sockets that they accepted, by their numbers;
//! - `log`: standard error, to which the lines of a log go as far as it takes them at once.
//!
//! It says of the system what `Sockets` asks for: a read or a write counts no more bytes than there are. It doesn't
//! record what happened on the sockets, since no clause speaks of the system.
#![tactic(auto)]

mod door;
mod line;
mod log;
mod polled;

pub use log::PolledLog;
pub use polled::PolledSockets;
