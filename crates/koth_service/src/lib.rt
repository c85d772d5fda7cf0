//! The service of many peers at once: bytes go from sockets that don't wait to the sessions of `koth_session`, and
//! their answers back. Browsers see the hill next to them.
//!
//! It knows sockets, a clock and a host through two traits, and nothing of the system: `koth_sockets` has its sockets.
//! The modules, in the order in which the data pass:
//!
//! - `sockets`: what sockets may say, and what happened on them;
//! - `host`: who reports what happens, and opens the hill again;
//! - `log`: an output that takes these reports without waiting;
//! - `limits`: how many are served;
//! - `desk`: the peers, the store and their seats, of `koth_seats`; `arrivals`, `reading`, `serving`, `sending` and
//!   `parting` move one peer on it;
//! - `unsent`, `connections`, `slots`, `answering`, `moves` and `browsers`: connections of browsers, which of them have
//!   slots, what they are answered, by `koth_http`, and how that goes out;
//! - `service`: round after round of them, until as many sessions as are asked for have ended.
//!
//! The main clause: whatever the sockets say, there is a history (`IsHistory`) of what happened on them, of the
//! commands that were carried out in between, and of the answers to browsers. In it each peer's commands are carried
//! out in the order in which they came, and none that came after a browser's request, and no peer before it has one
//! that may be carried out (`IsTurn`): before all comes the submission that is in progress, by its share, and a source
//! that was put off, once none is. Browsers have their share, too (`MayReply`). Each is answered on the hill that stood
//! then. A source that is refused waits for no submission of another peer: only one that gives a warrior is put off
//! (`PutsOff`). What goes out to a peer is the next of what it was answered. A peer is disconnected for a cause that
//! the history has (`IsCause`), and has all its answers before, unless they had no room, it was silent, it asked for a
//! page, its place was given to another, or it is gone. The hill is opened again only after the device failed in a
//! submission, from that device, and nothing more of that peer is carried out. At each moment every image that a stop
//! may leave of the device stands for what the submissions that were answered earn (`AreHeld`). Each browser is
//! answered at most once, as the bytes that came from it ask, by what the host shows of the hill that stood then. What
//! goes out to it is the next of that answer. `laws` says what a service is in the life of its device.
//!
//! A peer must not wait for another peer's bytes, nor for room for another peer's answers. Each peer takes a seat of
//! some tens of bytes, besides what its session takes, and no round takes memory of its own.
#![tactic(auto)]

mod answering;
mod arrivals;
mod browsers;
mod connections;
mod desk;
mod host;
mod laws;
mod limits;
mod log;
mod moves;
mod parting;
mod reading;
mod sending;
mod service;
mod serving;
mod slots;
mod sockets;
mod unsent;

pub use host::{Event, Host, HowEnded, WhyUnasked};
pub use koth_seats::{
    ANSWERING, ASKING, DRAIN, DRAINED_MOST, PATIENCE, RETRY, SHARE, UNASKED, UNHEARD, UNSPOKEN,
    UNUSED,
};
pub use koth_session::PeerEnd;
pub use laws::services_in_lives;
pub use limits::Limits;
pub use log::LogWrite;
pub use service::{ServiceFault, serve_peers};
pub use sockets::{Arrival, Came, Drained, Sockets, Went};
