//! What a service keeps of each peer next to its session, and for how long: its address, when something of it happened
//! last, and what is thrown away at its end. It knows neither sessions nor sockets. The modules:
//!
//! - `times`: how long a peer and a browser are waited for, and how long a step of a submission takes;
//! - `places`: whether a place may be given to another, and which one made no use of its own for longest;
//! - `seats`: what is kept of each peer, by their numbers.
//!
//! The main clauses: a call changes the seat of one peer and no other (`OnlySeat`), and a seat changes as the call says
//! (`SeatMoves`). A place may be given to another if no byte came for too long, or nothing whole did for longer
//! (`IsUnused`).
#![tactic(auto)]

mod places;
mod seats;
mod times;

pub use places::{Keeping, longer};
pub use seats::{Draining, Seat, Seats};
pub use times::{
    ANSWERING, ASKING, DRAIN, DRAINED_MOST, LONG_STEP, PATIENCE, RETRY, SHARE, SHORT_STEP, UNASKED,
    UNHEARD, UNSPOKEN, UNUSED,
};
