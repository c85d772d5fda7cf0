//! What a browser asks of a hill, and what it is answered, as values.
//!
//! It knows bytes, and no hill, pages or sockets. The modules, in the order in which the data pass:
//!
//! - `visit`: the bytes of one connection;
//! - `asked`: what they ask, once the head of a request is there;
//! - `host` and `target`: which host a request is for, and which page its target names;
//! - `refusal` and `response`: why there is no page, and the bytes of an answer;
//! - `tags`: by which a browser says that it has a text already, and gets no second one.
//!
//! What `Visit::asked` says is stated of all bytes that came, so it is the same however they were cut. A whole head with at most 64 fields
//! is answered as what its method and its target ask, by the grammar of HTTP/1.1, and only if it is for a host of this machine: an address,
//! `localhost`, or a name that is given. While the bytes may still become a head of at most 8,192 bytes, the answer is `None`. Each refusal
//! has its reason; bytes with two reasons may be refused for either. A page has one target, but for the query, and the page of a target is
//! read back from it. An answer is exactly its definition in `specs`, with the length of its body. The hill has tags, which are the SHA-256 of
//! its texts: a request that names the tag of the text as it is now is answered without it (304).
//!
//! `Visit::line` and `status_of` are for a log, and no clause speaks of them.
//!
//! Only the room of a visit and an answer take memory.
#![tactic(auto)]

mod asked;
mod host;
mod refusal;
mod response;
mod tags;
mod target;
mod visit;

pub use asked::Asked;
pub use refusal::Refusal;
pub use response::{missing, page_response, refusal_response, status_of};
pub use target::{Page, page_named};
pub use visit::Visit;
