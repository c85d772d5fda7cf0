//! The bytes of a hill: its header, and the slots of its warriors with the results of their matches, each written to sectors and read back.
//!
//! `format` has what differs between the two formats: the first bytes of a header, and the sectors and instructions of a slot. `header` is
//! all of a hill but its warriors, with the slots that hold them. It is put together by `header/writer`, which fills a sector from its
//! beginning on, and read by the numbers of `header/reader`. `slot` is the sectors of one warrior, with the `wins` of its matches, and
//! `old_slot` a slot of the old format, widened to the new one.
//!
//! The main clauses: what is encoded is `header_bytes` and `slot_bytes` of `specs/Layout`, byte by byte. What is decoded is the one header
//! or warrior with just these bytes, and `None` only if there is none (`IsDecoded`, `IsSlotRead`). Decoding encodes again and compares, so
//! no byte is left out of the comparison. A header's entries rise, have distinct slots, and are at most the capacity (`IsHeaderParts`).
//!
//! Nothing here knows where sectors lie, or reads or writes a device. Memory is taken only for a warrior's code.
#![tactic(auto)]

mod format;
mod header;
mod old_slot;
mod slot;
mod wins;

pub use format::Format;
pub use header::{
    Header, HeaderEntry, decode_header, decode_in, decode_old_header, encode_header, encode_in,
    encode_old_header,
};
pub use old_slot::OldSlot;
pub use slot::{RESULTS, SECTORS, Slot};
pub use wins::Wins;
