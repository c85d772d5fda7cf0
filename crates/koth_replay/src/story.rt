//! How a round ended, and why.

use mars_core::Side;
use war_types::Instr;

/// How a round ended, at the end of all of its turns.
#[derive(Clone, Copy, Debug, PartialEq, Eq)]
pub enum Story {
    /// A side's last process ended, so the other side won.
    Fell(Fall),
    /// No one won: the older warrior had this number of processes, then the younger one.
    Tied(u32, u32),
}

/// The end of a side's last process.
#[derive(Clone, Copy, Debug, PartialEq, Eq)]
pub struct Fall {
    /// The side that lost.
    pub side: Side,
    /// The number of the turn in which its process ended, counted from 1: the last one of the round.
    pub turn: u32,
    /// The address of the instruction that it executed in that turn.
    pub at: u16,
    /// That instruction, as it was there before the turn.
    pub instr: Instr,
    /// Who changed that cell last before the turn.
    pub writer: Writer,
}

/// Who changed a cell last. What writes the instruction that a cell holds already changes nothing.
#[derive(Clone, Copy, Debug, PartialEq, Eq)]
pub enum Writer {
    /// This side, in the turn of this number, counted from 1.
    Turn(Side, u32),
    /// No one: the cell holds what the warrior of this side was loaded with.
    Loaded(Side),
    /// No one: nothing was loaded there either.
    Nobody,
}
