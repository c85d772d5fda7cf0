//! What happens in a round.

use mars_core::Side;
use war_types::Instr;

/// One thing that happens in a round. A turn has an event for its beginning, then one for each cell that it changes,
/// then one for each process that it adds.
#[derive(Clone, Copy, Debug, PartialEq, Eq)]
pub enum Event {
    /// A turn of this side begins: the process at the front of its queue is taken, and executes the instruction at this
    /// address.
    Turn(Side, u16),
    /// The cell at this address holds this instruction now.
    Cell(u16, Instr),
    /// A process at this address is added at the end of the queue of the side whose turn it is.
    Process(u16),
}
