//! Steps that several chapters take with nothing told.

use crate::memory::{Memory, cell_2345};
use crate::sending::Sending;
use crate::two_ports::TwoPorts;
use refusals::Refusal;
use routes::Route;
use switch::ArrivalTicket;

/// Cells with this VCI go to this output, and leave with the new VCI.
pub fn route(vci: u16, output: u8, new_vci: u16) -> Route {
    Route {
        vci,
        output,
        new_vci,
    }
}

/// A slot in which both inputs get a cell.
pub fn filled(two: &mut TwoPorts, memory: &mut Memory) -> Result<ArrivalTicket, Refusal> {
    let ticket = two.open()?;
    let _ = two.arrive(&ticket, 0, &cell_2345(0x6A), &mut memory.blocks);
    let _ = two.arrive(&ticket, 1, &cell_2345(0x6A), &mut memory.blocks);
    Ok(ticket)
}

/// Such a slot from its opening to its close.
pub fn passed(mut two: TwoPorts, memory: &mut Memory) -> Result<TwoPorts, Refusal> {
    let ticket = filled(&mut two, memory)?;
    let sending = Sending::decide(two, ticket).map_err(|undecided| undecided.refusal)?;
    let (two, _) = sending.finish(memory);
    Ok(two)
}
