//! What can be seen of a switch without a ticket.

ghost use Rattle.switch.specs.Seen.{Lines, Looks};

use super::{BLOCKS, Switch};
use arbiters::Arbiter;
use cells::CELL_BYTES;
use law::Block;
use outgoing::{check_length, line_of, show_at};
use refusals::Refusal;

impl<A: Arbiter> Switch<A> {
    /// Looks at the head of a queue as it will leave, in 53 bytes given for it. The header is rewritten in cell memory
    /// for the copy, and put back on every way out.
    pub fn look(
        &self,
        input: u8,
        output: u8,
        blocks: &mut [Block],
        bytes: &mut [u8],
    ) -> Result<(), Refusal>
        ensures { Looks self.now input output blocks.old bytes.old result blocks.new bytes.new }
    {
        let ports = self.ports.number();
        if input >= ports || output >= ports {
            return Err(Refusal::PortBeyond);
        }
        if blocks.len() != ports as usize * BLOCKS {
            return Err(Refusal::CellMemoryLength);
        }
        match self.cells[input as usize].head_block(output as usize) {
            Ok(block) => show_at(blocks, input as usize * BLOCKS + block, bytes),
            Err(_) => {
                check_length(bytes)?;
                Err(Refusal::NoCell)
            }
        }
    }

    /// What is on the line of an output: its 53 slot bytes if it was sent to since the latest decision, else the idle
    /// cell that is given.
    pub fn line<'a>(&self, output: u8, bytes: &'a [u8], idle: &'a [u8]) -> Result<&'a [u8], Refusal>
        ensures { Lines self.now output bytes.now idle.now result }
    {
        let ports = self.ports.number();
        if output >= ports {
            return Err(Refusal::PortBeyond);
        }
        if bytes.len() != ports as usize * CELL_BYTES {
            return Err(Refusal::SlotBytesLength);
        }
        line_of(bytes, output as usize, self.sent.has(output as usize), idle)
    }
}
