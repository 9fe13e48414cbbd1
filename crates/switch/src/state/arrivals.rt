//! The arrival of cells.

ghost use Rattle.std.specs.Prelude.{◌≡◌, ◌+◌, ◌*◌, ◌<◌, ◌≤◌, length};
ghost use Rattle.switch.specs.Ready.{cells_of};
ghost use Rattle.switch.specs.Seen.{Accepts, Arrives, Stores};

use super::{BLOCKS, Switch};
use crate::tickets::ArrivalTicket;
use arbiters::Arbiter;
use cells::{Cell, is_idle_cell, vci};
use law::{Arrival, Block, Stage};
use queues::Links;
use refusals::Refusal;

impl<A: Arbiter> Switch<A> {
    /// A cell arrives at an input, once in each slot. An idle cell is not stored; any other joins the queue that its
    /// route names, in a block of its own. The input's blocks are 16 × `input` to 16 × `input` + 15 of cell memory.
    pub fn arrive(
        &mut self,
        ticket: &ArrivalTicket,
        input: u8,
        cell: &[u8],
        blocks: &mut [Block],
    ) -> Result<Arrival, Refusal>
        ensures { Arrives self.old ticket.now input cell.now blocks.old result self.new blocks.new }
    {
        let ports = self.ports.number();
        if input >= ports {
            return Err(Refusal::PortBeyond);
        }
        let Ok(cell) = <&Cell>::try_from(cell) else {
            return Err(Refusal::CellLength);
        };
        if blocks.len() != ports as usize * BLOCKS {
            return Err(Refusal::CellMemoryLength);
        }
        if !self.fits(ticket.stamp, Stage::Arriving) {
            return Err(Refusal::WrongTicket);
        }
        if self.used.has(input as usize) {
            return Err(Refusal::TurnUsed);
        }
        if is_idle_cell(cell) {
            self.used = self.used.with(input as usize);
            return Ok(Arrival::Idle);
        }
        self.accept(input, cell, blocks)
    }

    /// Looks for the route of a cell that is not idle, and stores the cell in the queue that the route names.
    fn accept(&mut self, input: u8, cell: &Cell, blocks: &mut [Block]) -> Result<Arrival, Refusal>
        requires port { input < self.old.ports.number }
        requires blocks { length blocks.old ≡ self.old.ports.number * 16 }
        ensures { Accepts self.old input cell.now blocks.old result self.new blocks.new }
    {
        let Some(route) = self.routes.find(input, vci(cell)) else {
            return Err(Refusal::NoRoute);
        };
        let place = input as usize;
        let ahead = store(
            &mut self.cells,
            blocks,
            place,
            route.output as usize,
            Block {
                cell: *cell,
                new_vci: route.new_vci,
            },
        )?;
        self.used = self.used.with(place);
        Ok(Arrival::Accepted {
            output: route.output,
            ahead,
        })
    }
}

/// Stores a block in the first free block of an input, at the tail of the queue, and says how many stand ahead there.
/// The input's part of cell memory goes to the queue.
fn store(
    links: &mut [Links<16>],
    blocks: &mut [Block],
    input: usize,
    queue: usize,
    block: Block,
) -> Result<usize, Refusal>
    requires queue { queue < 8 }
    requires links { input < length links.old }
    requires blocks { input * 16 + 16 ≤ length blocks.old }
    ensures { Stores (cells_of links.old) blocks.old input queue block result (cells_of links.new) blocks.new }
{
    let start = input * BLOCKS;
    links[input]
        .join(&mut blocks[start..start + BLOCKS], queue, block)
        .map_err(|_| Refusal::InputFull)
}
