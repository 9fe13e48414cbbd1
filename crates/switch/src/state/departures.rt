//! The departure of cells.

ghost use Rattle.std.specs.Prelude.{◌≡◌, ◌+◌, ◌*◌, ◌<◌, ◌≤◌, length, slice_index};
ghost use Rattle.queues.specs.Queues.{put, taken};
ghost use Rattle.switch.specs.Ready.{cells_of};
ghost use Rattle.switch.specs.Seen.{Departs, block_at};

use super::{BLOCKS, NOTE_BLOCKS, Switch};
use crate::tickets::GrantTicket;
use arbiters::Arbiter;
use cells::{CELL_BYTES, vci};
use law::{Block, Departed, Note, Stage};
use outgoing::send_into;
use queues::Links;
use refusals::Refusal;

impl<A: Arbiter> Switch<A> {
    /// Sends the grant of the lowest input not sent yet: the cell at the head of its queue leaves, its 53 bytes as it
    /// leaves go to the output's place in the slot bytes, and a note of it joins the notes of the output.
    pub fn depart(
        &mut self,
        ticket: &GrantTicket,
        blocks: &[Block],
        notes: &mut [Note],
        bytes: &mut [u8],
    ) -> Result<Departed, Refusal>
        ensures { Departs self.old ticket.now blocks.now notes.old bytes.old result self.new notes.new bytes.new }
    {
        let ports = self.ports.number() as usize;
        if blocks.len() != ports * BLOCKS {
            return Err(Refusal::CellMemoryLength);
        }
        if notes.len() != NOTE_BLOCKS {
            return Err(Refusal::NoteMemoryLength);
        }
        if bytes.len() != ports * CELL_BYTES {
            return Err(Refusal::SlotBytesLength);
        }
        if !self.fits(ticket.stamp, Stage::Sending) {
            return Err(Refusal::WrongTicket);
        }
        let Some((input, output)) = self.grants.first() else {
            return Err(Refusal::NoGrantLeft);
        };
        if self.notes.free_blocks() == 0 {
            return Err(Refusal::NotesFull);
        }
        let block = fetch(&mut self.cells, blocks, input, output);
        let note = Note {
            slot: ticket.stamp.slot,
            input: input as u8,
            came: vci(&block.cell),
            left: block.new_vci,
        };
        // Neither is refused: a note block is free, and the slot bytes have their full length.
        let _ = self.notes.join(notes, output, note);
        let _ = send_into(bytes, output, &block);
        self.grants = self.grants.without(input, output);
        self.sent = self.sent.with(output);
        Ok(Departed {
            input: input as u8,
            output: output as u8,
        })
    }
}

/// Takes the cell at the head of a queue of an input that holds one. The input's part of cell memory goes to the queue.
fn fetch(links: &mut [Links<16>], blocks: &[Block], input: usize, queue: usize) -> Block
    requires queue { queue < 8 }
    requires links { input < length links.old }
    requires blocks { input * 16 + 16 ≤ length blocks.now }
    requires waits { 1 ≤ length ((cells_of links.old input).queue queue) }
    ensures block { result ≡ block_at blocks.now input (slice_index ((cells_of links.old input).queue queue) 0) }
    ensures queues { cells_of links.new ≡ put (cells_of links.old) input (taken (cells_of links.old input) queue) }
{
    let start = input * BLOCKS;
    let Ok(block) = links[input].take(&blocks[start..start + BLOCKS], queue) else {
        unreachable()
    };
    block
}
