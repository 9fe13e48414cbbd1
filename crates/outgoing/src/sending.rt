//! Sending a cell: its bytes as it leaves go into the slot bytes of its output.

ghost use Rattle.outgoing.specs.Results.{answered, written};
ghost use Rattle.outgoing.specs.SlotBytes.{sending};
ghost use Rattle.std.specs.Prelude.{◌≡◌};

use cells::{CELL_BYTES, rewrite_cell};
use law::Block;
use refusals::Refusal;

/// Writes a stored cell, as it leaves, into the 53 bytes of its output, from 53 times its number on. Refuses slot bytes
/// that have not so many, and leaves them as they were.
pub fn send_into(slot_bytes: &mut [u8], output: usize, block: &Block) -> Result<(), Refusal>
    ensures answer { result ≡ answered (sending slot_bytes.old output block.now) }
    ensures bytes { slot_bytes.new ≡ written (sending slot_bytes.old output block.now) slot_bytes.old }
{
    if output >= slot_bytes.len() / CELL_BYTES {
        return Err(Refusal::SlotBytesLength);
    }
    let mut cell = block.cell;
    rewrite_cell(&mut cell, block.new_vci);
    // Not by `as_chunks_mut`, which promises nothing of the whole slice once a chunk is written.
    let at = output * CELL_BYTES;
    slot_bytes[at..at + CELL_BYTES].copy_from_slice(&cell);
    Ok(())
}
