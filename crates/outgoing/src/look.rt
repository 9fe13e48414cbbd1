//! Looking at a stored cell as it will leave.

ghost use Rattle.outgoing.specs.Look.{look_at, look_into, of_length};
ghost use Rattle.outgoing.specs.Results.{answered, written};
ghost use Rattle.std.specs.Prelude.{◌≡◌};

use crate::stored::Rewritten;
use cells::CELL_BYTES;
use law::Block;
use refusals::Refusal;

/// Refuses bytes that are not 53: those given for a look, or the idle cell given for a line.
pub fn check_length(bytes: &[u8]) -> Result<(), Refusal>
    ensures { result ≡ of_length bytes.now tt }
{
    if bytes.len() != CELL_BYTES {
        return Err(Refusal::IdleOrLookLength);
    }
    Ok(())
}

/// Shows a stored cell as it will leave, in 53 bytes given for it. The cell is rewritten where it is stored, for the
/// copy, and afterwards is as it was, also where the bytes are refused.
pub fn show_block(block: &mut Block, bytes: &mut [u8]) -> Result<(), Refusal>
    ensures answer { result ≡ answered (look_into block.old bytes.old) }
    ensures bytes { bytes.new ≡ written (look_into block.old bytes.old) bytes.old }
    ensures kept { block.new ≡ block.old }
{
    let leaving = Rewritten::to(&mut block.cell, block.new_vci);
    check_length(bytes)?;
    bytes.copy_from_slice(&*leaving.cell);
    Ok(())
}

/// Shows the cell in the block `at` of cell memory as it will leave, in 53 bytes given for it, and leaves cell memory as
/// it was. Refuses bytes that are not 53, and then a block that there is not.
pub fn show_at(cells: &mut [Block], at: usize, bytes: &mut [u8]) -> Result<(), Refusal>
    ensures answer { result ≡ answered (look_at cells.old at bytes.old) }
    ensures bytes { bytes.new ≡ written (look_at cells.old at bytes.old) bytes.old }
    ensures kept { cells.new ≡ cells.old }
{
    if at >= cells.len() {
        check_length(bytes)?;
        return Err(Refusal::NoCell);
    }
    // Not by `get_mut`, which promises nothing of the whole memory once the block is given back.
    show_block(&mut cells[at], bytes)
}
