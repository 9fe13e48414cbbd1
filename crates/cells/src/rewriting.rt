//! The rewriting of a cell's VCI, which replaces those sixteen bits and nothing else.

ghost use Rattle.cells.specs.Header.{rewritten};
ghost use Rattle.cells.specs.Reading.{of_cell, where_cell};
ghost use Rattle.cells.specs.Rewriting.{RewritingLaw};
ghost use Rattle.std.specs.Prelude.{◌≡◌};

use crate::Cell;
use refusals::Refusal;

/// Gives a cell another VCI.
pub fn rewrite_cell(cell: &mut Cell, new_vci: u16)
    ensures after { cell.new ≡ rewritten cell.old new_vci }
    ensures law { RewritingLaw }
{
    cell[1] = cell[1] / 16 * 16 + (new_vci / 4096) as u8;
    cell[2] = (new_vci / 16 % 256) as u8;
    cell[3] = (new_vci % 16) as u8 * 16 + cell[3] % 16;
}

/// Gives a cell handed in as a slice of bytes another VCI. Refuses what is not 53 bytes, and leaves it as it was.
pub fn rewrite(bytes: &mut [u8], new_vci: u16) -> Result<(), Refusal>
    ensures answer { result ≡ of_cell bytes.old tt }
    ensures after { bytes.new ≡ where_cell bytes.old (rewritten bytes.old new_vci) bytes.old }
{
    let cell = bytes.as_mut_array().ok_or(Refusal::CellLength)?;
    rewrite_cell(cell, new_vci);
    Ok(())
}
