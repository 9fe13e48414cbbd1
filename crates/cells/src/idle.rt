//! The idle cell, which fills the line while there is nothing to send.

ghost use Rattle.cells.specs.Header.{is_idle};
ghost use Rattle.cells.specs.Reading.{of_cell};
ghost use Rattle.std.specs.Prelude.{◌≡◌};

use crate::Cell;
use refusals::Refusal;

/// Whether a cell handed in as a slice of bytes is idle. Refuses what is not 53 bytes.
pub fn is_idle(bytes: &[u8]) -> Result<bool, Refusal>
    ensures { result ≡ of_cell bytes.now (is_idle bytes.now) }
{
    let cell = bytes.as_array().ok_or(Refusal::CellLength)?;
    Ok(is_idle_cell(cell))
}

/// Whether a cell is idle: its first four bytes are 00 00 00 01.
pub fn is_idle_cell(cell: &Cell) -> bool
    ensures { result ≡ is_idle cell.now }
{
    matches!(cell, [0, 0, 0, 1, ..])
}
