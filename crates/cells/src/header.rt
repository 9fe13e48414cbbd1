//! The fields of a cell's header. Byte 4, the header's check byte, is carried as it came and read by nobody.

ghost use Rattle.cells.specs.Header.{vci_of};
ghost use Rattle.cells.specs.Reading.{IsHeaderOf, header_of, of_cell};
ghost use Rattle.std.specs.Prelude.{◌≡◌};

use crate::Cell;
use refusals::Refusal;

/// The fields of the header of a cell.
#[derive(Clone, Copy, PartialEq, Eq, Debug)]
pub struct Header {
    /// Generic flow control, four bits.
    pub gfc: u8,
    /// The virtual path, eight bits at the user network interface.
    pub vpi: u8,
    /// The virtual circuit, sixteen bits.
    pub vci: u16,
    /// The payload type, three bits.
    pub payload_type: u8,
    /// The cell loss priority, one bit: 1 is a cell that is lost first.
    pub loss_priority: u8,
}

impl From<&Cell> for Header {
    ghost from_gives = { λ cell header. IsHeaderOf cell.now header };

    fn from(cell: &Cell) -> Header {
        let [first, second, _, fourth, ..] = *cell;
        Header {
            gfc: first / 16,
            vpi: first % 16 * 16 + second / 16,
            vci: vci(cell),
            payload_type: fourth / 2 % 8,
            loss_priority: fourth % 2,
        }
    }
}

impl TryFrom<&[u8]> for Header {
    type Error = Refusal;

    ghost try_from_gives = { λ bytes answer. answer ≡ of_cell bytes.now (header_of bytes.now) };

    fn try_from(bytes: &[u8]) -> Result<Header, Refusal> {
        let cell = bytes.as_array().ok_or(Refusal::CellLength)?;
        Ok(Header::from(cell))
    }
}

/// The VCI of a cell: the lower half of byte 1, byte 2 and the upper half of byte 3.
pub fn vci(cell: &Cell) -> u16
    ensures { result ≡ vci_of cell.now }
{
    let [_, second, third, fourth, ..] = *cell;
    (second % 16) as u16 * 4096 + third as u16 * 16 + (fourth / 16) as u16
}
