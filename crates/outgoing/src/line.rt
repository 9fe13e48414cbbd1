//! What is on the line of an output.

ghost use Rattle.outgoing.specs.Results.{handed};
ghost use Rattle.outgoing.specs.SlotBytes.{line_of};
ghost use Rattle.std.specs.Prelude.{◌≡◌};

use crate::look::check_length;
use cells::CELL_BYTES;
use refusals::Refusal;

/// Hands out the 53 slot bytes of an output that was sent to, or else the idle cell. Refuses slot bytes that have no 53
/// for the output, and then an idle cell that is not 53 bytes, whether or not the output was sent to.
pub fn line_of<'a>(
    slot_bytes: &'a [u8],
    output: usize,
    sent: bool,
    idle: &'a [u8],
) -> Result<&'a [u8], Refusal>
    ensures { handed result ≡ line_of slot_bytes.now output sent idle.now }
{
    let (lines, _) = slot_bytes.as_chunks::<CELL_BYTES>();
    let line = lines.get(output).ok_or(Refusal::SlotBytesLength)?;
    check_length(idle)?;
    Ok(if sent { line } else { idle })
}
