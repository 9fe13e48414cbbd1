//! What a machine answers, written as lines.

ghost use Rattle.machine.specs.Machines.{ended_of};
ghost use Rattle.player.specs.Written.{departure_of, ended_lines, refusal_line, sent_lines};
ghost use Rattle.machine.specs.Listed.{listed};
ghost use Rattle.std.specs.Prelude.{◌≡◌, ◌++◌, OnOk};

use lines::{DepartureLine, closing_line, departure_line, refusal_line};
use machine::{Departures, EndedSlot, Sent};
use refusals::Refusal;
use std::alloc::AllocError;

/// What is written of a cell that was sent.
// No `From`, since neither type is this crate's.
fn departure_of(sent: &Sent) -> DepartureLine
    ensures { result ≡ departure_of sent.now }
{
    DepartureLine {
        output: sent.output,
        slot: sent.note.slot,
        input: sent.note.input,
        came: sent.note.came,
        left: sent.note.left,
        cell: sent.cell,
    }
}

/// Writes a line for each cell that was sent.
fn write_sent(departures: &Departures, out: &mut Vec<u8>) -> Result<(), AllocError>
    ensures { OnOk result (out.new.items ≡ out.old.items ++ sent_lines (listed departures.now)) }
{
    let all = departures.as_slice();
    for sent in all {
        let line = departure_line(&departure_of(sent));
        out.extend_from_slice(&line)?;
    }
    Ok(())
}

/// Writes a line for each cell that was sent in a slot, and one for its close.
pub fn write_ended(ended: &EndedSlot, out: &mut Vec<u8>) -> Result<(), AllocError>
    ensures { OnOk result (out.new.items ≡ out.old.items ++ ended_lines (ended_of ended.now)) }
{
    write_sent(&ended.departures, out)?;
    let line = closing_line(ended.closed.slot, ended.closed.grants);
    out.extend_from_slice(&line)
}

/// Writes the line for a line that was refused.
pub fn write_refusal(number: u32, refusal: Refusal, out: &mut Vec<u8>) -> Result<(), AllocError>
    ensures { OnOk result (out.new.items ≡ out.old.items ++ refusal_line number refusal) }
{
    let line = refusal_line(number, refusal.number());
    out.extend_from_slice(&line)
}
