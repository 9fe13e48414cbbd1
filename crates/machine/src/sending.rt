//! The grants of a slot sent one after the other.

ghost use Rattle.std.specs.Prelude.{◌≡◌, ◌+◌, ◌*◌, ◌≤◌, length};
ghost use Rattle.law.specs.View.{part};
ghost use Rattle.machine.specs.Listed.{listed};
ghost use Rattle.machine.specs.Sending.{CanSend, SendsAll, SendsOne, sending};
ghost use Rattle.switch.specs.Seen.{grant_of, view};

use crate::departures::{Departures, Sent};
use arbiters::Arbiter;
use cells::{CELL_BYTES, Cell};
use law::{Block, Note};
use switch::{GrantTicket, Switch};

/// How many blocks of cell memory each input has.
pub(crate) const BLOCKS: usize = 16;

/// The cell in the output's place of the slot bytes.
fn cell_at(bytes: &[u8], output: u8) -> Cell
    requires { output * 53 + 53 ≤ length bytes.now }
    ensures { result ≡ part output bytes.now }
{
    let start = output as usize * CELL_BYTES;
    let Ok(cell) = Cell::try_from(&bytes[start..start + CELL_BYTES]) else {
        unreachable()
    };
    cell
}

/// Sends the next grant, if one is left, and takes its note there and then.
// The memory comes part by part: of a struct whose three fields a call is lent at once, no proof knew the blocks afterwards.
fn send_one<A: Arbiter>(
    switch: &mut Switch<A>,
    grants: &GrantTicket,
    blocks: &[Block; 128],
    notes: &mut [Note; 64],
    bytes: &mut [u8; 424],
) -> Option<Sent>
    requires { CanSend (view switch.old) (grant_of grants.now) }
    ensures { SendsOne (grant_of grants.now) (sending (view switch.old) blocks.now notes.old bytes.old) result (sending (view switch.new) blocks.now notes.new bytes.new) }
{
    let ports = switch.ports().number() as usize;
    let cells = ports * BLOCKS;
    let size = ports * CELL_BYTES;
    match switch.depart(grants, &blocks[0..cells], notes, &mut bytes[0..size]) {
        Ok(departed) => match switch.take_note(departed.output, notes) {
            Ok(note) => Some(Sent {
                output: departed.output,
                note,
                cell: cell_at(&bytes[0..size], departed.output),
            }),
            Err(_) => unreachable(),
        },
        Err(_) => None,
    }
}

/// Sends all grants that are left.
pub(crate) fn send_all<A: Arbiter>(
    switch: &mut Switch<A>,
    grants: &GrantTicket,
    blocks: &[Block; 128],
    notes: &mut [Note; 64],
    bytes: &mut [u8; 424],
) -> Departures
    requires { (CanSend (view switch.old) (grant_of grants.now)) × (length (view switch.old).slot.grants ≤ 8) }
    ensures sent { SendsAll (grant_of grants.now) (sending (view switch.old) blocks.now notes.old bytes.old) (listed result) (sending (view switch.new) blocks.now notes.new bytes.new) }
    ensures sized { (length notes.new ≡ 64) × (length bytes.new ≡ 424) }
{
    let mut departures = Departures::none();
    while let Some(sent) = send_one(switch, grants, blocks, notes, bytes) {
        departures.push(sent);
    }
    departures
}
