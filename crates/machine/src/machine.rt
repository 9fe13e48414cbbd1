//! The state of a machine.

ghost use Rattle.std.specs.Prelude.{◌≡◌, ◌≤◌, false, length};
ghost use Rattle.machine.specs.Fitting.{unfit};
ghost use Rattle.switch.specs.Seen.{view};

use arbiters::Arbiter;
use law::{Block, Note};
use switch::{ArrivalTicket, Switch};

mod calls;

/// A switch with its memory, of which it is lent as much as its ports need, and the ticket of its open slot.
#[derive(Drop)]
pub struct Machine<A: Arbiter> {
    switch: Switch<A>,
    ticket: Option<ArrivalTicket>,
    blocks: [Block; 128],
    notes: [Note; 64],
    bytes: [u8; 424],
    ghost fits: { unfit (view switch) ticket ≡ false },
    ghost room: { 1 ≤ length (view switch).notes.free },
    ghost cells: { length blocks ≡ 128 },
    ghost kept: { length notes ≡ 64 },
    ghost sized: { length bytes ≡ 424 },
}
