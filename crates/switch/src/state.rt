//! The state of a switch.

ghost use Rattle.std.specs.Prelude.{◌≡◌, ◌≤◌, length};
ghost use Rattle.switch.specs.Ready.{Ready, Within};

use arbiters::Arbiter;
use grants::PortCount;
use law::Stage;
use pairs::{Ports, Table};
use queues::Links;
use routes::Routes;

mod arrivals;
mod departures;
mod making;
mod notes;
mod routing;
mod slots;
mod views;

/// How many blocks of cell memory each input has.
const BLOCKS: usize = 16;

/// How many blocks note memory has.
const NOTE_BLOCKS: usize = 64;

/// A switch over an arbiter. Cell blocks, notes and slot bytes are lent at each call; links and routes lie here.
#[derive(Drop)]
pub struct Switch<A: Arbiter> {
    arbiter: A,
    ports: PortCount,
    mark: u32,
    /// The number of the next slot to be opened.
    next: u64,
    stage: Stage,
    /// The inputs whose turn in this slot is used.
    used: Ports,
    /// The latest decision's grants that are not sent yet, and how many it had.
    grants: Table,
    granted: u8,
    /// The outputs sent to since the latest decision.
    sent: Ports,
    routes: Routes,
    /// The queues of each input, and those of the notes.
    cells: [Links<16>; 8],
    notes: Links<64>,
    ghost numbered: { next ≤ 4294967296 },
    ghost sized: { length cells ≡ 8 },
    ghost within: { Within ports.number grants },
    ghost ready: { Ready grants cells },
}
