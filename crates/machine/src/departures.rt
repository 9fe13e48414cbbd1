//! What the end of a slot leaves to tell.

ghost use Rattle.std.specs.Prelude.{◌≡◌, ◌≤◌, length};

use law::{Note, SlotClosed};

mod calls;

/// A cell that was sent: its output, its note, and the cell as it left.
#[derive(Clone, Copy)]
pub struct Sent {
    pub output: u8,
    pub note: Note,
    pub cell: [u8; 53],
}

/// The cells that were sent in a slot, in the order in which they were sent.
#[derive(Clone, Copy)]
pub struct Departures {
    // An array and a count, since an `ArrayVec` is not `Copy`.
    sent: [Sent; 8],
    count: usize,
    ghost few: { count ≤ 8 },
    ghost places: { length sent ≡ 8 },
}

/// The cells that were sent in a slot, and what its close answered.
#[derive(Clone, Copy)]
pub struct EndedSlot {
    pub departures: Departures,
    pub closed: SlotClosed,
}
