//! The period of a reservation.

ghost use Rattle.std.specs.Prelude.{◌<◌, ◌≤◌};

mod calls;

/// A period of `slots` slots, the last of which is reserved: that one comes after `left` others.
#[derive(Clone, Copy)]
pub struct Period {
    slots: u8,
    left: u8,
    ghost two: { 2 ≤ slots },
    ghost most: { slots ≤ 64 },
    ghost place: { left < slots },
}
