//! How far a slot has come.

/// No slot is open; cells may arrive in the slot; the slot's grants are being sent.
#[derive(Clone, Copy, PartialEq, Eq, Debug)]
pub enum Stage {
    Closed,
    Arriving,
    Sending,
}
