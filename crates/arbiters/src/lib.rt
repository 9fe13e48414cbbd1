//! Crossbar arbiters: what an arbiter is, the diagonal and the ripple arbiter, and the reservation that stands on any arbiter.
#![tactic(auto)]

mod arbiter;
mod diagonal;
mod period;
mod reservation;
mod reserved;
mod ripple;
mod turning;
mod wiring;

pub use arbiter::Arbiter;
pub use diagonal::{Diagonal, Diagonals};
pub use reservation::{Reservation, Unreserved};
pub use ripple::{Ripple, Ripples};
pub use turning::Turning;
pub use wiring::Wiring;
