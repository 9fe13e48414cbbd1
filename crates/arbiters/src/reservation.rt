//! A reservation on any arbiter, which is again an arbiter: in the last slot of each period it lets the reserved pairs go first and
//! leaves the arbiter below alone; in the others it hands all requests down.

ghost use Rattle.std.specs.Prelude.{◌≡◌};

use crate::arbiter::Arbiter;
use crate::period::Period;
use crate::reserved::Reserved;
use refusals::Refusal;

pub mod calls;

/// A reservation, and the arbiter below it.
#[derive(Drop)]
pub struct Reservation<A: Arbiter> {
    below: A,
    reserved: Reserved,
    period: Period,
}

/// An arbiter on which no reservation was put, and why.
#[derive(Drop)]
pub struct Unreserved<A: Arbiter> {
    pub below: A,
    pub why: Refusal,
}

/// The refusal alone: the arbiter is let go.
impl<A: Arbiter + Drop> From<Unreserved<A>> for Refusal {
    ghost from_gives = { λ e r. r ≡ e.why };

    fn from(unreserved: Unreserved<A>) -> Refusal {
        unreserved.why
    }
}
