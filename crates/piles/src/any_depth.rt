//! As many reservations as a type is written deep.

ghost use Rattle.std.specs.Prelude.{◌≡◌, ℕ, suc, ◌-◌};
ghost use Rattle.arbiters.specs.Reservations.{Fresh};
ghost use Rattle.piles.specs.Deep.{Made};

use arbiters::{Arbiter, Reservation, Turning, Wiring};
use refusals::Refusal;

/// An arbiter with as many reservations on it as its type is written deep, all of one period.
pub trait Deep: Arbiter + Drop {
    /// How many reservations there are.
    ghost depth: { ℕ };

    /// The bound of the arbiter at the bottom, from its ports.
    ghost lowest: { ℕ → ℕ };

    /// Whether the pile is new, with these ports and this period.
    ghost fresh: { ℕ → ℕ → Self → Type 0 };

    /// A new pile.
    fn new(ports: u8, slots: u8) -> Result<Self, Refusal>
        ensures { Made depth ports slots (lowest ports) (fresh ports slots) Self.Arbiter.meaning.bound result };
}

impl<W: Wiring> Deep for Turning<W> {
    ghost depth = { 0 };

    ghost lowest = { λ n. W.Wiring.wired.turns n - 1 };

    ghost fresh = { λ n k s. (s.ports.number ≡ n) × (s.turn ≡ 0) };

    fn new(ports: u8, slots: u8) -> Result<Turning<W>, Refusal> {
        Turning::new(ports)
    }
}

impl<A: Deep> Deep for Reservation<A> {
    ghost depth = { suc A.Deep.depth };

    ghost lowest = { A.Deep.lowest };

    ghost fresh = { λ n k s. A.Deep.fresh n k s.below × Fresh s.below k s };

    fn new(ports: u8, slots: u8) -> Result<Reservation<A>, Refusal> {
        let below = A::new(ports, slots)?;
        Ok(Reservation::new(below, slots)?)
    }
}
