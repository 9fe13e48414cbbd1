//! Three reservations on a diagonal arbiter.

ghost use Rattle.piles.specs.Three.{Piled};

use arbiters::{Diagonal, Reservation};
use refusals::Refusal;

/// Three reservations on a diagonal arbiter.
pub type Pile = Reservation<Reservation<Reservation<Diagonal>>>;

/// Three reservations, of the periods `low`, `middle` and `high`, on a diagonal arbiter.
pub fn pile_of_three(ports: u8, low: u8, middle: u8, high: u8) -> Result<Pile, Refusal>
    ensures { Piled ports low middle high result }
{
    let diagonal = Diagonal::new(ports)?;
    let lowest = Reservation::new(diagonal, low)?;
    let second = Reservation::new(lowest, middle)?;
    Ok(Reservation::new(second, high)?)
}
