//! The pile of given periods.

ghost use Rattle.delays.specs.Delays.{Answers};
ghost use Rattle.delays.specs.Piles.{Stands};

use crate::periods::Periods;
use piles::{Pile, pile_of_three};
use refusals::Refusal;

/// A pile of these periods, the lowest on a diagonal arbiter of so many ports. Refused are a port count outside 2 to 8 and then a
/// period outside 2 to 64.
pub fn pile(ports: u8, periods: Periods) -> Result<Pile, Refusal>
    ensures { Answers ports periods (Stands ports periods) result }
{
    pile_of_three(ports, periods.low, periods.middle, periods.high)
}
