//! A switch over a pile of three reservations.

ghost use Rattle.delays.specs.Delays.{Answers};
ghost use Rattle.delays.specs.Leaving.{AllLeave, Starts};
ghost use Rattle.delays.specs.Piles.{periods_of, piled};
ghost use Rattle.law.specs.Law.{Lawful};
ghost use Rattle.law.specs.Runs.{made};
ghost use Rattle.switch.specs.Seen.{view};
ghost use Rattle.std.specs.Prelude.{◌≡◌};

use crate::making::pile;
use crate::periods::Periods;
use piles::Pile;
use refusals::Refusal;
use switch::Switch;

/// A switch over a pile just made of these periods, the lowest on a diagonal arbiter of so many ports. After any run of calls a cell
/// accepted with k ahead has left once `Periods::closings_until_left` slots have closed. Refused as the pile is.
pub fn piled_switch(
    ports: u8,
    periods: Periods,
    mark: u32,
    first: u32,
) -> Result<Switch<Pile>, Refusal>
    ensures { Answers ports periods (λ s. Starts ports periods mark first (view s)) result }
{
    let arbiter = pile(ports, periods)?;
    Ok(switch_over(arbiter, mark, first))
}

/// A switch over a pile in any state and with any reserved pairs: the closings go by its own port count and periods.
pub fn switch_over(arbiter: Pile, mark: u32, first: u32) -> Switch<Pile>
    ensures made { view result ≡ made piled arbiter mark first }
    ensures law { Lawful piled arbiter (view result) }
    ensures leave { AllLeave (piled.ports arbiter) (periods_of arbiter) (view result) }
{
    Switch::new(arbiter, mark, first)
}
