//! The periods of a pile of three reservations, and the delays that they make.

ghost use Rattle.std.specs.Prelude.{◌≡◌, ◌*◌, ◌<◌, ◌≤◌};
ghost use Rattle.arbiters.specs.Periods.{longest};
ghost use Rattle.delays.specs.Delays.{Answers, allowed, closings_until_left, longest_wait};
ghost use Rattle.piles.specs.Fits.{period_fits};

use refusals::Refusal;

/// The periods of three reservations that stand on one another, the lowest on a diagonal arbiter.
#[derive(Clone, Copy)]
pub struct Periods {
    pub low: u8,
    pub middle: u8,
    pub high: u8,
}

impl Periods {
    /// The longest wait of a pile of these periods on a diagonal arbiter of so many ports. Refused are a port count outside 2 to 8
    /// and then a period outside 2 to 64.
    pub fn longest_wait(self, ports: u8) -> Result<u8, Refusal>
        ensures { Answers ports self (λ w. w ≡ longest_wait ports self) result }
    {
        self.check(ports)?;
        let low = lengthened(ports - 1, self.low);
        let middle = lengthened(low, self.middle);
        Ok(lengthened(middle, self.high))
    }

    /// After how many closings, that of its own slot among them, a cell has left that was accepted with so many ahead in its queue.
    /// Refused as the longest wait is.
    pub fn closings_until_left(self, ports: u8, ahead: usize) -> Result<u128, Refusal>
        ensures { Answers ports self (λ c. c ≡ closings_until_left ports self ahead) result }
    {
        let wait = self.longest_wait(ports)?;
        Ok(product(ahead as u128 + 1, wait as u128 + 1))
    }

    /// Refuses a port count outside 2 to 8, and then a period outside 2 to 64.
    fn check(self, ports: u8) -> Result<(), Refusal>
        ensures { result ≡ allowed ports self }
    {
        if !(2..=8).contains(&ports) {
            return Err(Refusal::PortCount);
        }
        if fits(self.low) && fits(self.middle) && fits(self.high) {
            Ok(())
        } else {
            Err(Refusal::PeriodRange)
        }
    }
}

/// Whether it is a period: 2 to 64 slots.
fn fits(period: u8) -> bool
    ensures { result ≡ period_fits period }
{
    (2..=64).contains(&period)
}

/// The longest wait with a reservation of this period, from the longest without it.
fn lengthened(wait: u8, period: u8) -> u8
    requires { (wait < 64) × (2 ≤ period) }
    ensures { result ≡ longest period wait }
{
    wait + 1 + wait / (period - 1)
}

/// The closings of so many cells that leave one after the other, each within so many.
fn product(cells: u128, each: u128) -> u128
    requires { (cells ≤ 18446744073709551616) × (each ≤ 256) }
    ensures { result ≡ cells * each }
{
    cells * each
}
