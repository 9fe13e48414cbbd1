//! The calls of a period.

ghost use Rattle.std.specs.Prelude.{◌≡◌, min};
ghost use Rattle.arbiters.specs.Periods.{Made, due, lengthened, passed};

use crate::period::Period;
use refusals::Refusal;

impl Period {
    /// A period of 2 to 64 slots, at its beginning.
    pub fn new(slots: u8) -> Result<Period, Refusal>
        ensures { Made slots result }
    {
        if !(2..=64).contains(&slots) {
            return Err(Refusal::PeriodRange);
        }
        Ok(Period {
            slots,
            left: slots - 1,
        })
    }

    /// Whether the reserved slot is next.
    pub fn is_due(self) -> bool
        ensures { result ≡ due self }
    {
        self.left == 0
    }

    /// A slot passes.
    pub fn pass(&mut self)
        ensures { self.new ≡ passed self.old }
    {
        self.left = if self.left == 0 {
            self.slots - 1
        } else {
            self.left - 1
        };
    }

    /// The wait with the reserved slots, told as a wait is, from the wait told without them.
    pub fn lengthen(self, wait: u16) -> u16
        ensures { result ≡ min (lengthened self.slots self.left wait) 65535 }
    {
        let left = u16::from(self.left);
        if wait < left {
            return wait;
        }
        let others = u16::from(self.slots - 1);
        wait.saturating_add(1)
            .saturating_add((wait - left) / others)
    }
}
