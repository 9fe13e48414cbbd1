//! The calls of a port count.

ghost use Rattle.grants.specs.PortCounts.{Counted};
ghost use Rattle.std.specs.Prelude.{◌≡◌};

use crate::port_count::PortCount;
use refusals::Refusal;

impl PortCount {
    /// The port count of a number from 2 to 8; any other is refused.
    pub fn new(number: u8) -> Result<PortCount, Refusal>
        ensures { Counted number result }
    {
        if number < 2 || number > 8 {
            return Err(Refusal::PortCount);
        }
        Ok(PortCount { number })
    }

    /// The number.
    pub fn number(self) -> u8
        ensures { result ≡ self.number }
    {
        self.number
    }
}
