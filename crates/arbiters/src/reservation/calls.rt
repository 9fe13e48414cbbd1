//! The calls of a reservation.

ghost use Rattle.arbiters.specs.Reservations.{Made, pairs_after, reservations, reserving};
ghost use Rattle.std.specs.Prelude.{◌≡◌};
ghost use Rattle.arbiters.specs.ReservationsLemmas.{reservations-lawful};

use crate::arbiter::Arbiter;
use crate::period::Period;
use crate::reservation::{Reservation, Unreserved};
use crate::reserved::Reserved;
use grants::PortCount;
use pairs::Table;
use refusals::Refusal;

impl<A: Arbiter> Reservation<A> {
    /// A reservation on the arbiter, with a period of 2 to 64 slots and no pair.
    pub fn new(below: A, slots: u8) -> Result<Reservation<A>, Unreserved<A>>
        ensures { Made below slots result }
    {
        // Both arms hand on the arbiter below, which `map` and `map_err` could not both take.
        match Period::new(slots) {
            Ok(period) => Ok(Reservation {
                below,
                reserved: Reserved::none(),
                period,
            }),
            Err(why) => Err(Unreserved { below, why }),
        }
    }

    /// Reserves the output for the input, in place of the output that the input had.
    pub fn reserve(&mut self, input: u8, output: u8) -> Result<(), Refusal>
        ensures answer { result ≡ reserving (A.Arbiter.meaning.ports self.old.below) self.old.reserved.pairs input output }
        ensures pairs { self.new.reserved.pairs ≡ pairs_after result self.old.reserved.pairs input output }
        ensures below { self.new.below ≡ self.old.below }
        ensures period { self.new.period ≡ self.old.period }
    {
        let n = self.below.ports().number();
        if input >= n || output >= n {
            return Err(Refusal::PortBeyond);
        }
        if self.reserved.is_taken(input as usize, output as usize) {
            return Err(Refusal::OutputReserved);
        }
        self.reserved.replace(input as usize, output as usize);
        Ok(())
    }
}

impl<A: Arbiter> Arbiter for Reservation<A> {
    ghost meaning = { reservations A.Arbiter.meaning };

    ghost lawful = { reservations-lawful A.Arbiter.meaning A.Arbiter.lawful };

    fn ports(&self) -> PortCount {
        self.below.ports()
    }

    fn wait(&self, input: u8, output: u8) -> u16 {
        let n = self.below.ports().number();
        if input < n && output < n {
            self.period.lengthen(self.below.wait(input, output))
        } else {
            0
        }
    }

    fn decide(&mut self, requests: Table) -> Table {
        let granted = if self.period.is_due() {
            self.reserved.grants(self.below.ports(), requests)
        } else {
            self.below.decide(requests)
        };
        self.period.pass();
        granted
    }
}
