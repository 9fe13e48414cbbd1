//! A slot from its opening to its close.

ghost use Rattle.std.specs.Prelude.{◌≡◌, not, IfOk};
ghost use Rattle.law.specs.Calls.{requests, wrong};
ghost use Rattle.switch.specs.Seen.{Closes, Decides, HandsBack, Opens, stamped, view};
ghost use Rattle.switch.specs.Spent.{IsSpent};

use super::Switch;
use crate::tickets::{ArrivalTicket, GrantTicket, Returned, Stamp};
use arbiters::Arbiter;
use law::{SlotClosed, Stage};
use pairs::{Ports, Table};
use refusals::Refusal;

/// The number of the last slot that there is.
const LAST_SLOT: u64 = 4294967295;

impl<A: Arbiter> Switch<A> {
    /// Opens the next slot, in which no turn is used. Refused while a slot is open, and after the last slot number.
    pub fn open(&mut self) -> Result<ArrivalTicket, Refusal>
        ensures { Opens self.old result self.new }
    {
        if self.stage != Stage::Closed {
            return Err(Refusal::SlotOpen);
        }
        if self.next > LAST_SLOT {
            return Err(Refusal::NoSlotNumber);
        }
        let ticket = ArrivalTicket {
            stamp: Stamp {
                mark: self.mark,
                slot: self.next as u32,
            },
        };
        self.next += 1;
        self.stage = Stage::Arriving;
        self.used = Ports::empty();
        Ok(ticket)
    }

    /// Decides the slot: a request for each queue that is not empty, and the arbiter's answer is the slot's grants.
    /// Refused, the ticket comes back.
    pub fn decide(&mut self, ticket: ArrivalTicket) -> Result<GrantTicket, Returned<ArrivalTicket>>
        ensures done { Decides A.meaning self.old ticket result self.new }
        ensures back { HandsBack ticket result }
        ensures unspent { IfOk result (λ t. IsSpent t → ⊥) }
    {
        if !self.fits(ticket.stamp, Stage::Arriving) {
            return Err(Returned {
                refusal: Refusal::WrongTicket,
                ticket,
            });
        }
        let ArrivalTicket { stamp } = ticket;
        let requests = self.requests();
        let grants = self.arbiter.decide(requests);
        self.granted = grants.len() as u8;
        self.grants = grants;
        self.sent = Ports::empty();
        self.stage = Stage::Sending;
        Ok(GrantTicket {
            stamp,
            spent: false,
        })
    }

    /// Closes the slot, all of whose grants have been sent. Refused, the ticket comes back.
    pub fn close(&mut self, ticket: GrantTicket) -> Result<SlotClosed, Returned<GrantTicket>>
        ensures done { Closes self.old ticket result self.new }
        ensures back { HandsBack ticket result }
    {
        if !self.fits(ticket.stamp, Stage::Sending) {
            return Err(Returned {
                refusal: Refusal::WrongTicket,
                ticket,
            });
        }
        if !self.grants.is_empty() {
            return Err(Returned {
                refusal: Refusal::GrantsUnsent,
                ticket,
            });
        }
        let slot = ticket.stamp.slot;
        ticket.spend();
        self.stage = Stage::Closed;
        Ok(SlotClosed {
            slot,
            grants: self.granted,
        })
    }

    /// A request for each queue that is not empty.
    fn requests(&self) -> Table
        ensures { result ≡ requests (view self.now) }
    {
        // The ports are what the table is made of, so the loops go over them; over the cells they would count them as well.
        let mut table = Table::empty();
        let ports = self.ports.number() as usize;
        for i in 0..ports {
            for o in 0..ports {
                if self.cells[i].head_block(o).is_ok() {
                    table = table.with(i, o);
                }
            }
        }
        table
    }

    /// Whether a ticket of this stamp fits the stage that the open slot is in.
    pub(super) fn fits(&self, stamp: Stamp, stage: Stage) -> bool
        ensures { result ≡ not (wrong (view self.now) stage (stamped stamp)) }
    {
        stamp.mark == self.mark && stamp.slot as u64 + 1 == self.next && self.stage == stage
    }
}
