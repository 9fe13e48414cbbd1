//! The calls while grants are sent.

ghost use Rattle.std.specs.Prelude.{◌<◌, ◌≤◌, length};
ghost use Rattle.calls.specs.Ends.{LeavesGrants};
ghost use Rattle.calls.specs.Kept.{weight};
ghost use Rattle.switch.specs.Seen.{view};

use crate::memory::Memory;
use crate::sending::{Sending, Unclosed, Undecided};
use crate::two_ports::TwoPorts;
use law::{Arrival, Block, Departed, Note, SlotClosed};
use refusals::Refusal;
use switch::{ArrivalTicket, GrantTicket, Returned};

impl Sending {
    /// Decides the slot of the switch.
    pub fn decide(mut two: TwoPorts, ticket: ArrivalTicket) -> Result<Sending, Undecided> {
        // Both arms hand on the switch, which `map` and `map_err` could not both take; so too where a slot is closed.
        match two.decide(ticket) {
            Ok(ticket) => Ok(Sending { two, ticket }),
            Err(Returned { refusal, ticket }) => Err(Undecided {
                two,
                ticket,
                refusal,
            }),
        }
    }

    /// The switch that sends.
    pub fn two(&self) -> &TwoPorts {
        &self.two
    }

    /// The grant ticket, to show at another switch.
    pub fn ticket(&self) -> &GrantTicket {
        &self.ticket
    }

    /// Sends a grant in memory of any lengths.
    pub fn depart_with(
        &mut self,
        blocks: &[Block],
        notes: &mut [Note],
        bytes: &mut [u8],
    ) -> Result<Departed, Refusal> {
        self.two.depart(&self.ticket, blocks, notes, bytes)
    }

    /// Sends a grant.
    pub fn depart(&mut self, memory: &mut Memory) -> Result<Departed, Refusal> {
        self.depart_with(&memory.blocks, &mut memory.notes, &mut memory.bytes)
    }

    pub fn take_note(&mut self, output: u8, notes: &[Note]) -> Result<Note, Refusal> {
        self.two.take_note(output, notes)
    }

    pub fn arrive(
        &mut self,
        ticket: &ArrivalTicket,
        input: u8,
        cell: &[u8],
        blocks: &mut [Block],
    ) -> Result<Arrival, Refusal> {
        self.two.arrive(ticket, input, cell, blocks)
    }

    /// Closes the slot, if its grants are all sent.
    pub fn close(self) -> Result<(TwoPorts, SlotClosed), Unclosed>
        ensures { LeavesGrants (view self.two.switch) result }
    {
        let Sending { mut two, ticket } = self;
        match two.close(ticket) {
            Ok(closed) => Ok((two, closed)),
            Err(Returned { refusal, ticket }) => Err(Unclosed {
                sending: Sending { two, ticket },
                refusal,
            }),
        }
    }

    /// Hands the ticket to another switch's `close`.
    pub fn close_at(self, other: &mut TwoPorts) -> Result<(TwoPorts, SlotClosed), Unclosed> {
        let Sending { two, ticket } = self;
        match other.close(ticket) {
            Ok(closed) => Ok((two, closed)),
            Err(Returned { refusal, ticket }) => Err(Unclosed {
                sending: Sending { two, ticket },
                refusal,
            }),
        }
    }

    /// Sends a grant, or takes a note where there is no room for another.
    fn send(&mut self, memory: &mut Memory)
        requires { 1 ≤ length (view self.old.two.switch).slot.grants }
        ensures { weight (view self.new.two.switch) < weight (view self.old.two.switch) }
    {
        let Memory {
            blocks,
            notes,
            bytes,
        } = memory;
        if self.two.depart(&self.ticket, blocks, notes, bytes).is_err() {
            let _ = self.two.make_room(notes);
        }
    }

    /// Sends what is left to send, takes a note wherever there is no room for another, and closes the slot.
    pub fn finish(self, memory: &mut Memory) -> (TwoPorts, SlotClosed) {
        match self.close() {
            Ok(closed) => closed,
            Err(
                Unclosed {
                    sending,
                    refusal: _,
                },
            ) => {
                let mut sending = sending;
                sending.send(memory);
                sending.finish(memory)
            }
        }
    }
}
