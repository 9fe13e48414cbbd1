//! The calls of the switch of two ports: those of the switch itself.

ghost use Rattle.calls.specs.Kept.{Closing, Fits};
ghost use Rattle.switch.specs.Seen.{Arrives, Departs, SetsRoute, TakesNote, grant_of, told_back, view};

use crate::two_ports::TwoPorts;
use arbiters::{Arbiter, Diagonal};
use law::{Arrival, Block, Departed, Note, SlotClosed};
use refusals::Refusal;
use routes::Route;
use switch::{ArrivalTicket, GrantTicket, Returned, Switch};

impl TwoPorts {
    pub fn new(mark: u32, first: u32) -> Result<TwoPorts, Refusal> {
        let arbiter = Diagonal::new(2)?;
        let switch = Switch::new(arbiter, mark, first);
        Ok(TwoPorts { switch, noted: 0 })
    }

    pub fn set_route(&mut self, input: u8, route: Route) -> Result<(), Refusal>
        ensures { SetsRoute self.old.switch input route.vci route.output route.new_vci result self.new.switch }
    {
        self.switch.set_route(input, route)
    }

    pub fn remove_route(&mut self, input: u8, vci: u16) -> Result<(), Refusal> {
        self.switch.remove_route(input, vci)
    }

    pub fn open(&mut self) -> Result<ArrivalTicket, Refusal> {
        self.switch.open()
    }

    pub fn arrive(
        &mut self,
        ticket: &ArrivalTicket,
        input: u8,
        cell: &[u8],
        blocks: &mut [Block],
    ) -> Result<Arrival, Refusal>
        ensures { Arrives self.old.switch ticket.now input cell.now blocks.old result self.new.switch blocks.new }
    {
        self.switch.arrive(ticket, input, cell, blocks)
    }

    pub fn decide(&mut self, ticket: ArrivalTicket) -> Result<GrantTicket, Returned<ArrivalTicket>>
        ensures { Fits (view self.new.switch) (told_back grant_of result) }
    {
        self.switch.decide(ticket)
    }

    pub fn depart(
        &mut self,
        ticket: &GrantTicket,
        blocks: &[Block],
        notes: &mut [Note],
        bytes: &mut [u8],
    ) -> Result<Departed, Refusal>
        ensures { Departs self.old.switch ticket.now blocks.now notes.old bytes.old result self.new.switch notes.new bytes.new }
    {
        let departed = self.switch.depart(ticket, blocks, notes, bytes)?;
        self.noted = departed.output;
        Ok(departed)
    }

    pub fn close(&mut self, ticket: GrantTicket) -> Result<SlotClosed, Returned<GrantTicket>>
        ensures { Closing (view self.old.switch) ticket result (view self.new.switch) }
    {
        self.switch.close(ticket)
    }

    pub fn take_note(&mut self, output: u8, notes: &[Note]) -> Result<Note, Refusal>
        ensures { TakesNote self.old.switch output notes.now result self.new.switch }
    {
        self.switch.take_note(output, notes)
    }

    /// Takes the note that is there if every note block holds one.
    pub fn make_room(&mut self, notes: &[Note]) -> Result<Note, Refusal>
        ensures { TakesNote self.old.switch self.old.noted notes.now result self.new.switch }
    {
        self.switch.take_note(self.noted, notes)
    }

    pub fn look(
        &self,
        input: u8,
        output: u8,
        blocks: &mut [Block],
        bytes: &mut [u8],
    ) -> Result<(), Refusal> {
        self.switch.look(input, output, blocks, bytes)
    }

    pub fn line<'a>(
        &self,
        output: u8,
        bytes: &'a [u8],
        idle: &'a [u8],
    ) -> Result<&'a [u8], Refusal> {
        self.switch.line(output, bytes, idle)
    }
}
