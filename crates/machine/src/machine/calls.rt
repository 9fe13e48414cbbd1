//! The calls of a machine.

ghost use Rattle.machine.specs.Machines.{ended_of, standing, telling};
ghost use Rattle.machine.specs.Fitting.{Fits};
ghost use Rattle.machine.specs.Sending.{CanSend, Granted, OpenEnds};
ghost use Rattle.machine.specs.Standing.{arriving, empty_block, empty_note, ending, finishing, is_open, routing, starting, taking_up};
ghost use Rattle.switch.specs.Seen.{arrival_of, grant_of, told, view};
ghost use Rattle.std.specs.Prelude.{◌≡◌, replicate, Ok};
ghost use Rattle.law.specs.Law.{Lawful};
ghost use Rattle.law.specs.declared.stage.Stage.TheVariants.{Arriving};

use super::Machine;
use crate::departures::EndedSlot;
use crate::sending::{BLOCKS, send_all};
use arbiters::Arbiter;
use law::{Arrival, Block, Note};
use refusals::Refusal;
use routes::Route;
use switch::{ArrivalTicket, GrantTicket, Switch};

/// Cell memory in which nothing was stored yet.
fn empty_blocks() -> [Block; 128]
    ensures { result ≡ replicate 128 empty_block }
{
    [Block::EMPTY; 128]
}

/// Note memory in which no note was kept yet.
fn empty_notes() -> [Note; 64]
    ensures { result ≡ replicate 64 empty_note }
{
    [Note::EMPTY; 64]
}

/// Slot bytes to which nothing was sent yet.
fn empty_bytes() -> [u8; 424]
    ensures { result ≡ replicate 424 0 }
{
    [0; 424]
}

impl<A: Arbiter> Machine<A> {
    /// A machine whose switch is made of an arbiter, a mark and the number of its first slot. No slot is open.
    pub fn new(arbiter: A, mark: u32, first: u32) -> Machine<A>
        ensures start { standing result ≡ starting A.meaning arbiter mark first }
        ensures law { Lawful A.meaning arbiter (view result.switch) }
    {
        Machine {
            switch: Switch::new(arbiter, mark, first),
            ticket: None,
            blocks: empty_blocks(),
            notes: empty_notes(),
            bytes: empty_bytes(),
        }
    }

    /// Whether a slot is open.
    pub fn slot_is_open(&self) -> bool
        ensures { result ≡ is_open (standing self.now) }
    {
        self.ticket.is_some()
    }

    /// Sets a route of an input.
    pub fn set_route(&mut self, input: u8, route: Route) -> Result<(), Refusal>
        ensures { telling result self.new ≡ routing (standing self.old) input route.vci route.output route.new_vci }
    {
        self.switch.set_route(input, route)
    }

    /// Takes up the ticket of the open slot. Where no slot is open, the next is opened.
    fn take_up(&mut self) -> Result<ArrivalTicket, Refusal>
        ensures answer { telling (told arrival_of result) self.new ≡ taking_up (standing self.old) (standing self.old).ticket }
        ensures fits { Fits Arriving (view self.new.switch) (told arrival_of result) }
    {
        match self.ticket.take() {
            Some(ticket) => Ok(ticket),
            None => self.switch.open(),
        }
    }

    /// A cell arrives at an input, in a slot that is opened for it if none is open.
    pub fn arrive(&mut self, input: u8, cell: &[u8]) -> Result<Arrival, Refusal>
        ensures { telling result self.new ≡ arriving (standing self.old) input cell.now }
    {
        let ticket = self.take_up()?;
        let cells = self.switch.ports().number() as usize * BLOCKS;
        let answer = self
            .switch
            .arrive(&ticket, input, cell, &mut self.blocks[0..cells]);
        self.ticket = Some(ticket);
        answer
    }

    /// Ends the slot, which is opened first if none is open: it is decided, its grants are sent, the note of each is taken there
    /// and then, and it is closed.
    pub fn end_slot(&mut self) -> Result<EndedSlot, Refusal>
        ensures answer { telling (told ended_of result) self.new ≡ ending A.meaning (standing self.old) }
        ensures ends { OpenEnds (standing self.old).ticket (told ended_of result) }
    {
        let ticket = self.take_up()?;
        match self.switch.decide(ticket) {
            Ok(grants) => Ok(self.finish(grants)),
            Err(_) => unreachable(),
        }
    }

    /// Sends all grants, and closes the slot.
    fn finish(&mut self, grants: GrantTicket) -> EndedSlot
        requires { (CanSend (view self.old.switch) (grant_of grants)) × (Granted (standing self.old)) }
        ensures { telling (Ok (ended_of result)) self.new ≡ finishing (grant_of grants) (standing self.old) }
    {
        let departures = send_all(
            &mut self.switch,
            &grants,
            &self.blocks,
            &mut self.notes,
            &mut self.bytes,
        );
        match self.switch.close(grants) {
            Ok(closed) => EndedSlot { departures, closed },
            Err(_) => unreachable(),
        }
    }
}
