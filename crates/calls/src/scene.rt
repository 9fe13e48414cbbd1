//! A scene: the memory that is lent to the switch of a chapter, and the listing in which its calls are told.

use crate::listing::Listing;
use crate::memory::{Memory, idle_cell};
use crate::sending::{Sending, Unclosed};
use crate::two_ports::TwoPorts;
use law::SlotClosed;
use refusals::Refusal;
use std::io;
use std::io::Write;
use switch::ArrivalTicket;

/// What the calls of a chapter have in common. The switch stays apart, since deciding and closing change its type.
pub struct Scene<W: Write> {
    pub memory: Memory,
    pub out: Listing<W>,
}

impl<W: Write + Drop> Scene<W> {
    pub fn new(out: Listing<W>) -> Self {
        Scene {
            memory: Memory::new(),
            out,
        }
    }

    /// Begins a chapter, with memory in which nothing was stored yet.
    pub fn begin(&mut self, title: &str) {
        self.memory = Memory::new();
        writeln!(self.out, "== {title} ==");
    }

    /// Opens a slot.
    pub fn opened(&mut self, two: &mut TwoPorts) -> Result<ArrivalTicket, Refusal> {
        let answer = two.open();
        self.out.told("open", &answer);
        answer
    }

    /// A cell at an input.
    pub fn arrived(
        &mut self,
        call: &str,
        two: &mut TwoPorts,
        ticket: &ArrivalTicket,
        input: u8,
        cell: &[u8],
    ) {
        let answer = two.arrive(ticket, input, cell, &mut self.memory.blocks);
        self.out.told(call, &answer);
    }

    /// Decides the slot. A switch that refuses is let go, and the chapter ends.
    pub fn decided(&mut self, two: TwoPorts, ticket: ArrivalTicket) -> Result<Sending, Refusal> {
        let answer = Sending::decide(two, ticket).map_err(|undecided| undecided.refusal);
        match &answer {
            Ok(_) => writeln!(self.out, "decide: grant ticket"),
            Err(refusal) => self.out.refused("decide", *refusal),
        }
        answer
    }

    /// A departure.
    pub fn departed(&mut self, sending: &mut Sending) {
        self.out.told("depart", &sending.depart(&mut self.memory));
    }

    /// Takes a note of an output.
    pub fn note_taken(&mut self, call: &str, sending: &mut Sending, output: u8) {
        let answer = sending.take_note(output, &self.memory.notes);
        self.out.told(call, &answer);
    }

    /// Tells of a close that is to be refused, and has the switch back that sends still.
    pub fn unclosed(
        &mut self,
        call: &str,
        closing: Result<(TwoPorts, SlotClosed), Unclosed>,
    ) -> Result<Sending, TwoPorts> {
        match closing {
            Ok((two, closed)) => {
                self.out.told(call, &Ok(closed));
                Err(two)
            }
            Err(Unclosed { sending, refusal }) => {
                self.out.refused(call, refusal);
                Ok(sending)
            }
        }
    }

    /// Closes the slot.
    pub fn closed(&mut self, sending: Sending) -> TwoPorts {
        let (two, closed) = sending.finish(&mut self.memory);
        self.out.told("close", &Ok(closed));
        two
    }

    /// The line of an output.
    pub fn line(&mut self, two: &TwoPorts, output: u8) {
        write!(self.out, "line of output {output}");
        let idle = idle_cell();
        self.out
            .line("", two.line(output, &self.memory.bytes, &idle));
    }

    /// Tells the first fault in writing.
    pub fn finish(self) -> io::Result<()> {
        let Scene { memory: _, out } = self;
        out.finish()
    }
}
