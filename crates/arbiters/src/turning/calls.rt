//! The calls of an arbiter whose turn moves on.

ghost use Rattle.std.specs.Prelude.{◌≡◌, IfOk};
ghost use Rattle.arbiters.specs.Turning.{Made, Placed, moved, turning};
ghost use Rattle.arbiters.specs.TurningLemmas.{turning-lawful};

use crate::arbiter::Arbiter;
use crate::turning::Turning;
use crate::wiring::Wiring;
use grants::PortCount;
use pairs::Table;
use refusals::Refusal;
use std::marker::PhantomData;

impl<W: Wiring> Turning<W> {
    /// An arbiter of 2 to 8 ports, at the turn 0.
    pub fn new(ports: u8) -> Result<Turning<W>, Refusal>
        ensures made { Made ports result }
        ensures place { IfOk result (Placed W.Wiring.wired) }
    {
        let ports = PortCount::new(ports)?;
        Ok(Turning {
            ports,
            turn: 0,
            wiring: PhantomData,
        })
    }

    /// Moves to the next turn.
    fn advance(&mut self)
        ensures { self.new ≡ moved W.Wiring.wired self.old }
    {
        let turns = W::turns(self.ports);
        self.turn = (self.turn % turns + 1) % turns;
    }
}

impl<W: Wiring> Arbiter for Turning<W> {
    ghost meaning = { turning W.Wiring.wired };

    ghost lawful = { turning-lawful W.Wiring.wired W.Wiring.well_wired };

    fn ports(&self) -> PortCount {
        self.ports
    }

    fn wait(&self, input: u8, output: u8) -> u16 {
        let n = self.ports.number();
        if input < n && output < n {
            W::wait(self.ports, self.turn, input, output)
        } else {
            0
        }
    }

    fn decide(&mut self, requests: Table) -> Table
        ensures answer { result ≡ (turning W.Wiring.wired).answer self.old requests }
        ensures after { self.new ≡ moved W.Wiring.wired self.old }
        ensures place { Placed W.Wiring.wired self.new }
    {
        let granted = W::grants(self.ports, self.turn, requests);
        self.advance();
        granted
    }
}
