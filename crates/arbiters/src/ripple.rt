//! The ripple arbiter.

ghost use Rattle.arbiters.specs.Wirings.{ripple};
ghost use Rattle.arbiters.specs.WiringsLemmas.{ripple-well};

use crate::turning::Turning;
use crate::wiring::Wiring;
use grants::{PortCount, ripple_grants};
use pairs::Table;

/// A turn t is at one of the pairs: the input t / n and the output t mod n, n being the ports.
pub struct Ripples;

/// An arbiter whose turn is at one of its pairs.
pub type Ripple = Turning<Ripples>;

impl Wiring for Ripples {
    ghost wired = { ripple };

    ghost well_wired = { ripple-well };

    fn turns(ports: PortCount) -> u8 {
        ports.number() * ports.number()
    }

    fn grants(ports: PortCount, turn: u8, requests: Table) -> Table {
        ripple_grants(ports, usize::from(turn), requests)
    }

    #[tactic(auto, unfolding(grants::specs::Ripple::ripple_wait))]
    fn wait(ports: PortCount, turn: u8, input: u8, output: u8) -> u16 {
        let n = u16::from(ports.number());
        let turn = u16::from(turn) % (n * n);
        (u16::from(input) * n + u16::from(output) + (n * n - turn)) % (n * n)
    }
}
