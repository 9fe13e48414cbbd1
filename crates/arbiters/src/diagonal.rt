//! The diagonal arbiter.

ghost use Rattle.arbiters.specs.Wirings.{diagonal};
ghost use Rattle.arbiters.specs.WiringsLemmas.{diagonal-well};

use crate::turning::Turning;
use crate::wiring::Wiring;
use grants::{PortCount, diagonal_grants};
use pairs::Table;

/// A turn is at one of the diagonals: the pairs whose input and output add up, modulo the ports, to one number.
pub struct Diagonals;

/// An arbiter whose turn is at one of its diagonals.
pub type Diagonal = Turning<Diagonals>;

impl Wiring for Diagonals {
    ghost wired = { diagonal };

    ghost well_wired = { diagonal-well };

    fn turns(ports: PortCount) -> u8 {
        ports.number()
    }

    fn grants(ports: PortCount, turn: u8, requests: Table) -> Table {
        diagonal_grants(ports, usize::from(turn), requests)
    }

    #[tactic(auto, unfolding(grants::specs::Diagonal::diagonal_wait))]
    fn wait(ports: PortCount, turn: u8, input: u8, output: u8) -> u16 {
        let n = u16::from(ports.number());
        let turn = u16::from(turn) % n;
        (u16::from(input) + u16::from(output) + (n - turn)) % n
    }
}
