//! How an arbiter made of arbiter cells is wired.

ghost use Rattle.std.specs.Prelude.{◌≡◌};
ghost use Rattle.arbiters.specs.Wirings.{Wired, WellWired};
ghost use Rattle.pairs.specs.Tables.{holds, table_of, within};

use grants::PortCount;
use pairs::Table;

/// How the cells of an arbiter follow one another from a turn on. A turn counts modulo the number of turns.
pub trait Wiring {
    /// What it means: how many turns there are, which pairs are granted at a turn, and how long a pair may have to wait from it on.
    ghost wired: { Wired };

    /// How many turns there are.
    fn turns(ports: PortCount) -> u8
        ensures { result ≡ wired.turns ports.number };

    /// The grants to the requests at the turn.
    fn grants(ports: PortCount, turn: u8, requests: Table) -> Table
        ensures { result ≡ table_of (within ports.number (wired.granted (holds requests) ports.number turn)) };

    /// The wait of the pair from the turn on.
    fn wait(ports: PortCount, turn: u8, input: u8, output: u8) -> u16
        ensures { result ≡ wired.wait ports.number turn input output };

    /// There is a turn, and every wait is below the number of turns. The grants have what is asked of a decision, where the next turn
    /// comes after it.
    ghost well_wired: { WellWired wired };
}
