//! What an arbiter is.

ghost use Rattle.std.specs.Prelude.{◌≡◌};
ghost use Rattle.arbiters.specs.Meaning.{Lawful, Meaning};
ghost use Rattle.arbiters.specs.Rules.{told};

use grants::PortCount;
use pairs::Table;

/// What decides which of the requested pairs (input, output) are granted. It never refuses: requests at ports of its port count
/// and above are ignored.
pub trait Arbiter {
    /// What it means: its ports, the longest wait of all, how many decisions a pair that is requested in each may have to wait, what
    /// it grants to a table of requests, and what it is after deciding on them.
    ghost meaning: { Meaning Self };

    /// How many inputs, and as many outputs, it has.
    fn ports(&self) -> PortCount
        ensures { result.number ≡ meaning.ports self.now };

    /// The wait of the pair, 65,535 for longer ones, and 0 for ports that the arbiter does not have.
    fn wait(&self, input: u8, output: u8) -> u16
        ensures { result ≡ told (meaning.ports self.now) (meaning.wait self.now) input output };

    /// The grants to the requests.
    fn decide(&mut self, requests: Table) -> Table
        ensures answer { result ≡ meaning.answer self.old requests }
        ensures after { self.new ≡ meaning.after self.old requests };

    /// It keeps the five rules: a granted pair was requested, and its ports are the arbiter's; no input and no output is in two granted
    /// pairs; a requested pair that is not granted shares its input or its output with a granted one, and has a smaller wait
    /// afterwards; no wait is above the bound, the ports are 2 to 8, and ports and bound never change.
    ghost lawful: { Lawful meaning };
}
