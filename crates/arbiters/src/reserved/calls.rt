//! The calls of the reserved pairs.

ghost use Rattle.arbiters.specs.Slots.{by_another, replaced, reserved_grants};
ghost use Rattle.pairs.specs.Tables.{table_of};
ghost use Rattle.std.specs.Prelude.{◌≡◌, false};

use crate::reserved::Reserved;
use grants::{PortCount, diagonal_grants};
use pairs::Table;

impl Reserved {
    /// No pair.
    pub fn none() -> Reserved
        ensures { result.pairs ≡ table_of (λ _ _. false) }
    {
        Reserved {
            pairs: Table::empty(),
        }
    }

    /// Whether the output is reserved by another input than this.
    pub fn is_taken(self, input: usize, output: usize) -> bool
        ensures { result ≡ by_another self.pairs input output }
    {
        (0..8).any(|other| other != input && self.pairs.has(other, output))
    }

    /// Reserves the output for the input, in place of what the input had.
    pub(crate) fn replace(&mut self, input: usize, output: usize)
        requires { by_another self.old.pairs input output ≡ false }
        ensures { self.new.pairs ≡ replaced self.old.pairs input output }
    {
        let had = Table::empty().with_outputs(input, self.pairs.outputs(input));
        self.pairs = self.pairs.minus(had).with(input, output);
    }

    /// What is granted in a reserved slot.
    pub fn grants(self, ports: PortCount, requests: Table) -> Table
        ensures { result ≡ reserved_grants ports.number self.pairs requests }
    {
        let square = Table::square(ports.number() as usize);
        let kept = requests.and(self.pairs).and(square);
        let free = requests.minus(kept.crossing());
        kept.or(diagonal_grants(ports, 0, free))
    }
}
