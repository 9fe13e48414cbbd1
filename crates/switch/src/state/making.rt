//! Making a switch, and the number of ports that it was made with.

ghost use Rattle.law.specs.Law.{Lawful};
ghost use Rattle.law.specs.Runs.{made};
ghost use Rattle.switch.specs.Seen.{view};
ghost use Rattle.std.specs.Prelude.{◌≡◌};

use super::Switch;
use arbiters::Arbiter;
use grants::PortCount;
use law::Stage;
use pairs::{Ports, Table};
use queues::Links;
use routes::Routes;

impl<A: Arbiter> Switch<A> {
    /// A switch over an arbiter in any state, with a mark and the number of its first slot.
    pub fn new(arbiter: A, mark: u32, first: u32) -> Switch<A>
        ensures made { view result ≡ made A.meaning arbiter mark first }
        ensures law { Lawful A.meaning arbiter (view result) }
    {
        let ports = arbiter.ports();
        Switch {
            arbiter,
            ports,
            mark,
            next: first as u64,
            stage: Stage::Closed,
            used: Ports::empty(),
            grants: Table::empty(),
            granted: 0,
            sent: Ports::empty(),
            routes: Routes::new(),
            cells: [Links::new(); 8],
            notes: Links::new(),
        }
    }

    /// How many inputs, and as many outputs, the switch has.
    pub fn ports(&self) -> PortCount
        ensures { result.number ≡ (view self.now).ports }
    {
        self.ports
    }
}
