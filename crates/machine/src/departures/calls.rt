//! The calls on what was sent in a slot.

ghost use Rattle.std.specs.Prelude.{◌≡◌, ◌<◌, [], ◌∷◌, ◌++◌, length};
ghost use Rattle.machine.specs.Listed.{listed};

use super::{Departures, Sent};
use law::Note;

/// What stands in a place to which nothing was sent.
const NOTHING_SENT: Sent = Sent {
    output: 0,
    note: Note::EMPTY,
    cell: [0; 53],
};

impl Departures {
    /// Nothing was sent.
    pub(crate) fn none() -> Departures
        ensures { listed result ≡ [] }
    {
        Departures {
            sent: [NOTHING_SENT; 8],
            count: 0,
        }
    }

    /// One more was sent.
    pub(crate) fn push(&mut self, sent: Sent)
        requires { length (listed self.old) < 8 }
        ensures { listed self.new ≡ listed self.old ++ (sent ∷ []) }
    {
        self.sent[self.count] = sent;
        self.count += 1;
    }

    /// The cells that were sent, in order.
    pub fn as_slice(&self) -> &[Sent]
        ensures { result.now ≡ listed self.now }
    {
        &self.sent[0..self.count]
    }
}
