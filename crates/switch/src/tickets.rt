//! The tickets of a slot: an arrival ticket while cells may arrive, a grant ticket while the grants are sent.

ghost use Rattle.std.specs.Prelude.{Some, codes};
ghost use Rattle.switch.specs.Spent.{IsSpent};

use refusals::Refusal;
use std::fmt;

/// What a ticket bears: the mark of its switch and the number of its slot.
#[derive(Clone, Copy, PartialEq, Eq, Debug)]
pub(crate) struct Stamp {
    pub(crate) mark: u32,
    pub(crate) slot: u32,
}

/// Lets cells arrive in a slot. It goes into `decide`; one that is let go leaves its slot open.
#[derive(Drop)]
pub struct ArrivalTicket {
    pub(crate) stamp: Stamp,
}

impl fmt::Display for ArrivalTicket {
    ghost output = { λ _. Some (codes "arrival ticket") };

    fn fmt<W: fmt::Write>(&self, f: &mut fmt::Formatter<W>) -> fmt::Result {
        write!(f, "arrival ticket")
    }
}

/// Lets the grants of a slot be sent. Only `close` spends it, and none that is handed out is spent: a program that lets one go is
/// not proved.
pub struct GrantTicket {
    pub(crate) stamp: Stamp,
    pub(crate) spent: bool,
}

impl Drop for GrantTicket {
    fn drop(self)
        requires { IsSpent self }
    {
        let GrantTicket { stamp: _, spent: _ } = self;
    }
}

impl GrantTicket {
    /// Spends the ticket, so that it may be let go, and lets it go.
    pub(crate) fn spend(mut self) {
        self.spent = true;
    }
}

/// Why a ticket was not taken in, and the ticket.
pub struct Returned<T> {
    pub refusal: Refusal,
    pub ticket: T,
}
