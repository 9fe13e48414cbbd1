//! A switch whose slot has been decided, with the ticket of its grants.

ghost use Rattle.law.specs.Calls.{wrong};
ghost use Rattle.law.specs.declared.stage.Stage.TheVariants.{Sending as InSending};
ghost use Rattle.switch.specs.Seen.{grant_of, view};
ghost use Rattle.std.specs.Prelude.{◌≡◌, false};

use crate::two_ports::TwoPorts;
use refusals::Refusal;
use switch::{ArrivalTicket, GrantTicket};

mod calls;

/// A switch that sends, and the grant ticket of its open slot. It cannot be let go: `finish` gives the switch back.
pub struct Sending {
    two: TwoPorts,
    ticket: GrantTicket,
    ghost fits: { wrong (view two.switch) InSending (grant_of ticket) ≡ false },
}

/// A decision that was refused: the switch, the ticket handed in, and why.
#[derive(Drop)]
pub struct Undecided {
    pub two: TwoPorts,
    pub ticket: ArrivalTicket,
    pub refusal: Refusal,
}

/// A close that was refused: the switch, which sends still, and why.
pub struct Unclosed {
    pub sending: Sending,
    pub refusal: Refusal,
}
