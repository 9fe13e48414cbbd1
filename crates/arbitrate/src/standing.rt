//! The arbiter that stands, and what a command makes of it.

use crate::answer::{Answer, Fault};
use crate::command::{Action, Command};
use crate::pile::Pile;
use arbiters::{Arbiter, Diagonal, Ripple};

/// The arbiter that stands, with its reservations.
#[derive(Drop)]
pub enum Standing {
    Diagonal(Pile<Diagonal>),
    Ripple(Pile<Ripple>),
}

/// Carries a command out.
pub fn carry_out(standing: &mut Option<Standing>, command: Command) -> Result<Answer, Fault> {
    match command {
        Command::StartDiagonal { ports } => {
            let diagonal = Diagonal::new(ports)?;
            *standing = Some(Standing::Diagonal(Pile::Bare(diagonal)));
            Ok(Answer::Done)
        }
        Command::StartRipple { ports } => {
            let ripple = Ripple::new(ports)?;
            *standing = Some(Standing::Ripple(Pile::Bare(ripple)));
            Ok(Answer::Done)
        }
        Command::Use(action) => {
            let stood = standing.take().ok_or(Fault::NoArbiter)?;
            let (stands, answer) = stood.act(action);
            *standing = Some(stands);
            answer
        }
    }
}

impl Standing {
    /// Does what is asked.
    fn act(self, action: Action) -> (Standing, Result<Answer, Fault>) {
        match self {
            Standing::Diagonal(pile) => {
                let (pile, answer) = act(pile, action);
                (Standing::Diagonal(pile), answer)
            }
            Standing::Ripple(pile) => {
                let (pile, answer) = act(pile, action);
                (Standing::Ripple(pile), answer)
            }
        }
    }
}

/// Does what is asked of the arbiter that stands.
fn act<A: Arbiter>(mut pile: Pile<A>, action: Action) -> (Pile<A>, Result<Answer, Fault>) {
    match action {
        Action::Period { slots } => {
            let (pile, put) = pile.put(slots);
            (pile, put.map(|()| Answer::Done))
        }
        Action::Reserve { input, output } => {
            let reserved = pile.reserve(input, output);
            (pile, reserved.map(|()| Answer::Done))
        }
        Action::Wait { input, output } => {
            let wait = pile.wait(input, output);
            (pile, Ok(Answer::Wait(wait)))
        }
        Action::Decide { requests } => {
            let grants = pile.decide(requests);
            (pile, Ok(Answer::Grants(grants)))
        }
    }
}
