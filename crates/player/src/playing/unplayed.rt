//! Why a line was not played.

ghost use Rattle.std.specs.Prelude.{◌≡◌};
ghost use Rattle.player.specs.declared.playing.unplayed.Unplayed.TheVariants.{NoMemory, Refused};

use refusals::Refusal;
use std::alloc::AllocError;

/// A line was refused, or there was no memory for what it does.
#[derive(Clone, Copy, Debug)]
pub(crate) enum Unplayed {
    Refused(Refusal),
    NoMemory(AllocError),
}

impl From<Refusal> for Unplayed {
    ghost from_gives = { λ refusal unplayed. unplayed ≡ Refused refusal };

    fn from(refusal: Refusal) -> Unplayed {
        Unplayed::Refused(refusal)
    }
}

impl From<AllocError> for Unplayed {
    ghost from_gives = { λ error unplayed. unplayed ≡ NoMemory error };

    fn from(error: AllocError) -> Unplayed {
        Unplayed::NoMemory(error)
    }
}
