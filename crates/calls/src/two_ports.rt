//! A switch of two ports.

ghost use Rattle.calls.specs.Kept.{Kept};
ghost use Rattle.switch.specs.Seen.{view};

use arbiters::Diagonal;
use switch::Switch;

mod calls;

/// A switch of two ports over a diagonal arbiter. Where every note block holds a note, the output `noted` has one.
#[derive(Drop)]
pub struct TwoPorts {
    switch: Switch<Diagonal>,
    noted: u8,
    ghost kept: { Kept noted (view switch) },
}
