//! The pairs that a reservation holds.

ghost use Rattle.arbiters.specs.Once.{OneInput, OneOutput};

use pairs::Table;

mod calls;

/// The reserved pairs: each input is in one at most, and each output.
#[derive(Clone, Copy)]
pub struct Reserved {
    pairs: Table,
    ghost inputs: { OneOutput pairs },
    ghost outputs: { OneInput pairs },
}
