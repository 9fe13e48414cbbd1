//! What a recording is played on.

use arbiters::{Diagonal, Ripple};
use machine::Machine;
use std::alloc::Global;

mod frames;
mod unplayed;

/// The machine that a recording names.
// Each call has an arm for each kind, since no function may make a boxed `dyn` value and hand it out.
#[derive(Drop)]
pub(crate) enum NamedMachine {
    Diagonal(Box<Machine<Diagonal>>),
    Ripple(Box<Machine<Ripple>>),
}

/// A recording that is played: on the machine that it names, once it has named one.
#[derive(Drop)]
pub(crate) struct Playing {
    heap: Global,
    machine: Option<NamedMachine>,
}
