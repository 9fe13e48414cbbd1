//! The arbiter whose turn moves on with every decision.

use grants::PortCount;
use std::marker::PhantomData;

mod calls;

/// An arbiter of so many ports that is wired as `W` says, and the turn that it is at.
#[derive(Drop)]
pub struct Turning<W> {
    ports: PortCount,
    // `new` and `decide` say that it is one of the turns of `W`, and no ghost field does: with one, the name of the type in a definition
    // would take what `W` means too.
    turn: u8,
    wiring: PhantomData<W>,
}
