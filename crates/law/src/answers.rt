//! What the calls answer.

ghost use Rattle.law.specs.Texts.{arrival_text, closed_text, departed_text};
ghost use Rattle.std.specs.Prelude.{Some};

use std::fmt;

/// What becomes of a cell that arrives: an idle cell is not stored; any other joins the queue of its input and this
/// output, behind so many cells.
#[derive(Clone, Copy, PartialEq, Eq, Debug)]
pub enum Arrival {
    Idle,
    Accepted { output: u8, ahead: usize },
}

impl fmt::Display for Arrival {
    ghost output = { λ answer. Some (arrival_text answer) };

    fn fmt<W: fmt::Write>(&self, f: &mut fmt::Formatter<W>) -> fmt::Result {
        match self {
            Arrival::Idle => write!(f, "idle"),
            Arrival::Accepted { output, ahead } => write!(f, "output {output}, {ahead} ahead"),
        }
    }
}

/// A cell was sent from this input to this output.
#[derive(Clone, Copy, PartialEq, Eq, Debug)]
pub struct Departed {
    pub input: u8,
    pub output: u8,
}

impl fmt::Display for Departed {
    ghost output = { λ answer. Some (departed_text answer) };

    fn fmt<W: fmt::Write>(&self, f: &mut fmt::Formatter<W>) -> fmt::Result {
        let Departed { input, output } = self;
        write!(f, "from input {input} to output {output}")
    }
}

/// The number of a slot that was closed, and how many grants it had.
#[derive(Clone, Copy, PartialEq, Eq, Debug)]
pub struct SlotClosed {
    pub slot: u32,
    pub grants: u8,
}

impl fmt::Display for SlotClosed {
    ghost output = { λ answer. Some (closed_text answer) };

    fn fmt<W: fmt::Write>(&self, f: &mut fmt::Formatter<W>) -> fmt::Result {
        let SlotClosed { slot, grants } = self;
        write!(f, "slot {slot}, grants {grants}")
    }
}
