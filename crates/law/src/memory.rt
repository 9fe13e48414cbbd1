//! What lies in the memory that is lent to a switch.

ghost use Rattle.law.specs.Texts.{note_text};
ghost use Rattle.std.specs.Prelude.{Some};

use std::fmt;

/// A block of cell memory: a cell as it arrived, and the circuit number that it is to leave with.
#[derive(Clone, Copy, PartialEq, Eq, Debug)]
pub struct Block {
    pub cell: [u8; 53],
    pub new_vci: u16,
}

impl Block {
    /// A block in which no cell was stored yet.
    pub const EMPTY: Block = Block {
        cell: [0; 53],
        new_vci: 0,
    };
}

/// A block of note memory: the slot in which a cell was sent, the input that it came from, the circuit number
/// that it came with and the one that it left with.
#[derive(Clone, Copy, PartialEq, Eq, Debug)]
pub struct Note {
    pub slot: u32,
    pub input: u8,
    pub came: u16,
    pub left: u16,
}

impl Note {
    /// A note block in which no note was kept yet.
    pub const EMPTY: Note = Note {
        slot: 0,
        input: 0,
        came: 0,
        left: 0,
    };
}

impl fmt::Display for Note {
    ghost output = { λ note. Some (note_text note) };

    fn fmt<W: fmt::Write>(&self, f: &mut fmt::Formatter<W>) -> fmt::Result {
        let Note {
            slot,
            input,
            came,
            left,
        } = self;
        write!(
            f,
            "slot {slot}, input {input}, came with {came:04X}, left with {left:04X}"
        )
    }
}
