//! The refusals and their numbers.

ghost use Rattle.refusals.specs.Numbers.{number_of, place_of};
ghost use Rattle.std.specs.Prelude.{◌≡◌};

use thiserror::Error;

/// Why a call or a line was refused. The first block is refused for what was handed in, the second for the state.
#[derive(Clone, Copy, PartialEq, Eq, Debug, Error)]
pub enum Refusal {
    #[error("port not below the port count")]
    PortBeyond,
    #[error("cell not of 53 bytes")]
    CellLength,
    #[error("cell memory not of 16 blocks for each port")]
    CellMemoryLength,
    #[error("note memory not of 64 blocks")]
    NoteMemoryLength,
    #[error("slot bytes not 53 for each port")]
    SlotBytesLength,
    #[error("idle cell or bytes to look into not 53")]
    IdleOrLookLength,
    #[error("port count not from 2 to 8")]
    PortCount,
    #[error("period not from 2 to 64")]
    PeriodRange,
    #[error("output reserved by another input")]
    OutputReserved,
    #[error("line of more than 200 bytes")]
    LineTooLong,
    /// The place, in bytes from 0, of the first byte that is not the digit that should stand there;
    /// the line's length if that digit is missing at the end.
    #[error("digit wrong or missing")]
    WrongDigit { place: usize },
    #[error("unknown kind of frame")]
    UnknownKind,
    #[error("frame empty or of the wrong length")]
    FrameLength,
    #[error("arbiter code not 01 or 02")]
    UnknownArbiter,

    #[error("ticket not of this mark, slot and stage")]
    WrongTicket,
    #[error("slot already open")]
    SlotOpen,
    #[error("no slot number after 4294967295")]
    NoSlotNumber,
    #[error("turn of the input used in this slot")]
    TurnUsed,
    #[error("no route for the circuit")]
    NoRoute,
    #[error("all 16 blocks of the input hold cells")]
    InputFull,
    #[error("32 routes at the input and this circuit new")]
    RoutesFull,
    #[error("no such route")]
    NoSuchRoute,
    #[error("grants not sent yet")]
    GrantsUnsent,
    #[error("no grant left to send")]
    NoGrantLeft,
    #[error("no free note block")]
    NotesFull,
    #[error("no note")]
    NoNote,
    #[error("no cell to look at")]
    NoCell,
    #[error("frame before the recording's start, or a second start")]
    OutOfPlace,
}

impl Refusal {
    /// The number that stands for the refusal in a recording and in the documents.
    pub fn number(&self) -> u8
        ensures { result ≡ number_of self.now }
    {
        // No cast of the enum to its discriminant gives the number, since one variant carries a place.
        match self {
            Refusal::PortBeyond => 1,
            Refusal::CellLength => 2,
            Refusal::CellMemoryLength => 3,
            Refusal::NoteMemoryLength => 4,
            Refusal::SlotBytesLength => 5,
            Refusal::IdleOrLookLength => 6,
            Refusal::PortCount => 7,
            Refusal::PeriodRange => 8,
            Refusal::OutputReserved => 9,
            Refusal::LineTooLong => 10,
            Refusal::WrongDigit { .. } => 11,
            Refusal::UnknownKind => 12,
            Refusal::FrameLength => 13,
            Refusal::UnknownArbiter => 14,
            Refusal::WrongTicket => 20,
            Refusal::SlotOpen => 21,
            Refusal::NoSlotNumber => 22,
            Refusal::TurnUsed => 23,
            Refusal::NoRoute => 24,
            Refusal::InputFull => 25,
            Refusal::RoutesFull => 26,
            Refusal::NoSuchRoute => 27,
            Refusal::GrantsUnsent => 28,
            Refusal::NoGrantLeft => 29,
            Refusal::NotesFull => 30,
            Refusal::NoNote => 31,
            Refusal::NoCell => 32,
            Refusal::OutOfPlace => 33,
        }
    }

    /// The place in the line, for a digit that is wrong or missing.
    pub fn place(&self) -> Option<usize>
        ensures { result ≡ place_of self.now }
    {
        match self {
            Refusal::WrongDigit { place } => Some(*place),
            _ => None,
        }
    }
}
