//! What a line is answered by, and how it is written.

use pairs::Table;
use refusals::Refusal;
use std::fmt;
use thiserror::Error;

/// Why a line is not carried out.
#[derive(Clone, Copy, Debug, Error)]
pub enum Fault {
    #[error("refused {:02}", .0.number())]
    Refused(#[from] Refusal),
    #[error("error: a line has at most 64 bytes")]
    LineTooLong,
    #[error("error: neither a command nor 16 hexadecimal digits")]
    UnknownLine,
    #[error("error: a decimal number is missing")]
    NoNumber,
    #[error("error: an input and an output are missing, with a space between them")]
    NoPair,
    #[error("error: no arbiter stands yet")]
    NoArbiter,
    #[error("error: no reservation stands yet")]
    NoReservation,
    #[error("error: three reservations stand already")]
    PileFull,
}

/// What a line that is carried out is answered by.
#[derive(Clone, Copy)]
pub enum Answer {
    Done,
    Wait(u16),
    Grants(Table),
}

impl fmt::Display for Answer {
    fn fmt<W: fmt::Write>(&self, f: &mut fmt::Formatter<W>) -> fmt::Result {
        match self {
            Answer::Done => f.write_str("ok"),
            Answer::Wait(wait) => write!(f, "wait {wait}"),
            Answer::Grants(grants) => {
                for input in 0..8 {
                    write!(f, "{:02X}", grants.outputs(input).byte())?;
                }
                Ok(())
            }
        }
    }
}
