//! A slot line in words.

use cells::{CELL_BYTES, Cell, Header};
use lines::{Frame, SlotLine, spell_into};
use refusals::Refusal;
use std::fmt::Write;
use std::{fmt, str};

/// A cell's bytes, by two digits each.
#[derive(Clone, Copy)]
struct Digits<'a>(&'a Cell);

impl fmt::Display for Digits<'_> {
    fn fmt<W: Write>(&self, f: &mut fmt::Formatter<W>) -> fmt::Result {
        let Digits(cell) = *self;
        // All at once: with a `{byte:02X}` for each byte, 50 MB take 1.37 s and not 0.33 s.
        let mut text = [0; 2 * CELL_BYTES];
        spell_into(cell, &mut text);
        f.write_str(str::from_utf8(&text).map_err(|_| fmt::Error)?)
    }
}

/// What the frame of a line says, with its fields.
#[derive(Clone, Copy)]
struct Said<'a> {
    number: u32,
    frame: &'a Frame,
}

impl fmt::Display for Said<'_> {
    // The number too is written here: a `write!` around this one makes short lines a third slower.
    fn fmt<W: Write>(&self, f: &mut fmt::Formatter<W>) -> fmt::Result {
        let number = self.number;
        match self.frame {
            Frame::Start {
                ports,
                arbiter,
                mark,
                first_slot,
            } => {
                let code = u8::from(*arbiter);
                write!(
                    f,
                    "{number}: start: {ports} ports, arbiter {code:02X} ({arbiter}), mark {mark:08X}, first slot {first_slot}"
                )
            }
            Frame::Route {
                input,
                vci,
                output,
                new_vci,
            } => write!(
                f,
                "{number}: route: input {input}, circuit {vci:04X}, output {output}, new circuit {new_vci:04X}"
            ),
            Frame::Cell { input, cell } => {
                let Header {
                    gfc,
                    vpi,
                    vci,
                    payload_type,
                    loss_priority,
                } = Header::from(cell);
                let digits = Digits(cell);
                write!(
                    f,
                    "{number}: cell: input {input}, GFC {gfc:X}, VPI {vpi:02X}, VCI {vci:04X}, PT {payload_type}, CLP {loss_priority}, bytes {digits}"
                )
            }
            Frame::Close => write!(f, "{number}: close"),
        }
    }
}

/// Why a line was refused, and where.
#[derive(Clone, Copy)]
struct Refused {
    number: u32,
    refusal: Refusal,
}

impl fmt::Display for Refused {
    fn fmt<W: Write>(&self, f: &mut fmt::Formatter<W>) -> fmt::Result {
        let Refused { number, refusal } = *self;
        let code = refusal.number();
        write!(f, "{number}: refused {code:02}: {refusal}")?;
        if let Some(place) = refusal.place() {
            write!(f, ", at {place}")?;
        }
        Ok(())
    }
}

/// A slot line in words: its number, and its frame with its fields or why it was refused.
#[derive(Clone, Copy)]
pub struct Listed<'a>(pub &'a SlotLine);

impl fmt::Display for Listed<'_> {
    fn fmt<W: Write>(&self, f: &mut fmt::Formatter<W>) -> fmt::Result {
        let number = self.0.number;
        match &self.0.frame {
            Ok(frame) => Said { number, frame }.fmt(f),
            Err(refusal) => Refused {
                number,
                refusal: *refusal,
            }
            .fmt(f),
        }
    }
}
