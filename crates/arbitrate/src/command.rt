//! What a line asks for.

use crate::answer::Fault;
use crate::line::Line;
use pairs::{Ports, Table};

/// What a line asks for.
#[derive(Clone, Copy)]
pub enum Command {
    StartDiagonal { ports: u8 },
    StartRipple { ports: u8 },
    Use(Action),
}

/// What is asked of the arbiter that stands.
#[derive(Clone, Copy)]
pub enum Action {
    Period { slots: u8 },
    Reserve { input: u8, output: u8 },
    Wait { input: u8, output: u8 },
    Decide { requests: Table },
}

/// Reads a line.
pub fn read(line: &Line) -> Result<Command, Fault> {
    if line.is_too_long() {
        return Err(Fault::LineTooLong);
    }
    let text = line.bytes();
    let command = match split_at_space(text) {
        Some((b"diagonal", rest)) => Command::StartDiagonal {
            ports: number(rest)?,
        },
        Some((b"ripple", rest)) => Command::StartRipple {
            ports: number(rest)?,
        },
        Some((b"period", rest)) => Command::Use(Action::Period {
            slots: number(rest)?,
        }),
        Some((b"reserve", rest)) => {
            let (input, output) = pair(rest)?;
            Command::Use(Action::Reserve { input, output })
        }
        Some((b"wait", rest)) => {
            let (input, output) = pair(rest)?;
            Command::Use(Action::Wait { input, output })
        }
        _ => Command::Use(Action::Decide {
            requests: table(text)?,
        }),
    };
    Ok(command)
}

/// What stands before the first space and what stands after it.
fn split_at_space(text: &[u8]) -> Option<(&[u8], &[u8])> {
    let space = text.iter().position(|byte| *byte == b' ')?;
    Some((&text[..space], &text[space + 1..]))
}

/// A decimal number. Numbers above 255 count as 255, which is beyond any port count or period too.
fn number(text: &[u8]) -> Result<u8, Fault> {
    if text.is_empty() {
        return Err(Fault::NoNumber);
    }
    let mut value = 0u8;
    for byte in text {
        let digit = (*byte as char).to_digit(10).ok_or(Fault::NoNumber)?;
        value = value.saturating_mul(10).saturating_add(digit as u8);
    }
    Ok(value)
}

/// Two decimal numbers with a space between them.
fn pair(text: &[u8]) -> Result<(u8, u8), Fault> {
    let (input, output) = split_at_space(text).ok_or(Fault::NoPair)?;
    Ok((number(input)?, number(output)?))
}

/// A table of requests: two hexadecimal digits for each input, from input 0 on.
fn table(text: &[u8]) -> Result<Table, Fault> {
    let mut outputs = [0; 8];
    hex::decode_to_slice(text, &mut outputs).map_err(|_| Fault::UnknownLine)?;
    let mut requests = Table::empty();
    for (input, byte) in outputs.iter().enumerate() {
        requests = requests.with_outputs(input, Ports::from_byte(*byte));
    }
    Ok(requests)
}
