//! The frame that one line spells.

ghost use Rattle.std.specs.Prelude.{◌≡◌, ◌+◌, ◌≤◌, Some, length};
ghost use Rattle.lines.specs.Frames.{cell_in, close_in, code_of, four, frame_in, frame_of, kind_of, name_of, route_in, start_in, two};
ghost use Rattle.lines.specs.Spelled.{FirstWrong, OneReading};
ghost use Rattle.lines.specs.Spelling.{FramesSpelled};

use crate::hex::decode;
use arrayvec::ArrayVec;
use refusals::Refusal;
use std::fmt;

/// The longest line, in bytes, without the 0A that ends it.
pub const LONGEST: usize = 200;

/// The kinds of frames: the first byte that a line spells.
const START: u8 = 0x00;

const ROUTE: u8 = 0x01;

const CELL: u8 = 0x02;

const CLOSE: u8 = 0x03;

/// What one line of a recording asks for.
#[derive(Clone, Copy)]
pub enum Frame {
    /// 00: the switch that the recording was made on.
    Start {
        ports: u8,
        arbiter: ArbiterKind,
        mark: u32,
        first_slot: u32,
    },
    /// 01: a route is set.
    Route {
        input: u8,
        vci: u16,
        output: u8,
        new_vci: u16,
    },
    /// 02: a cell arrives.
    Cell {
        input: u8,
        cell: [u8; 53],
    },
    /// 03: the slot is decided, sent and closed.
    Close,
}

/// The arbiters that a recording can name.
#[derive(Clone, Copy, PartialEq, Eq, Debug)]
pub enum ArbiterKind {
    Diagonal,
    Ripple,
}

impl TryFrom<u8> for ArbiterKind {
    type Error = Refusal;

    ghost try_from_gives = { λ code r. r ≡ kind_of code };

    fn try_from(code: u8) -> Result<ArbiterKind, Refusal> {
        match code {
            1 => Ok(ArbiterKind::Diagonal),
            2 => Ok(ArbiterKind::Ripple),
            _ => Err(Refusal::UnknownArbiter),
        }
    }
}

impl From<ArbiterKind> for u8 {
    ghost from_gives = { λ kind code. code ≡ code_of kind };

    fn from(kind: ArbiterKind) -> u8 {
        match kind {
            ArbiterKind::Diagonal => 1,
            ArbiterKind::Ripple => 2,
        }
    }
}

impl fmt::Display for ArbiterKind {
    ghost output = { λ kind. Some (name_of kind) };

    fn fmt<W: fmt::Write>(&self, f: &mut fmt::Formatter<W>) -> fmt::Result {
        f.write_str(match self {
            ArbiterKind::Diagonal => "diagonal",
            ArbiterKind::Ripple => "ripple",
        })
    }
}

fn start_in(bytes: &[u8]) -> Result<Frame, Refusal>
    ensures { result ≡ start_in bytes.now }
{
    let &[_, ports, code, m0, m1, m2, m3, s0, s1, s2, s3] = bytes else {
        return Err(Refusal::FrameLength);
    };
    Ok(Frame::Start {
        ports,
        arbiter: ArbiterKind::try_from(code)?,
        mark: u32::from_be_bytes([m0, m1, m2, m3]),
        first_slot: u32::from_be_bytes([s0, s1, s2, s3]),
    })
}

fn route_in(bytes: &[u8]) -> Result<Frame, Refusal>
    ensures { result ≡ route_in bytes.now }
{
    let &[_, input, v0, v1, output, n0, n1] = bytes else {
        return Err(Refusal::FrameLength);
    };
    Ok(Frame::Route {
        input,
        vci: u16::from_be_bytes([v0, v1]),
        output,
        new_vci: u16::from_be_bytes([n0, n1]),
    })
}

fn cell_in(bytes: &[u8]) -> Result<Frame, Refusal>
    ensures { result ≡ cell_in bytes.now }
{
    let [_, input, cell @ ..] = bytes else {
        return Err(Refusal::FrameLength);
    };
    let cell = <[u8; 53]>::try_from(cell).map_err(|_| Refusal::FrameLength)?;
    Ok(Frame::Cell {
        input: *input,
        cell,
    })
}

fn close_in(bytes: &[u8]) -> Result<Frame, Refusal>
    ensures { result ≡ close_in bytes.now }
{
    match bytes {
        [_] => Ok(Frame::Close),
        _ => Err(Refusal::FrameLength),
    }
}

/// The frame in the bytes that a line spells. The first byte is the frame's kind.
fn frame_in(bytes: &[u8]) -> Result<Frame, Refusal>
    ensures { result ≡ frame_in bytes.now }
{
    match bytes {
        [] => Err(Refusal::FrameLength),
        [START, ..] => start_in(bytes),
        [ROUTE, ..] => route_in(bytes),
        [CELL, ..] => cell_in(bytes),
        [CLOSE, ..] => close_in(bytes),
        _ => Err(Refusal::UnknownKind),
    }
}

/// The frame that a line spells, or why it spells none. The line comes without the 0A that ends it.
#[tactic(auto, using(crate::proofs::Spellings::frames_spelled, crate::proofs::Readings::one_reading, crate::proofs::Places::first_wrong))]
pub fn frame_of(line: &[u8]) -> Result<Frame, Refusal>
    ensures answer { result ≡ frame_of line.now }
    ensures frames { FramesSpelled }
    ensures reading { OneReading }
    ensures places { FirstWrong }
{
    if line.len() > LONGEST {
        return Err(Refusal::LineTooLong);
    }
    let mut bytes = ArrayVec::new();
    decode(line, &mut bytes)?;
    frame_in(bytes.as_slice())
}
