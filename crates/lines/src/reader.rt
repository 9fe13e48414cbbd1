//! A reader of lines that holds no more than the start of one line.

use crate::frame::Frame;
use arrayvec::ArrayVec;
use refusals::Refusal;

mod calls;

/// How much of a line tells what it says: one byte more than the longest has.
const KEPT: usize = 201;

/// What ends a line.
const LINE_FEED: u8 = 0x0A;

/// What a line says, and the line's number, from 1.
#[derive(Clone, Copy)]
pub struct SlotLine {
    pub number: u32,
    pub frame: Result<Frame, Refusal>,
}

/// How many bytes of a piece were used, and the line that ended with the last of them.
#[derive(Clone, Copy)]
pub struct Fed {
    pub used: usize,
    pub line: Option<SlotLine>,
}

/// The first 201 bytes of the line that is being read, and its number.
#[derive(Drop)]
pub struct LineReader {
    start: ArrayVec<u8, KEPT>,
    number: u32,
}
