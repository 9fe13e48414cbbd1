//! The calls of a reader of lines.

ghost use Rattle.std.specs.Prelude.{◌≡◌, ◌<◌, ◌≤◌, ℕ, List, [], ◌++◌, length, take, drop};
ghost use Rattle.lines.specs.Lined.{OneWay};
ghost use Rattle.lines.specs.Reading.{AnyCut, after, fed, fresh, last, reading, still, as_list};

use super::{Fed, LINE_FEED, LineReader, SlotLine};
use crate::frame::frame_of;
use arrayvec::ArrayVec;
use memchr::memchr;

impl LineReader {
    /// At the start of the first line.
    pub fn new() -> LineReader
        ensures starts { reading result ≡ fresh }
        ensures law { AnyCut (reading result) }
        ensures lines { OneWay }
    {
        LineReader {
            start: ArrayVec::new(),
            number: 1,
        }
    }

    /// Keeps what there is room for.
    fn keep(&mut self, part: &[u8])
        ensures kept { self.new.start.items ≡ take 201 (self.old.start.items ++ part.now) }
        ensures same { self.new.number ≡ self.old.number }
    {
        let room = part.len().min(self.start.remaining_capacity());
        self.start.try_extend_from_slice(&part[..room]).unwrap();
    }

    /// Uses a piece of the input up to its first 0A, or to its end.
    pub fn feed(&mut self, piece: &[u8]) -> Fed
        ensures result { result ≡ fed (reading self.old) piece.now }
        ensures reader { reading self.new ≡ after (reading self.old) piece.now }
        ensures answers { (rest : List ℕ) → still (reading self.old) (piece.now ++ rest) ≡ as_list result.line ++ still (reading self.new) (drop result.used piece.now ++ rest) }
        ensures within { result.used ≤ length piece.now }
        ensures forward { 0 < length piece.now → 0 < result.used }
    {
        let Some(end) = memchr(LINE_FEED, piece) else {
            self.keep(piece);
            return Fed {
                used: piece.len(),
                line: None,
            };
        };
        let frame = if self.start.is_empty() {
            frame_of(&piece[..end])
        } else {
            self.keep(&piece[..end]);
            frame_of(self.start.as_slice())
        };
        let number = self.number;
        self.number = number.saturating_add(1);
        self.start.clear();
        Fed {
            used: end + 1,
            line: Some(SlotLine { number, frame }),
        }
    }

    /// The last line, if the input does not end with 0A.
    pub fn finish(self) -> Option<SlotLine>
        ensures result { result ≡ last (reading self) }
        ensures answers { still (reading self) [] ≡ as_list result }
    {
        if self.start.is_empty() {
            return None;
        }
        Some(SlotLine {
            number: self.number,
            frame: frame_of(self.start.as_slice()),
        })
    }
}
