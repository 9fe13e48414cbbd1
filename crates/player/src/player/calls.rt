//! The calls of a player.

ghost use Rattle.std.specs.Prelude.{◌≡◌, ℕ, ◌<◌, ◌≤◌, List, ◌++◌, length, IfOk, OnOk};
ghost use Rattle.lines.specs.Reading.{fed};
ghost use Rattle.player.specs.Players.{held};
ghost use Rattle.player.specs.Playing.{Does};
ghost use Rattle.player.specs.Recording.{AnyPieces, end_played, piece_played, starts, still_written};

use crate::player::Player;
use crate::playing::Playing;
use lines::LineReader;
use std::alloc::{AllocError, Global};

impl Player {
    /// At the start of a recording: no switch is named yet.
    pub fn new(heap: Global) -> Player
        ensures start { held result ≡ starts }
        ensures law { AnyPieces (held result) }
    {
        Player {
            reader: LineReader::new(),
            playing: Playing::new(heap),
        }
    }

    /// Uses a piece of the recording up to its first 0A, or to its end; a line that ends there is played, and what is answered
    /// to it is added to `out`. Says how much of the piece was used. After an error, for want of memory, the player is of no use.
    pub fn feed(&mut self, piece: &[u8], out: &mut Vec<u8>) -> Result<usize, AllocError>
        ensures used { IfOk result (λ n. n ≡ (fed (held self.old).reading piece.now).used) }
        ensures played { OnOk result (Does (piece_played (held self.old) piece.now) (held self.new) out.old.items out.new.items) }
        ensures within { IfOk result (λ n. n ≤ length piece.now) }
        ensures forward { IfOk result (λ n. 0 < length piece.now → 0 < n) }
    {
        let fed = self.reader.feed(piece);
        if let Some(line) = &fed.line {
            self.playing.play(line, out)?;
        }
        Ok(fed.used)
    }

    /// Uses a whole piece of the recording: every line that ends in it is played, and what is answered is added to `out`. After
    /// an error, for want of memory, the player is of no use.
    pub fn feed_all(&mut self, piece: &[u8], out: &mut Vec<u8>) -> Result<(), AllocError>
        // Whatever follows the piece, what is written and then what is still to be written are what was still to be written.
        ensures { OnOk result ((more : List ℕ) → out.new.items ++ still_written (held self.new) more ≡ out.old.items ++ still_written (held self.old) (piece.now ++ more)) }
    {
        let mut rest = piece;
        while !rest.is_empty() {
            let used = self.feed(rest, out)?;
            rest = &rest[used..];
        }
        Ok(())
    }

    /// Ends the recording: a line that has begun is played, and a slot that is open is ended.
    pub fn finish(self, out: &mut Vec<u8>) -> Result<(), AllocError>
        ensures { OnOk result (out.new.items ≡ out.old.items ++ end_played (held self)) }
    {
        let Player {
            reader,
            mut playing,
        } = self;
        if let Some(line) = &reader.finish() {
            playing.play(line, out)?;
        }
        playing.end(out)
    }
}
