//! The notes of what was sent.

ghost use Rattle.switch.specs.Seen.{TakesNote};

use super::{NOTE_BLOCKS, Switch};
use arbiters::Arbiter;
use law::Note;
use refusals::Refusal;

impl<A: Arbiter> Switch<A> {
    /// Takes the oldest note of an output.
    pub fn take_note(&mut self, output: u8, notes: &[Note]) -> Result<Note, Refusal>
        ensures { TakesNote self.old output notes.now result self.new }
    {
        if output >= self.ports.number() {
            return Err(Refusal::PortBeyond);
        }
        if notes.len() != NOTE_BLOCKS {
            return Err(Refusal::NoteMemoryLength);
        }
        self.notes
            .take(notes, output as usize)
            .map_err(|_| Refusal::NoNote)
    }
}
