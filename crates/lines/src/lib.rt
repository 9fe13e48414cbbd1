//! Slot lines: a recording cut into lines, the frame that each line spells or why it spells none, and the lines that are written.
#![tactic(auto)]

mod frame;
mod hex;
mod reader;
mod written;

pub use frame::{ArbiterKind, Frame, LONGEST, frame_of};
pub use reader::{Fed, LineReader, SlotLine};
pub use written::{DepartureLine, closing_line, departure_line, refusal_line, spell_into};
