//! The player.

use crate::playing::Playing;
use lines::LineReader;

mod calls;

/// Plays a recording that comes in pieces. It holds the start of one line, and the machine that the recording names.
#[derive(Drop)]
pub struct Player {
    reader: LineReader,
    playing: Playing,
}
