//! The way out of the switch: the bytes of a cell as it leaves, shown from cell memory before it leaves, written into
//! the slot bytes of its output when it does, and read there afterwards.
#![tactic(auto)]

mod line;
mod look;
mod sending;
mod stored;

pub use line::line_of;
pub use look::{check_length, show_at, show_block};
pub use sending::send_into;
