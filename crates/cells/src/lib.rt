//! The 53-byte cell of the user network interface: the fields of its header as ITU-T I.361 lays them out,
//! the rewriting of its VCI, and the idle cell.
#![tactic(auto)]

mod header;
mod idle;
mod rewriting;

pub use header::{Header, vci};
pub use idle::{is_idle, is_idle_cell};
pub use rewriting::{rewrite, rewrite_cell};

/// The number of bytes of a cell: a header of five bytes and a payload of 48.
pub const CELL_BYTES: usize = 53;

/// The bytes of a cell, the first to arrive first.
pub type Cell = [u8; CELL_BYTES];
