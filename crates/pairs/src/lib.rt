//! Tables of pairs (input, output) of at most eight inputs and eight outputs, and sets of at most eight ports.
//! A table is one word and a set is one byte, but nothing outside this crate sees a bit of them, unless it asks for a byte.
#![tactic(auto)]

mod ports;
mod table;

pub use ports::Ports;
pub use table::Table;
