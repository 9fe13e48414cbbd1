//! A recording played: its lines read, their frames played on the switch that the first names, and what it answers written as
//! lines.
#![tactic(auto)]

mod player;
mod playing;
mod writing;

pub use player::Player;
pub use writing::{write_ended, write_refusal};
