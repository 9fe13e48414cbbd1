//! After how many closings a cell has left a switch over a pile of three reservations.
#![tactic(auto)]

mod making;
mod periods;
mod switches;

pub use making::pile;
pub use periods::Periods;
pub use piles::Pile;
pub use switches::{piled_switch, switch_over};
