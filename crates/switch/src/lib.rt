//! The crossbar cell switch: its state, its tickets and its ten calls.
#![tactic(auto)]

pub mod state;
pub mod tickets;

pub use state::Switch;
pub use tickets::{ArrivalTicket, GrantTicket, Returned};
