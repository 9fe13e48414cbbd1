//! A switch at work: with the memory that it is lent, and the ticket of its open slot. Its calls are those that a recording
//! makes, and no grant ticket leaves it.
#![tactic(auto)]

mod departures;
mod machine;
mod sending;

pub use departures::{Departures, EndedSlot, Sent};
pub use machine::Machine;
