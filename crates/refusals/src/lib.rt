//! Every refusal of the switch, of its arbiters and of its lines, and the number that each is known by.
#![tactic(auto)]

mod refusal;

pub use refusal::Refusal;
