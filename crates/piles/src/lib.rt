//! Piles of reservations: three of given periods on a diagonal arbiter, and as many of one period as a type is written deep.
//! Each is an arbiter by the one proof of the reservation, and its bound stands in a contract.
#![tactic(auto)]

mod any_depth;
mod of_three;

pub use any_depth::Deep;
pub use of_three::{Pile, pile_of_three};
