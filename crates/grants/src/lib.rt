//! What an arbiter made of arbiter cells grants at a turn: the diagonal arbiter and the ripple arbiter.
//! Both are defined by the cell's equations and by how the cells are wired from the turn on; the code works on whole tables.
#![tactic(auto)]

mod decisions;
mod port_count;

pub use decisions::{diagonal_grants, ripple_grants};
pub use port_count::PortCount;
