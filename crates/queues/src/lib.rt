//! Queue memory: several first-in first-out queues in one set of blocks, as hardware keeps them.
//!
//! `Links` has the order of the blocks in each queue and of the free ones. What the blocks hold is a slice that the
//! caller lends at each call, so the same links serve every kind of element, and a part of a larger memory as well.
#![tactic(auto)]

mod block_list;
mod links;
mod queue;
mod refusal;

pub use links::Links;
pub use queue::QUEUES;
pub use refusal::QueueRefusal;
