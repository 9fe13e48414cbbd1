//! The switch call by call, as plain definitions, and the law that holds after every run of its calls.
//!
//! The code of this crate is only what lies in lent memory, what the calls answer, and how far a slot has come: the
//! definitions, in `specs/`, and the code of the switch both speak of these types.
#![tactic(auto)]

pub mod answers;
pub mod memory;
pub mod stage;

pub use answers::{Arrival, Departed, SlotClosed};
pub use memory::{Block, Note};
pub use stage::Stage;
