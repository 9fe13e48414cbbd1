//! The chapters: each drives a switch of its own, with the scene's memory lent to it, and writes what every call answered.

mod changes;
mod fullness;
mod notes;
mod numbers;
mod routing;
mod slots;
mod tickets;

pub use changes::routes_changed;
pub use fullness::seventeenth_cell;
pub use notes::notes_filling_up;
pub use numbers::last_slot_number;
pub use routing::routes;
pub use slots::slot_from_open_to_close;
pub use tickets::tickets_of_others;
