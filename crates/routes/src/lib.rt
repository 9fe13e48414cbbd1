//! The route tables of all inputs: which output a cell is switched to, and the VCI that it leaves with.
#![tactic(auto)]

mod route;
mod table;
mod tables;

pub use route::Route;
pub use tables::Routes;
