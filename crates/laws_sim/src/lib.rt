//! Laws of the schedule over two nodes: what the histories of scripts are. Each is the contract of a function without a body
//! of its own.
#![tactic(auto)]

mod scheduled;
mod whole;

pub use scheduled::serial_is_scheduled;
pub use whole::{serial_ends, serial_is_a_run};
