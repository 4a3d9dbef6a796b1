//! The calls of a node's network part that wait, and the handlers that are due.
#![tactic(auto)]

mod calls;
mod due;
mod pend;

pub use pend::Pend;
pub use spec_pend::{Part, Slot, Who};
