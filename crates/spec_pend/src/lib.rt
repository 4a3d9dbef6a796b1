//! The specification of what all protocols of the network part share: the calls that wait there, who is told of their ends, and
//! the handlers that are due.
#![tactic(auto)]

mod answer;
mod call;
mod once;
mod slot;

pub use answer::{NetAnswer, NetEnd};
pub use call::{NetCall, Who};
pub use once::a_call_ends_once;
pub use slot::{Part, Slot};
