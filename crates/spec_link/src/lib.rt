//! The specification of the link between the nodes: what becomes of each packet on its way, and the order in which packets arrive.
//! It is this project's own.
#![tactic(auto)]

mod deliveries;
mod delivery;
mod fate;
mod words;

pub use deliveries::{each_delivery_was_sent, no_copy_is_later};
pub use delivery::Delivery;
pub use fate::Fate;
pub use words::Words;
