//! The link between the nodes: it loses, doubles and delays packets as the words of a generator say.
#![tactic(auto)]

mod fates;
mod link;
mod waiting;

pub use link::Link;
