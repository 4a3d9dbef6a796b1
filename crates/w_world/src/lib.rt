//! Two nodes, the packets between them, and their history.
#![tactic(auto)]

mod nodes;
mod sent;
mod sizes;
mod taking;
mod world;

pub use spec_world::WErr;
pub use world::World;
