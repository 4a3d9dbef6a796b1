//! One node: its kernel and its network part joined, with the answers that its tasks hold, its handlers and the numbers of its
//! calls.
#![tactic(auto)]

mod arriving;
mod callers;
mod calling;
mod handlers;
mod held;
mod network_calls;
mod node;
mod parts;
mod stepping;
mod taking;
mod ticking;
mod told;
mod udp_calls;

pub use node::Node;
#[doc(hidden)]
pub use parts::Parts;
pub use spec_node::{NodeEv, StepErr};
#[doc(hidden)]
pub use told::Told;
