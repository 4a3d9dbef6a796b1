//! Laws of the specification of two nodes and the packets between them, over every list of events. Each is the contract of a
//! function without a body of its own.
#![tactic(auto)]

mod agreement;
mod at_rest;
mod cause;
mod end_points;
mod handlers;
mod once;
mod packets;
mod running;

pub use agreement::parts_agree_in_both_nodes;
pub use at_rest::no_call_waits_too_long;
pub use cause::each_end_of_both_nodes_has_one_cause;
pub use end_points::end_points_are_kept_in_both_nodes;
pub use handlers::cyclic_handlers_are_due_once_in_both_nodes;
pub use once::each_call_of_both_nodes_ends_once;
pub use packets::packets_are_those_of_the_entries;
pub use running::{runnable_tasks_are_exact, running_tasks_wait_for_nothing_in_both_nodes};
