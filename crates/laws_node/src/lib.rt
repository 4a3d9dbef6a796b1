//! Laws of the specification of one node with handlers, its kernel and its network part together, over every list of events.
//! Each is the contract of a function without a body of its own.
#![tactic(auto)]

mod agreement;
mod at_rest;
mod end_points;
mod free_port;
mod handlers;
mod running;

pub use agreement::parts_of_a_node_agree;
pub use at_rest::no_call_of_a_node_waits_too_long;
pub use end_points::end_points_are_kept;
pub use free_port::any_port_is_the_least_free;
pub use handlers::{cyclic_handlers_are_due_once, handlers_come_before_tasks};
pub use running::{runnable_tasks_are_exact, running_tasks_wait_for_nothing};
