//! The objects on which tasks of a kernel wait (µITRON4.0 section 4.4): each kind with the tasks that wait there, in tables that
//! nothing allocates after the opening.
#![tactic(auto)]

mod dtq_calls;
mod dtq_ends;
mod dtqs;
mod flag_table;
mod flags;
mod next;
mod queue;
mod queues;
mod sem_table;
mod sems;
mod waiters;

pub use dtqs::Dtqs;
pub use flags::Flags;
#[doc(hidden)]
pub use queue::Queue;
pub use sems::Sems;
