//! The running kernel: tasks, semaphores, delays and the calls that wait, in tables that nothing allocates after the opening.
#![tactic(auto)]

mod accepting;
mod deadlines;
mod declarable;
mod done;
mod kernel;
mod opening;
mod outside;
mod refusals;
mod sem_calls;
mod tables;
mod task_calls;
mod waits;
mod waking;

pub use declarable::is_declarable;
pub use done::Done;
pub use kernel::Kernel;
pub use spec_kernel::{KAns, KEnd};
