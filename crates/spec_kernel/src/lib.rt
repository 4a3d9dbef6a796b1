//! The specification of the kernel: its plain data, and as definitions its state, rows, settling and step.
#![tactic(auto)]

mod cyclic_block;
mod did;
mod flag_block;
mod handed;
mod outcome;
mod reason;
mod semaphore_block;
mod task_block;
mod task_wait;
mod waiter;

pub use cyclic_block::CyclicBlock;
pub use did::Did;
pub use flag_block::FlagBlock;
pub use handed::Handed;
pub use outcome::{KAns, KEnd};
pub use reason::{FlagWait, WaitReason, WaitingCall};
pub use semaphore_block::SemaphoreBlock;
pub use task_block::TaskBlock;
pub use task_wait::TaskWait;
pub use waiter::Waiter;
