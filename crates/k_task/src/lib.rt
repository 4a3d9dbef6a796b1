//! The tasks of a kernel and the calls on them: which are active, runnable, suspended or wait, and which one runs.
#![tactic(auto)]

mod acts;
mod beginning;
mod blocks;
mod counts;
mod dids;
mod named;
mod opening;
mod order;
mod priorities;
mod sleeping;
mod suspending;
mod table;
mod tasks;

pub use spec_kernel::Did;
pub use tasks::Tasks;
